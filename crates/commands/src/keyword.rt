// The words that commands begin with.
ghost use Rattle.std.specs.Prelude.{Some};
ghost use Rattle.text.specs.Names.{Names};
ghost use Rattle.commands.specs.Keywords.{keyword_named, keyword_text};

use std::fmt;
use text::words::UnknownWord;

#[derive(Clone, Copy, Debug, PartialEq, Eq)]
pub enum Keyword {
    Field,
    Unknowns,
    Offer,
    Rank,
    Publish,
    Solution,
    Kernel,
    Symbol,
    Report,
}

impl TryFrom<&[u8]> for Keyword {
    type Error = UnknownWord;

    ghost try_from_gives = { λ w r. Names (keyword_named w.now) r };

    #[tactic(auto, using(crate::proofs::Naming::keywords_read))]
    fn try_from(word: &[u8]) -> Result<Keyword, UnknownWord> {
        match word {
            b"field" => Ok(Keyword::Field),
            b"unknowns" => Ok(Keyword::Unknowns),
            b"offer" => Ok(Keyword::Offer),
            b"rank" => Ok(Keyword::Rank),
            b"publish" => Ok(Keyword::Publish),
            b"solution" => Ok(Keyword::Solution),
            b"kernel" => Ok(Keyword::Kernel),
            b"symbol" => Ok(Keyword::Symbol),
            b"report" => Ok(Keyword::Report),
            _ => Err(UnknownWord),
        }
    }
}

impl fmt::Display for Keyword {
    ghost output = { λ k. Some (keyword_text k) };

    fn fmt<W: fmt::Write>(&self, f: &mut fmt::Formatter<W>) -> fmt::Result {
        f.write_str(match self {
            Keyword::Field => "field",
            Keyword::Unknowns => "unknowns",
            Keyword::Offer => "offer",
            Keyword::Rank => "rank",
            Keyword::Publish => "publish",
            Keyword::Solution => "solution",
            Keyword::Kernel => "kernel",
            Keyword::Symbol => "symbol",
            Keyword::Report => "report",
        })
    }
}
