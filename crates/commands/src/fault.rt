// Where and why a text is not the text of a pass.
ghost use Rattle.std.specs.Prelude.{◌≡◌, Some};
ghost use Rattle.text.specs.declared.stop.Stop.TheVariants.{Malformed};
ghost use Rattle.commands.specs.Messages.{expected_text};

use crate::keyword::Keyword;
use std::fmt;
use text::stop::Stop;

// What should have stood on the faulty line.
#[derive(Clone, Copy, Debug, PartialEq, Eq)]
pub enum Expected {
    FieldOrUnknowns,
    Unknowns,
    Collecting,
    Published,
    FieldName,
    Equation,
    Number { after: Keyword },
    Nothing { after: Keyword },
}

pub type Fault = text::fault::Fault<Expected>;

impl From<Expected> for Stop<Expected> {
    ghost from_gives = { λ e r. r ≡ Malformed e };

    fn from(expected: Expected) -> Stop<Expected> {
        Stop::Malformed(expected)
    }
}

impl fmt::Display for Expected {
    ghost output = { λ e. Some (expected_text e) };

    fn fmt<W: fmt::Write>(&self, f: &mut fmt::Formatter<W>) -> fmt::Result {
        match self {
            Expected::FieldOrUnknowns => { f.write_str("the command `field NAME` or `unknowns N`") }
            Expected::Unknowns => f.write_str("the command `unknowns N`"),
            Expected::Collecting => f.write_str("`offer`, `rank`, `publish` or `unknowns`"),
            Expected::Published => {
                f.write_str("`solution`, `kernel K`, `symbol J`, `report` or `unknowns N`")
            }
            Expected::FieldName => {
                f.write_str("one field after `field`: residues, octets or octets-by-shifts")
            }
            Expected::Equation => {
                f.write_str("whole numbers below 2^32, `|` and one whole number after `offer`")
            }
            Expected::Number { after } => {
                write!(f, "one whole number below 2^32 after `{after}`")
            }
            Expected::Nothing { after } => write!(f, "nothing after `{after}`"),
        }
    }
}
