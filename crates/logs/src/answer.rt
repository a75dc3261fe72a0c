// What a collection answers.
ghost use Rattle.std.specs.Prelude.{Some};
ghost use Rattle.logs.specs.Texts.{answer_text, symbol_text};

use std::fmt;

// How an equation that was offered stands to the vectors that were possible before it.
#[derive(Clone, Copy, PartialEq, Eq, Debug)]
pub enum Answer {
    // Some of them satisfy it and some do not: it is kept, after so many others.
    Kept(usize),
    // All of them satisfy it.
    Implied,
    // None of them satisfies it.
    Contradiction,
}

// What is known of one unknown.
#[derive(Clone, Copy, PartialEq, Eq, Debug)]
pub enum Symbol {
    // All possible vectors have this code there.
    Known(u32),
    // They do not, and this is the number of the first kernel vector that is not 0 there.
    Open(usize),
}

impl fmt::Display for Answer {
    ghost output = { λ a. Some (answer_text a) };

    fn fmt<W: fmt::Write>(&self, f: &mut fmt::Formatter<W>) -> fmt::Result {
        match self {
            Answer::Kept(before) => write!(f, "kept {before}"),
            Answer::Implied => write!(f, "implied"),
            Answer::Contradiction => write!(f, "contradiction"),
        }
    }
}

impl fmt::Display for Symbol {
    ghost output = { λ s. Some (symbol_text s) };

    fn fmt<W: fmt::Write>(&self, f: &mut fmt::Formatter<W>) -> fmt::Result {
        match self {
            Symbol::Known(code) => write!(f, "known {code}"),
            Symbol::Open(k) => write!(f, "open {k}"),
        }
    }
}
