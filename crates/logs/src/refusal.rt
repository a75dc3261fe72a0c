// Why a call on a collection is refused.
ghost use Rattle.std.specs.Prelude.{◌≡◌, Some};
ghost use Rattle.logs.specs.Refusals.{number, position};
ghost use Rattle.logs.specs.Texts.{refusal_text};

use std::error::Error;
use std::fmt;

#[derive(Clone, Copy, PartialEq, Eq, Debug)]
pub enum Refusal {
    // The number of unknowns is not from 1 to 64.
    Width,
    // There are not as many coefficients as unknowns.
    Coefficients,
    // A slice, for weights or for an answer, is not as long as there are unknowns.
    Length,
    // A coefficient or the value is not below the order: the first position, the value's being the number of unknowns.
    Code { position: usize },
    // There is no kernel vector of that number.
    Kernel,
    // There is no unknown of that number.
    Unknown,
}

impl Refusal {
    // The number that the refusal is known by.
    pub fn number(&self) -> u32
        ensures { result ≡ number self.now }
    {
        match self {
            Refusal::Width => 1,
            Refusal::Coefficients => 2,
            Refusal::Length => 3,
            Refusal::Code { .. } => 4,
            Refusal::Kernel => 5,
            Refusal::Unknown => 6,
        }
    }

    // The position that the refusal carries, if it carries one.
    pub fn position(&self) -> Option<usize>
        ensures { result ≡ position self.now }
    {
        match self {
            Refusal::Code { position } => Some(*position),
            _ => None,
        }
    }
}

impl fmt::Display for Refusal {
    ghost output = { λ r. Some (refusal_text r) };

    fn fmt<W: fmt::Write>(&self, f: &mut fmt::Formatter<W>) -> fmt::Result {
        let number = self.number();
        match self.position() {
            Some(position) => write!(f, "refused {number} position {position}"),
            None => write!(f, "refused {number}"),
        }
    }
}

impl Error for Refusal {}
