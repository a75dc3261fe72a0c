// Why a call on windows is refused.
ghost use Rattle.std.specs.Prelude.{◌≡◌, Some};
ghost use Rattle.windows.specs.Refusals.{number, refusal_text};

use std::error::Error;
use std::fmt;

#[derive(Clone, Copy, PartialEq, Eq, Debug)]
pub enum Refusal {
    // A side is not from 1 to 256.
    Side,
    // The length is not rows times columns.
    Length,
    // The sides of the windows do not fit the call.
    Fit,
    // A number that was read is not below the order: the first window that has one, and its first position there.
    Code { window: usize, position: usize },
}

impl Refusal {
    // The number that the refusal is known by.
    pub fn number(&self) -> u32
        ensures { result ≡ number self.now }
    {
        match self {
            Refusal::Side => 7,
            Refusal::Length => 8,
            Refusal::Fit => 9,
            Refusal::Code { .. } => 4,
        }
    }
}

impl fmt::Display for Refusal {
    ghost output = { λ r. Some (refusal_text r) };

    fn fmt<W: fmt::Write>(&self, f: &mut fmt::Formatter<W>) -> fmt::Result {
        let number = self.number();
        match self {
            Refusal::Code { window, position } => write!(
                f,
                "refused {number} window {window} position {position}"
            ),
            _ => write!(f, "refused {number}"),
        }
    }
}

impl Error for Refusal {}
