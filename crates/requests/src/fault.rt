// What a faulty line should have held.
ghost use Rattle.std.specs.Prelude.{◌≡◌, Some};
ghost use Rattle.requests.specs.Messages.{expected_text};
ghost use Rattle.text.specs.declared.stop.Stop.TheVariants.{Malformed};

use std::fmt;
use text::stop::Stop;

// What should have stood on the faulty line.
#[derive(Clone, Copy, Debug, PartialEq, Eq)]
pub enum Expected {
    Command,
    Ring,
    Sides,
    Row { columns: usize },
}

// Where and why a text is not a list of requests.
pub type Fault = text::fault::Fault<Expected>;

impl fmt::Display for Expected {
    ghost output = { λ e. Some (expected_text e) };

    fn fmt<W: fmt::Write>(&self, f: &mut fmt::Formatter<W>) -> fmt::Result {
        match self {
            Expected::Command => write!(f, "the command `product RING`"),
            Expected::Ring => write!(
                f,
                "one ring after `product`: words, residues, octets or octets-by-shifts"
            ),
            Expected::Sides => write!(
                f,
                "the rows and the columns of a matrix, two whole numbers below 2^32"
            ),
            Expected::Row { columns: 1 } => write!(f, "a row of one whole number below 2^32"),
            Expected::Row { columns } => {
                write!(f, "a row of {columns} whole numbers below 2^32")
            }
        }
    }
}

// A line does not fit the format.
pub(crate) fn malformed(line: usize, expected: Expected) -> Stop<Fault>
    ensures { result ≡ Malformed (record { line = line; expected = expected }) }
{
    Stop::Malformed(Fault { line, expected })
}
