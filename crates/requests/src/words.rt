// What the words of one line say: a command, the sides of a matrix, a row.
ghost use Rattle.std.specs.Prelude.{◌≡◌};
ghost use Rattle.text.specs.Text.{words};
ghost use Rattle.requests.specs.Format.{command, sides};
ghost use Rattle.requests.specs.Giving.{Adds};

use crate::fault::{Expected, Fault, malformed};
use crate::request::RingName;
use text::lines::Line;
use text::number::parse_number;
use text::stop::Stop;
use text::words::{is_same, only_word, split_word};

// The ring of a line `product RING`.
pub(crate) fn parse_command(text: &[u8]) -> Result<RingName, Expected>
    ensures { result ≡ command (words text.now) }
{
    let (word, rest) = split_word(text).ok_or(Expected::Command)?;
    if !is_same(word, b"product") {
        return Err(Expected::Command);
    }
    let name = only_word(rest).ok_or(Expected::Ring)?;
    RingName::try_from(name).map_err(|_| Expected::Ring)
}

// The rows and the columns of a line that is just two numbers.
pub(crate) fn parse_sides(text: &[u8]) -> Option<(u32, u32)>
    ensures { result ≡ sides (words text.now) }
{
    let (rows, rest) = split_word(text)?;
    Some((parse_number(rows)?, parse_number(only_word(rest)?)?))
}

// Adds the numbers of a line to the cells, if it has just as many as there are columns.
#[tactic(auto, using(crate::proofs::Adding::row_steps))]
pub(crate) fn parse_row(
    line: Line<'_>,
    columns: usize,
    cells: &mut Vec<u32>,
) -> Result<(), Stop<Fault>>
    ensures { Adds cells.old.items cells.new.items line.entry.number columns (words line.entry.text.now) result }
{
    let unfit = malformed(line.number, Expected::Row { columns });
    let mut rest = line.text;
    for _ in 0..columns {
        let (word, after) = split_word(rest).ok_or(unfit)?;
        let number = parse_number(word).ok_or(unfit)?;
        cells.push(number)?;
        rest = after;
    }
    match split_word(rest) {
        None => Ok(()),
        Some(_) => Err(unfit),
    }
}
