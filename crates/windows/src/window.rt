// Windows: lent slices of codes, shown as rows and columns.
ghost use Rattle.std.specs.Prelude.{◌≡◌, ◌*◌, true, ◌&&◌, length};
ghost use Rattle.windows.specs.Sides.{is_side, checked};

mod methods;

use crate::refusal::Refusal;

// The longest side of a window.
pub const LONGEST_SIDE: usize = 256;

// A lent slice as a matrix, one row after another. Positions are counted from 0.
#[derive(Drop)]
pub struct Window<'a> {
    pub(crate) cells: &'a mut [u32],
    pub(crate) rows: usize,
    pub(crate) columns: usize,
    ghost sides: { (is_side rows && is_side columns) ≡ true },
    ghost fits: { length cells.now ≡ rows * columns },
}

// Whether a slice of this length can be shown with these sides.
pub fn check(rows: usize, columns: usize, length: usize) -> Result<(), Refusal>
    ensures { result ≡ checked rows columns length }
{
    let sides = 1..=LONGEST_SIDE;
    if !sides.contains(&rows) || !sides.contains(&columns) {
        return Err(Refusal::Side);
    }
    if length != rows * columns {
        return Err(Refusal::Length);
    }
    Ok(())
}
