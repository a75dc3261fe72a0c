// Refusing numbers that are no codes.
ghost use Rattle.std.specs.Prelude.{◌≡◌, Ok};
ghost use Rattle.algebra.specs.Outside.{first_outside};
ghost use Rattle.windows.specs.Codes.{unless_outside};

use crate::refusal::Refusal;
use algebra::codes::first_outside;
use algebra::ring::Ring;

// Refuses the first number that is not below the order, with the window's number and its position.
pub(crate) fn check_codes<R: Ring>(r: &R, window: usize, cells: &[u32]) -> Result<(), Refusal>
    ensures { result ≡ unless_outside window (first_outside (R.Ring.meaning r.now).order 0 cells.now) (Ok tt) }
{
    match first_outside(r, cells) {
        Some(position) => Err(Refusal::Code { window, position }),
        None => Ok(()),
    }
}
