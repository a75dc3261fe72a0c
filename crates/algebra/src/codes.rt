// Numbers that are no codes of a ring.
ghost use Rattle.std.specs.Prelude.{◌≡◌, nat_le, position};
ghost use Rattle.algebra.specs.Outside.{first_outside};

use crate::ring::Ring;

// The position of the first number that is not below the order.
pub fn first_outside<R: Ring>(r: &R, cells: &[u32]) -> Option<usize>
    ensures { result ≡ first_outside (R.Ring.meaning r.now).order 0 cells.now }
{
    first_at_least(r.order(), cells)
}

// The position of the first number that is not below the bound.
fn first_at_least(bound: u64, cells: &[u32]) -> Option<usize>
    ensures { result ≡ position (λ x. nat_le bound x) cells.now }
{
    cells.iter().position(|x| u64::from(*x) >= bound)
}
