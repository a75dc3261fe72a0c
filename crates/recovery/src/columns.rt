// What the columns of the slots say of the unknowns.
ghost use Rattle.std.specs.Prelude.{◌≡◌, ℕ, ◌<◌, length, slice_get, IfSome};
ghost use Rattle.algebra.specs.Vectors.{entries};
ghost use Rattle.recovery.specs.Cells.{cell};
ghost use Rattle.recovery.specs.Columns.{free_in, FirstMoving, NegativeColumn};

use crate::table::Table;
use algebra::ring::Ring;

impl Table {
    // Writes the value of each slot. By index, since no fact is left of what a `zip` of `iter_mut` wrote.
    pub(crate) fn write_values(&self, out: &mut [u32])
        requires { length out.old ≡ self.now.width }
        ensures { (k : ℕ) → k < length out.old → entries out.new k ≡ cell self.now.slots k self.now.width }
    {
        for (i, x) in out.iter_mut().enumerate() {
            *x = self.slots[i][self.width];
        }
    }

    // The k-th free column.
    pub(crate) fn free_column(&self, k: usize) -> Option<usize>
        ensures here { result ≡ slice_get (free_in self.now.slots self.now.width) k }
        ensures inside { IfSome result (λ c. c < self.now.width) }
    {
        (0..self.width).filter(|c| self.slots[*c][*c] == 0).nth(k)
    }

    // The number of the first free column that moves the unknown j.
    pub(crate) fn first_moving(&self, j: usize) -> Option<usize>
        requires { j < self.now.width }
        ensures { FirstMoving self.now.slots self.now.width j result }
    {
        (0..self.width)
            .filter(|c| self.slots[*c][*c] == 0)
            .position(|c| c == j || self.slots[j][c] != 0)
    }

    // Writes the negatives of column f, with 1 at f. By index, as `write_values`.
    pub(crate) fn write_kernel<R: Ring>(&self, r: &R, f: usize, out: &mut [u32])
        requires long { length out.old ≡ self.now.width }
        requires inside { f < self.now.width }
        ensures { NegativeColumn (R.Ring.meaning r.now).negative self.now.slots f out.new }
    {
        for (i, x) in out.iter_mut().enumerate() {
            *x = r.negative(self.slots[i][f]);
        }
        out[f] = 1;
    }
}
