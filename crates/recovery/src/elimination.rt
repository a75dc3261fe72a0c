// The steps of elimination on the slots of a table.
ghost use Rattle.std.specs.Prelude.{◌≡◌, ℕ, ◌<◌, ◌≤◌, length};
ghost use Rattle.algebra.specs.Vectors.{entries};
ghost use Rattle.recovery.specs.Cells.{cell, taken_out, Extended, FirstNonzero, Divided, Cleared, Placed};

use crate::table::{CELLS, Slots, Table, UNKNOWNS};
use algebra::field::Field;
use algebra::multiples::{add_multiple, scale};
use algebra::ring::Ring;

// An equation as a row of cells, with no weights; of fixed size as the slots, so that it needs no memory from elsewhere.
pub(crate) fn extended(coefficients: &[u32], value: u32) -> [u32; CELLS]
    requires { length coefficients.now < CELLS }
    ensures { Extended coefficients.now value result }
{
    let mut row = [0; CELLS];
    row[..coefficients.len()].copy_from_slice(coefficients);
    row[coefficients.len()] = value;
    row
}

// The first cell that is not 0.
pub(crate) fn first_nonzero(row: &[u32]) -> Option<usize>
    ensures { FirstNonzero (length row.now) row.now result }
{
    row.iter().position(|x| *x != 0)
}

// Divides the row by its cell q.
pub(crate) fn divide<F: Field>(f: &F, row: &mut [u32], q: usize)
    requires { q < length row.old }
    ensures { Divided (F.Ring.meaning f.now) q row.old row.new }
{
    // there is one where the cell is not 0
    if let Some(by) = f.inverse(row[q]) {
        scale(f, row, by);
    }
}

// Writes the negatives of the cells, as far as `out` goes. By index, as `write_values`.
pub(crate) fn write_negatives<R: Ring>(r: &R, row: &[u32], out: &mut [u32])
    requires { length out.old ≤ length row.now }
    ensures { (k : ℕ) → k < length out.old → entries out.new k ≡ (R.Ring.meaning r.now).negative (entries row.now k) }
{
    for (i, x) in out.iter_mut().enumerate() {
        *x = r.negative(row[i]);
    }
}

impl Table {
    // Takes each slot out of `left`, as often as the coefficient at its column says.
    pub(crate) fn reduce<R: Ring>(&self, r: &R, left: &mut [u32], coefficients: &[u32])
        requires few { length coefficients.now ≤ self.now.width }
        requires short { length left.old ≤ CELLS }
        ensures { (k : ℕ) → k < length left.old → entries left.new k ≡ taken_out (R.Ring.meaning r.now) (entries coefficients.now) (λ p. cell self.now.slots p k) (entries left.old k) (length coefficients.now) }
    {
        for (c, slot) in coefficients.iter().zip(&self.slots) {
            let by = r.negative(*c);
            if by != 0 {
                add_multiple(r, left, by, slot);
            }
        }
    }
}

// Clears column q by the row.
fn clear<R: Ring>(r: &R, slots: &mut [[u32; CELLS]], row: &[u32], q: usize)
    requires column { q < CELLS }
    requires short { length row.now ≤ CELLS }
    ensures { Cleared (R.Ring.meaning r.now) (length slots.old) q row.now slots.old slots.new }
{
    for slot in slots {
        let by = r.negative(slot[q]);
        if by != 0 {
            add_multiple(r, slot, by, row);
        }
    }
}

// Writes the row to the front of a slot. (Rows are slices, so that a collection of few unknowns works on no more cells than it has.)
fn write(slot: &mut [u32; CELLS], row: &[u32])
    requires { length row.now ≤ CELLS }
    ensures { (k : ℕ) → k < length row.now → entries slot.new k ≡ entries row.now k }
{
    slot[..row.len()].copy_from_slice(row);
}

// Clears column q by the row in the first n slots, and puts the row into slot q. A function of the slots, since the writes to
// elements of a field beside ghost fields get no proof.
pub(crate) fn place<R: Ring>(r: &R, slots: &mut Slots, n: usize, row: &[u32], q: usize)
    requires few { n ≤ UNKNOWNS }
    requires pivot { q < n }
    requires short { length row.now ≤ CELLS }
    ensures { Placed (R.Ring.meaning r.now) n q row.now slots.old slots.new }
{
    clear(r, &mut slots[..n], row, q);
    write(&mut slots[q], row);
}
