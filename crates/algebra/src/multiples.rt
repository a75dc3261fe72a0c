// Multiples of rows of codes.
ghost use Rattle.algebra.specs.Multiples.{MultipleAdded, Scaled};

use crate::ring::Ring;

// Adds `by` times each code of `row` to the code of `onto` beside it, as far as both go.
pub fn add_multiple<R: Ring>(r: &R, onto: &mut [u32], by: u32, row: &[u32])
    ensures { MultipleAdded (R.Ring.meaning r.now) onto.old by row.now onto.new }
{
    // After `onto.iter_mut().zip(row)` a proof knows nothing of the codes of `onto`.
    let both = onto.len().min(row.len());
    for (i, y) in row[..both].iter().enumerate() {
        onto[i] = r.sum(onto[i], r.product(by, *y));
    }
}

// Multiplies each code of `row` by `by`.
pub fn scale<R: Ring>(r: &R, row: &mut [u32], by: u32)
    ensures { Scaled (R.Ring.meaning r.now) row.old by row.new }
{
    for x in row.iter_mut() {
        *x = r.product(by, *x);
    }
}
