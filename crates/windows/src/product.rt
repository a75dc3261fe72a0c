// The product of two windows, written into a third.
ghost use Rattle.std.specs.Prelude.{◌≡◌, ◌*◌, length};
ghost use Rattle.algebra.specs.Outcome.{unless_refused};
ghost use Rattle.windows.specs.Product.{product_answer, product_cells};
ghost use Rattle.windows.specs.Rows.{RowTimes};
ghost use Rattle.windows.specs.Shown.{shown};

use crate::codes::check_codes;
use crate::refusal::Refusal;
use crate::window::Window;
use algebra::multiples::add_multiple;
use algebra::ring::Ring;

// C = A × B, whatever C held before. A refusal changes nothing.
pub fn product<R: Ring>(r: &R, a: &Window, b: &Window, c: Window) -> Result<(), Refusal>
    ensures answer { result ≡ product_answer (R.Ring.meaning r.now).order (shown a.now) (shown b.now) (shown c.entry).rows (shown c.entry).columns }
    ensures written { c.exit.0.now ≡ unless_refused result (product_cells (R.Ring.meaning r.now) (shown a.now) (shown b.now)) (shown c.entry).cells }
    ensures kept { (a.exit.now ≡ a.entry.now) × (b.exit.now ≡ b.entry.now) }
{
    let Window {
        cells,
        rows,
        columns,
    } = c;
    product_into(r, a, b, cells, rows, columns)
}

// The product into the slice of C, whose sides are given: the checker covers no branch after C was taken apart.
fn product_into<R: Ring>(
    r: &R,
    a: &Window,
    b: &Window,
    into: &mut [u32],
    rows: usize,
    columns: usize,
) -> Result<(), Refusal>
    requires { length into.old ≡ rows * columns }
    ensures answer { result ≡ product_answer (R.Ring.meaning r.now).order (shown a.now) (shown b.now) rows columns }
    ensures written { into.new ≡ unless_refused result (product_cells (R.Ring.meaning r.now) (shown a.now) (shown b.now)) into.old }
{
    check_product(r, a, b, rows, columns)?;
    write_product(r, a, b, into);
    Ok(())
}

// Whether A and B fit the sides of C, and hold codes.
fn check_product<R: Ring>(
    r: &R,
    a: &Window,
    b: &Window,
    rows: usize,
    columns: usize,
) -> Result<(), Refusal>
    ensures { result ≡ product_answer (R.Ring.meaning r.now).order (shown a.now) (shown b.now) rows columns }
{
    if a.columns != b.rows || rows != a.rows || columns != b.columns {
        return Err(Refusal::Fit);
    }
    check_codes(r, 0, a.cells)?;
    check_codes(r, 1, b.cells)
}

// Writes A × B, row after row.
fn write_product<R: Ring>(r: &R, a: &Window, b: &Window, into: &mut [u32])
    requires sides { a.now.columns ≡ b.now.rows }
    requires room { length into.old ≡ a.now.rows * b.now.columns }
    ensures { into.new ≡ product_cells (R.Ring.meaning r.now) (shown a.now) (shown b.now) }
{
    // After `chunks_exact_mut` a proof knows nothing of the rows that were written.
    let columns = b.columns;
    for (i, left) in a.cells.chunks_exact(a.columns).enumerate() {
        product_row(r, left, b, &mut into[i * columns..(i + 1) * columns]);
    }
}

// Writes the row `left` times B.
fn product_row<R: Ring>(r: &R, left: &[u32], b: &Window, into: &mut [u32])
    requires sides { length left.now ≡ b.now.rows }
    requires room { length into.old ≡ b.now.columns }
    ensures { RowTimes (R.Ring.meaning r.now) left.now (shown b.now) into.new }
{
    into.fill(0);
    // By index: with `chunks_exact` a matrix of few columns takes several times the time.
    let columns = into.len();
    for (k, by) in left.iter().enumerate() {
        add_multiple(r, into, *by, &b.cells[k * columns..(k + 1) * columns]);
    }
}
