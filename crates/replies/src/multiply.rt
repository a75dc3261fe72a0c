// The product of two tables over any ring.
ghost use Rattle.std.specs.Prelude.{◌≡◌, ◌*◌, length, IfOk, Ok};
ghost use Rattle.std.specs.Result.{result_and};
ghost use Rattle.algebra.specs.Outcome.{unless_refused};
ghost use Rattle.windows.specs.Product.{product_answer, product_cells};
ghost use Rattle.requests.specs.Asked.{matrix_of};
ghost use Rattle.replies.specs.Replies.{checked_matrix, product_reply, replied};

use crate::reply::Reply;
use algebra::ring::Ring;
use requests::request::Table;
use std::alloc::{AllocError, Global};
use windows::product::product;
use windows::refusal::Refusal;
use windows::window::{Window, check};

// The product, or the refusal of a side, of sides that do not fit or of a number that is no code.
pub(crate) fn multiply<R: Ring>(
    heap: Global,
    r: &R,
    mut left: Table,
    mut right: Table,
) -> Result<Reply, AllocError>
    ensures { IfOk result (λ reply. replied reply ≡ product_reply (R.Ring.meaning r.now) (matrix_of left) (matrix_of right)) }
{
    if let Err(refusal) = check_tables(&left, &right) {
        return Ok(Err(refusal));
    }
    let rows = left.rows;
    let columns = right.columns;
    let mut cells = vec![in heap; 0u32; rows * columns]?;
    let written = write_product(r, &mut left, &mut right, &mut cells);
    Ok(written.map(|()| Table {
        rows,
        columns,
        cells,
    }))
}

// Whether both tables can be shown as windows.
fn check_tables(left: &Table, right: &Table) -> Result<(), Refusal>
    ensures { result ≡ result_and (checked_matrix (matrix_of left.now)) (checked_matrix (matrix_of right.now)) }
{
    check(left.rows, left.columns, left.cells.len())?;
    check(right.rows, right.columns, right.cells.len())
}

// Writes the product of tables for which the check passed into as many cells as it has.
// It is apart from `multiply`: of a vector that the same function made, what a window wrote into it could not be proved.
fn write_product<R: Ring>(
    r: &R,
    left: &mut Table,
    right: &mut Table,
    cells: &mut [u32],
) -> Result<(), Refusal>
    requires left_passes { checked_matrix (matrix_of left.old) ≡ Ok tt }
    requires right_passes { checked_matrix (matrix_of right.old) ≡ Ok tt }
    requires fits { length cells.old ≡ left.old.rows * right.old.columns }
    ensures answer { result ≡ product_answer (R.Ring.meaning r.now).order (matrix_of left.old) (matrix_of right.old) left.old.rows right.old.columns }
    ensures written { cells.new ≡ unless_refused result (product_cells (R.Ring.meaning r.now) (matrix_of left.old) (matrix_of right.old)) cells.old }
{
    let rows = left.rows;
    let columns = right.columns;
    let a = Window::new(&mut left.cells, rows, left.columns);
    let b = Window::new(&mut right.cells, right.rows, columns);
    let c = Window::new(cells, rows, columns);
    product(r, &a, &b, c)
}
