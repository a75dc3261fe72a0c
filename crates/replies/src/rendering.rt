// The text of a reply.
ghost use Rattle.std.specs.Prelude.{◌≡◌, ◌++◌, map, IfOk, OnOk, string_bytes, decimal};
ghost use Rattle.requests.specs.Asked.{matrix_of};
ghost use Rattle.replies.specs.Replies.{replied};
ghost use Rattle.replies.specs.ReplyText.{product_text, reply_text};
ghost use Rattle.text.specs.Canonical.{line_of};

use crate::reply::Reply;
use requests::request::Table;
use std::alloc::{AllocError, Global};
use text::writing::push_numbers;

// `product` and the rows, or `refused` with the number and the values. Every line ends with a line feed.
pub fn render(heap: Global, reply: &Reply) -> Result<String, AllocError>
    ensures { IfOk result (λ s. string_bytes s ≡ reply_text (replied reply.now)) }
{
    match reply {
        Ok(table) => render_product(heap, table),
        Err(refusal) => format!(in heap; "{refusal}\n"),
    }
}

fn render_product(heap: Global, table: &Table) -> Result<String, AllocError>
    ensures { IfOk result (λ s. string_bytes s ≡ product_text (matrix_of table.now)) }
{
    let mut text = String::from_str(heap, "product\n")?;
    // no chunks: rows of no columns have lines too
    let mut rest = table.cells.as_slice();
    for _ in 0..table.rows {
        let (row, after) = rest.split_at(table.columns.min(rest.len()));
        push_row(&mut text, row)?;
        rest = after;
    }
    Ok(text)
}

// Writes a line of numbers after the text.
fn push_row(text: &mut String, row: &[u32]) -> Result<(), AllocError>
    ensures { OnOk result (string_bytes text.new ≡ string_bytes text.old ++ line_of (map decimal row.now)) }
{
    push_numbers(text, row)?;
    text.push('\n')
}
