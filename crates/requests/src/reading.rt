// Reads the requests of a text, line by line.
ghost use Rattle.std.specs.Prelude.{◌≡◌, map, IfOk};
ghost use Rattle.text.specs.Cursors.{left};
ghost use Rattle.text.specs.Lines.{line};
ghost use Rattle.text.specs.Text.{words};
ghost use Rattle.requests.specs.Asked.{cells_of, matrix_of, asked_by};
ghost use Rattle.requests.specs.Format.{read_sides, read_row, read_rows, read_matrix, read_request, row_lines, Reads};
ghost use Rattle.requests.specs.Giving.{preceded, Gives};
ghost use Rattle.requests.specs.Written.{OneReading, ReadBack};

use crate::fault::{Expected, Fault, malformed};
use crate::request::{Request, Table};
use crate::words::{parse_command, parse_row, parse_sides};
use std::alloc::{AllocError, Global};
use text::cursor::Cursor;
use text::lines::Line;
use text::stop::Stop;

// The requests of a text up to its end or to the first fault.
#[derive(Drop)]
pub struct Parsed {
    pub requests: Vec<Request>,
    pub fault: Option<Fault>,
}

fn read_sides(cursor: &mut Cursor<'_>) -> Result<(u32, u32), Stop<Fault>>
    ensures { Gives (λ s. s) (read_sides (left cursor.old)) result (left cursor.new) }
{
    let line = cursor
        .next_line()
        .map_err(|end| malformed(end.number, Expected::Sides))?;
    parse_sides(line.text).ok_or(malformed(line.number, Expected::Sides))
}

// Adds the cells of the next row.
fn read_row(
    cursor: &mut Cursor<'_>,
    columns: usize,
    cells: &mut Vec<u32>,
) -> Result<(), Stop<Fault>>
    ensures { Gives (λ _. cells_of cells.new) (preceded (cells_of cells.old) (read_row columns (left cursor.old))) result (left cursor.new) }
{
    let line = cursor
        .next_line()
        .map_err(|end| malformed(end.number, Expected::Row { columns }))?;
    parse_row(line, columns, cells)
}

// The cells of so many rows.
#[tactic(auto, using(crate::proofs::Following::row_steps))]
fn read_rows(
    heap: Global,
    cursor: &mut Cursor<'_>,
    rows: usize,
    columns: usize,
) -> Result<Vec<u32>, Stop<Fault>>
    ensures { Gives cells_of (read_rows rows columns (left cursor.old)) result (left cursor.new) }
{
    let mut cells = Vec::new(heap);
    for _ in 0..rows {
        read_row(cursor, columns, &mut cells)?;
    }
    Ok(cells)
}

// How many lines the rows have: none where there is no column.
fn row_lines(rows: usize, columns: usize) -> usize
    ensures { result ≡ row_lines rows columns }
{
    if columns == 0 { 0 } else { rows }
}

#[tactic(auto, using(crate::proofs::Following::matrix_steps))]
fn read_table(heap: Global, cursor: &mut Cursor<'_>) -> Result<Table, Stop<Fault>>
    ensures { Gives matrix_of (read_matrix (left cursor.old)) result (left cursor.new) }
{
    let (rows, columns) = read_sides(cursor)?;
    let (rows, columns) = (rows as usize, columns as usize);
    let cells = read_rows(heap, cursor, row_lines(rows, columns), columns)?;
    Ok(Table {
        rows,
        columns,
        cells,
    })
}

// The request whose command is on this line.
#[tactic(auto, using(crate::proofs::Following::request_steps))]
fn read_request(
    heap: Global,
    first: Line<'_>,
    cursor: &mut Cursor<'_>,
) -> Result<Request, Stop<Fault>>
    ensures { Gives asked_by (read_request (line first.entry.number (words first.entry.text.now) (left cursor.old))) result (left cursor.new) }
{
    let ring = parse_command(first.text).map_err(|expected| malformed(first.number, expected))?;
    let left = read_table(heap, cursor)?;
    let right = read_table(heap, cursor)?;
    Ok(Request::Product { ring, left, right })
}

// Reads requests until the text ends or does not fit the format.
pub fn parse(heap: Global, text: &[u8]) -> Result<Parsed, AllocError>
    ensures format { IfOk result (λ p. Reads text.now (map asked_by p.requests.items) p.fault) }
    ensures only { IfOk result (λ p. OneReading text.now (map asked_by p.requests.items) p.fault) }
    ensures back { IfOk result (λ p. ReadBack text.now (map asked_by p.requests.items) p.fault) }
{
    let mut requests = Vec::new(heap);
    let mut cursor = Cursor::start(text);
    while let Ok(line) = cursor.next_line() {
        match read_request(heap, line, &mut cursor) {
            Ok(request) => requests.push(request)?,
            Err(stop) => {
                let fault = stop.into_malformed()?;
                return Ok(Parsed {
                    requests,
                    fault: Some(fault),
                });
            }
        }
    }
    Ok(Parsed {
        requests,
        fault: None,
    })
}
