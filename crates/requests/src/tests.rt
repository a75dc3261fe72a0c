// Texts with what is read from them.
use crate::reading::parse;
use crate::request::{Request, RingName, Table};
use std::alloc::Global;
use std::process::Abort;
use std::test::*;

// The sides and the cells of a table.
fn check_table(
    rt: &impl Abort,
    table: &Table,
    rows: usize,
    columns: usize,
    cells: &[u32],
) -> Result<(), Fail> {
    assert_eq!(rt; table.rows, rows);
    assert_eq!(rt; table.columns, columns);
    assert_eq!(rt; table.cells.as_slice(), cells);
    Ok(())
}

// How many requests are read, and the message of the fault after them, empty where there is none.
fn check_text(
    rt: &impl Abort,
    heap: Global,
    text: &[u8],
    requests: usize,
    message: &str,
) -> Result<(), Fail> {
    let parsed = parse(heap, text)?;
    assert_eq!(rt; parsed.requests.len(), requests);
    match parsed.fault {
        None => assert_eq!(rt; "", message),
        Some(fault) => assert_eq!(rt; fault.to_string(heap)?.as_str(), message),
    }
    Ok(())
}

#[test]
fn reads_a_request(rt: HostRuntime) -> Result<(), Fail> {
    let parsed = parse(rt.alloc(), b"product octets\n1 2\n7 4294967295\n2 0\n")?;
    let Some(Request::Product { ring, left, right }) = parsed.requests.first() else {
        return Err(Fail::new("no request"));
    };
    assert_eq!(rt; *ring, RingName::Octets);
    check_table(&rt, left, 1, 2, &[7, 4294967295])?;
    check_table(&rt, right, 2, 0, &[])
}

#[test]
fn passes_over_comments(rt: HostRuntime) -> Result<(), Fail> {
    check_text(
        &rt,
        rt.alloc(),
        b"# a product\r\nproduct words\r\n1 1\r\n # the cell\r\n\r\n\t05 \r\n0 0",
        1,
        "",
    )
}

#[test]
fn finds_faults(rt: HostRuntime) -> Result<(), Fail> {
    check_text(
        &rt,
        rt.alloc(),
        b"\nsum words\n",
        0,
        "line 2: expected the command `product RING`",
    )?;
    check_text(
        &rt,
        rt.alloc(),
        b"product reals\n",
        0,
        "line 1: expected one ring after `product`: words, residues, octets or octets-by-shifts",
    )
}

#[test]
fn finds_faults_of_matrices(rt: HostRuntime) -> Result<(), Fail> {
    check_text(
        &rt,
        rt.alloc(),
        b"product words\n1 1 1\n",
        0,
        "line 2: expected the rows and the columns of a matrix, two whole numbers below 2^32",
    )?;
    check_text(
        &rt,
        rt.alloc(),
        b"product words\n1 1\n4294967296\n",
        0,
        "line 3: expected a row of one whole number below 2^32",
    )?;
    check_text(
        &rt,
        rt.alloc(),
        b"product words\n2 3\n1 2 3",
        0,
        "line 4: expected a row of 3 whole numbers below 2^32",
    )
}

#[test]
fn keeps_what_came_before(rt: HostRuntime) -> Result<(), Fail> {
    check_text(
        &rt,
        rt.alloc(),
        b"product words\n0 0\n0 0\nproduct residues\n0 1\n1 0\nproduct",
        2,
        "line 7: expected one ring after `product`: words, residues, octets or octets-by-shifts",
    )
}
