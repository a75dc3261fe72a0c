// The edges of the refusals: sides, lengths and codes.
use algebra::ring::Ring;
use rings::residues::Residues;
use rings::words::Words;
use windows::product::product;
use windows::refusal::Refusal;
use windows::window::{LONGEST_SIDE, Window, check};

pub(crate) fn run(rt: &HostRuntime) -> anyhow::Result<()> {
    show_codes(rt)?;
    show_sides(rt)?;
    show_largest(rt)
}

// Products of two codes at the edges of the orders.
fn show_codes(rt: &HostRuntime) -> anyhow::Result<()> {
    let residues = [
        ("residue 65520 in A", 65520, 1),
        ("residue 65521 in A", 65521, 1),
        ("residue 65520 in B", 1, 65520),
        ("residue 65521 in B", 1, 65521),
        ("residue 65521 in both", 65521, 65521),
    ];
    for (what, a, b) in residues {
        show(rt, what, multiply_one(&Residues, a, b))?;
    }
    let word = 4294967295;
    show(
        rt,
        "word 4294967295 in both",
        multiply_one(&Words, word, word),
    )
}

// Windows at the edges of sides and lengths.
fn show_sides(rt: &HostRuntime) -> anyhow::Result<()> {
    let windows = [
        ("1 by 1 over 1 code", 1, 1, 1),
        ("256 by 256 over 65536 codes", 256, 256, 65536),
        ("0 by 1 over 0 codes", 0, 1, 0),
        ("1 by 0 over 0 codes", 1, 0, 0),
        ("257 by 1 over 257 codes", 257, 1, 257),
        ("1 by 257 over 257 codes", 1, 257, 257),
        ("2 by 3 over 5 codes", 2, 3, 5),
        ("257 by 3 over 5 codes", 257, 3, 5),
    ];
    for (what, rows, columns, length) in windows {
        show(rt, what, check(rows, columns, length))?;
    }
    Ok(())
}

fn show(rt: &HostRuntime, what: &str, answer: Result<(), Refusal>) -> anyhow::Result<()> {
    match answer {
        Ok(()) => println!(rt; "{what}: passes")?,
        Err(refusal) => println!(rt; "{what}: {refusal}")?,
    }
    Ok(())
}

// The product of two windows of one code.
fn multiply_one<R: Ring>(r: &R, a: u32, b: u32) -> Result<(), Refusal> {
    let mut left = [a];
    let mut right = [b];
    let mut into = [0];
    let x = Window::new(&mut left, 1, 1);
    let y = Window::new(&mut right, 1, 1);
    product(r, &x, &y, Window::new(&mut into, 1, 1))
}

// The product of the largest windows: ones times twos.
fn show_largest(rt: &HostRuntime) -> anyhow::Result<()> {
    let mut ones = vec![in rt.alloc(); 1u32; 65536]?;
    let mut twos = vec![in rt.alloc(); 2u32; 65536]?;
    let mut into = vec![in rt.alloc(); 0u32; 65536]?;
    multiply_largest(&mut ones, &mut twos, &mut into)?;
    let others = into.iter().filter(|code| **code != 512).count();
    println!(rt; "256 by 256, ones times twos: {others} entries other than 512")?;
    Ok(())
}

fn multiply_largest(a: &mut [u32], b: &mut [u32], c: &mut [u32]) -> Result<(), Refusal> {
    let side = LONGEST_SIDE;
    check(side, side, a.len())?;
    check(side, side, b.len())?;
    check(side, side, c.len())?;
    let x = Window::new(a, side, side);
    let y = Window::new(b, side, side);
    product(&Words, &x, &y, Window::new(c, side, side))
}
