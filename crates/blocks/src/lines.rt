// The worked lines on collections.
use crate::showing;
use algebra::field::Field;
use recovery::published::Published;
use rings::octets::Octets;
use rings::octets::by_shifts::ByShifts;
use rings::octets::by_table::ByTable;
use rings::residues::Residues;

pub(crate) fn run(rt: &HostRuntime) -> anyhow::Result<()> {
    println!(rt; "new collections, 1 unknown, residues and both octets")?;
    show_new(rt, Residues)?;
    show_new(rt, Octets(ByTable))?;
    show_new(rt, Octets(ByShifts))?;
    println!(rt; "residues, 2 unknowns")?;
    show_residues(rt)?;
    println!(rt; "octets by table, 2 unknowns")?;
    show_octets(rt, Octets(ByTable))?;
    println!(rt; "octets by shifts, 2 unknowns")?;
    show_octets(rt, Octets(ByShifts))?;
    println!(rt; "residues, 3 unknowns, in two orders")?;
    let sum = ([1, 1, 0], 5);
    let last = ([0, 0, 1], 4);
    show_order(rt, [sum, last])?;
    show_order(rt, [last, sum])
}

// An equation with no coefficient but 0 needs no kept one.
fn show_new<F: Field + Drop>(rt: &HostRuntime, field: F) -> anyhow::Result<()> {
    let mut collection = showing::open(field, 1)?;
    showing::offer(rt, &mut collection, &[0], 0, &mut [0])?;
    showing::offer(rt, &mut collection, &[0], 1, &mut [0])
}

fn show_residues(rt: &HostRuntime) -> anyhow::Result<()> {
    let mut collection = showing::open(Residues, 2)?;
    showing::offer(rt, &mut collection, &[1, 1], 3, &mut [0, 0])?;
    showing::offer(rt, &mut collection, &[2, 2], 6, &mut [0, 0])?;
    showing::offer(rt, &mut collection, &[2, 2], 7, &mut [0, 0])?;
    showing::offer(rt, &mut collection, &[0, 1], 1, &mut [0, 0])?;
    showing::solution(rt, &collection.publish(), &mut [0, 0])
}

fn show_octets<F: Field + Drop>(rt: &HostRuntime, field: F) -> anyhow::Result<()> {
    let mut collection = showing::open(field, 2)?;
    showing::offer(rt, &mut collection, &[1, 2], 3, &mut [0, 0])?;
    showing::offer(rt, &mut collection, &[3, 6], 5, &mut [0, 0])?;
    showing::offer(rt, &mut collection, &[3, 6], 9, &mut [0, 0])
}

// Offers two equations, and asks what is published after them.
fn show_order(rt: &HostRuntime, equations: [([u32; 3], u32); 2]) -> anyhow::Result<()> {
    let mut collection = showing::open(Residues, 3)?;
    for (coefficients, value) in equations {
        showing::offer(rt, &mut collection, &coefficients, value, &mut [0; 3])?;
    }
    show_three(rt, &collection.publish())
}

fn show_three(rt: &HostRuntime, published: &Published<Residues>) -> anyhow::Result<()> {
    showing::solution(rt, published, &mut [0; 3])?;
    showing::kernel(rt, published, 0, &mut [0; 3])?;
    showing::unknown(rt, published, 2)?;
    showing::unknown(rt, published, 0)
}
