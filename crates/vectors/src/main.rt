// Runs the libraries on worked values, on the edges of the refusals and on the tables of RFC 6330.
#![tactic(auto)]

mod edges;
mod octets;

use worked::worked_values;

fn main(rt: HostRuntime) -> anyhow::Result<()> {
    run(&rt)
}

fn run(rt: &HostRuntime) -> anyhow::Result<()> {
    let answered = worked_values();
    println!(rt; "worked values answered: {answered}")?;
    edges::run(rt)?;
    octets::run(rt)
}
