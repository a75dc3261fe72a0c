// The edges of the refusals: widths, lengths, codes, and the numbers of kernel vectors and unknowns.
use crate::showing;
use recovery::collection::Collection;
use recovery::published::Published;
use recovery::width::Width;
use rings::residues::Residues;

pub(crate) fn run(rt: &HostRuntime) -> anyhow::Result<()> {
    for unknowns in [0, 1, 64, 65] {
        show_width(rt, unknowns)?;
    }
    println!(rt; "codes and lengths, residues, 2 unknowns")?;
    let mut collection = showing::open(Residues, 2)?;
    show_codes(rt, &mut collection)?;
    show_lengths(rt, &mut collection)?;
    let rank = collection.rank();
    println!(rt; "questions after {rank} kept")?;
    show_questions(rt, &collection.publish())
}

fn show_width(rt: &HostRuntime, unknowns: usize) -> anyhow::Result<()> {
    match Width::new(unknowns) {
        Ok(width) => println!(rt; "width {unknowns}: made {}", width.unknowns())?,
        Err(refusal) => println!(rt; "width {unknowns}: {refusal}")?,
    }
    Ok(())
}

// The slice for the weights is not cleared in between, so that a refusal shows it unchanged.
fn show_codes(rt: &HostRuntime, collection: &mut Collection<Residues>) -> anyhow::Result<()> {
    let mut weights = [7, 7];
    for (coefficients, value) in [
        ([65521, 1], 1),
        ([1, 65521], 1),
        ([1, 1], 65521),
        ([65521, 65521], 65521),
        ([65520, 65520], 65520),
    ] {
        showing::offer(rt, collection, &coefficients, value, &mut weights)?;
    }
    Ok(())
}

fn show_lengths(rt: &HostRuntime, collection: &mut Collection<Residues>) -> anyhow::Result<()> {
    showing::offer(rt, collection, &[1], 1, &mut [7, 7])?;
    showing::offer(rt, collection, &[1, 1, 1], 1, &mut [7, 7])?;
    showing::offer(rt, collection, &[1], 1, &mut [7])?;
    showing::offer(rt, collection, &[1, 1], 1, &mut [7])?;
    showing::offer(rt, collection, &[65521, 1], 1, &mut [7, 7, 7])
}

fn show_questions(rt: &HostRuntime, published: &Published<Residues>) -> anyhow::Result<()> {
    showing::solution(rt, published, &mut [7])?;
    showing::solution(rt, published, &mut [7, 7, 7])?;
    showing::solution(rt, published, &mut [7, 7])?;
    showing::kernel(rt, published, 1, &mut [7, 7])?;
    showing::kernel(rt, published, 1, &mut [7])?;
    showing::kernel(rt, published, 0, &mut [7])?;
    showing::kernel(rt, published, 0, &mut [7, 7])?;
    showing::unknown(rt, published, 2)?;
    showing::unknown(rt, published, 1)
}
