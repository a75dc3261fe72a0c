// What calls on a collection answer, printed.
use algebra::field::Field;
use logs::refusal::Refusal;
use recovery::collection::Collection;
use recovery::published::Published;
use recovery::width::Width;
use std::fmt;

// A collection with no equation; a number of unknowns that is refused is an error.
pub(crate) fn open<F: Field + Drop>(field: F, unknowns: usize) -> anyhow::Result<Collection<F>> {
    Ok(Collection::open(field, Width::new(unknowns)?))
}

// Offers an equation with the given slice for the weights.
pub(crate) fn offer<F: Field + Drop>(
    rt: &HostRuntime,
    collection: &mut Collection<F>,
    coefficients: &[u32],
    value: u32,
    weights: &mut [u32],
) -> anyhow::Result<()> {
    print!(rt; "  {coefficients:?} = {value}: ")?;
    show_answer(rt, &collection.offer(coefficients, value, weights))?;
    println!(rt; ", weights {weights:?}")?;
    Ok(())
}

pub(crate) fn solution<F: Field + Drop>(
    rt: &HostRuntime,
    published: &Published<F>,
    out: &mut [u32],
) -> anyhow::Result<()> {
    print!(rt; "  solution: ")?;
    let answer = published.solution(out);
    show_written(rt, answer, out)
}

pub(crate) fn kernel<F: Field + Drop>(
    rt: &HostRuntime,
    published: &Published<F>,
    k: usize,
    out: &mut [u32],
) -> anyhow::Result<()> {
    print!(rt; "  kernel vector {k}: ")?;
    let answer = published.kernel(k, out);
    show_written(rt, answer, out)
}

pub(crate) fn unknown<F: Field + Drop>(
    rt: &HostRuntime,
    published: &Published<F>,
    j: usize,
) -> anyhow::Result<()> {
    print!(rt; "  unknown {j}: ")?;
    show_answer(rt, &published.unknown(j))?;
    println!(rt; "")?;
    Ok(())
}

// The answer of a call, or its refusal.
fn show_answer<A: fmt::Display>(
    rt: &HostRuntime,
    answer: &Result<A, Refusal>,
) -> anyhow::Result<()> {
    match answer {
        Ok(answer) => print!(rt; "{answer}")?,
        Err(refusal) => print!(rt; "{refusal}")?,
    }
    Ok(())
}

// The content of the slice that a call was lent, after the refusal, if there is one.
fn show_written(
    rt: &HostRuntime,
    answer: Result<(), Refusal>,
    content: &[u32],
) -> anyhow::Result<()> {
    if let Err(refusal) = answer {
        print!(rt; "{refusal}, slice ")?;
    }
    println!(rt; "{content:?}")?;
    Ok(())
}
