// Blocks of 64 residues. The row of x has the coefficients 1, x, x^2 and so on, so that rows of different x are independent; the
// codes sent are the powers of 17.
ghost use Rattle.std.specs.Iterator.{IsFinite};

use crate::showing;
use algebra::ring::Ring;
use logs::answer::Symbol;
use logs::refusal::Refusal;
use recovery::collection::Collection;
use recovery::published::Published;
use recovery::table::UNKNOWNS;
use rings::residues::Residues;

type Block = [u32; UNKNOWNS];

pub(crate) fn run(rt: &HostRuntime) -> anyhow::Result<()> {
    show_block(rt, 64)?;
    show_block(rt, 60)
}

// Collects the rows of 1 to `rows`, rising and falling, and compares what is published.
fn show_block(rt: &HostRuntime, rows: u32) -> anyhow::Result<()> {
    println!(rt; "64 residues from {rows} rows, rising and falling")?;
    let rising = collect_rows(1..=rows)?;
    let falling = collect_rows((1..=rows).rev())?;
    show_published(rt, rising, falling)
}

fn show_published(
    rt: &HostRuntime,
    rising: Collection<Residues>,
    falling: Collection<Residues>,
) -> anyhow::Result<()> {
    let up = rising.rank();
    let down = falling.rank();
    println!(rt; "  {up} and {down} rows kept")?;
    let first = rising.publish();
    let second = falling.publish();
    let known = count_known(&first);
    let known_too = count_known(&second);
    println!(rt; "  {known} and {known_too} unknowns known as sent")?;
    let alike = count_alike(&first, &second);
    println!(rt; "  {alike} of 129 questions answered alike")?;
    Ok(())
}

// A collection of the rows of these x, in their order.
fn collect_rows<I: Iterator<Item = u32>>(xs: I) -> anyhow::Result<Collection<Residues>>
    requires can { I.can_next xs }
    requires ends { IsFinite (I.remaining xs) }
{
    let mut collection = showing::open(Residues, UNKNOWNS)?;
    for x in xs {
        let row = powers(x);
        collection.offer(&row, value_of(&row), &mut [0; UNKNOWNS])?;
    }
    Ok(collection)
}

// The powers of x, from 1 on.
fn powers(x: u32) -> Block {
    let mut block = [1; UNKNOWNS];
    let mut power = 1;
    for cell in block.iter_mut() {
        *cell = power;
        power = Residues.product(power, x);
    }
    block
}

fn sent() -> Block {
    powers(17)
}

// What a row gives of the codes sent.
fn value_of(row: &Block) -> u32 {
    row.iter().zip(sent().iter()).fold(0, |value, (a, b)| {
        Residues.sum(value, Residues.product(*a, *b))
    })
}

// How many unknowns are known to be the codes sent.
fn count_known(published: &Published<Residues>) -> usize {
    sent()
        .iter()
        .enumerate()
        .filter(|(i, code)| published.unknown(*i) == Ok(Symbol::Known(**code)))
        .count()
}

// How many questions the two answer alike: those for the solution, and for each unknown and kernel vector that there can be.
fn count_alike(first: &Published<Residues>, second: &Published<Residues>) -> usize {
    let solutions = usize::from(write_alike(first, second, |published, out| {
        published.solution(out)
    }));
    let unknowns = (0..UNKNOWNS)
        .filter(|j| first.unknown(*j) == second.unknown(*j))
        .count();
    let kernels = (0..UNKNOWNS)
        .filter(|k| write_alike(first, second, |published, out| published.kernel(*k, out)))
        .count();
    solutions.saturating_add(unknowns).saturating_add(kernels)
}

// Whether the two answer a question alike, and write the same vector.
fn write_alike<Q: Fn(&Published<Residues>, &mut [u32]) -> Result<(), Refusal>>(
    first: &Published<Residues>,
    second: &Published<Residues>,
    ask: Q,
) -> bool
    requires { Q.IsAlwaysCallable ask }
{
    let mut one: Block = [0; UNKNOWNS];
    let mut other: Block = [0; UNKNOWNS];
    ask(first, &mut one) == ask(second, &mut other) && one == other
}
