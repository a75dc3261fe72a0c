// Comparing two passes by every answer that they publish, block by block.
use crate::blocks::{Block, Blocks, calls_of};
use crate::input::read_file;
use crate::questions::reply_line;
use crate::solving::rank_of;
use algebra::field::Field;
use answers::passes::{agree_line, differ_line};
use commands::command::{Command, FieldName};
use commands::reading::{Parsed, parse};
use pass::comparison::{Difference, compare};
use pass::recording::record;
use pass::stop::Stop;
use rings::octets::Octets;
use rings::octets::by_shifts::ByShifts;
use rings::octets::by_table::ByTable;
use rings::residues::Residues;
use std::alloc::{AllocError, Global};
use std::process::ExitCode;

// What two published blocks come to. (No Result: a difference is an answer, and no error.)
enum Outcome {
    // So many published answers, and all equal.
    Agree { answers: usize },
    // The first answers that differ, each as its line.
    Differ { first: String, second: String },
}

// A success where the passes agree. A fault is printed with the name of its file.
pub(crate) fn compare_passes(
    rt: &HostRuntime,
    first: &str,
    second: &str,
) -> anyhow::Result<ExitCode> {
    let Some(a) = read_pass(rt, first)? else {
        return Ok(ExitCode::FAILURE);
    };
    let Some(b) = read_pass(rt, second)? else {
        return Ok(ExitCode::FAILURE);
    };
    // a match for each call: a generic function is no value to hand on
    match a.field {
        FieldName::Residues => compare_with(rt, Residues, &a.commands, &b),
        FieldName::Octets => compare_with(rt, Octets(ByTable), &a.commands, &b),
        FieldName::OctetsByShifts => compare_with(rt, Octets(ByShifts), &a.commands, &b),
    }
}

// The pass, or none where the text has a fault, which is printed: an error holds 120 bytes of text, and a path may be longer.
// (`read_file` has only an error, in which a long path is cut.)
fn read_pass(rt: &HostRuntime, path: &str) -> anyhow::Result<Option<Parsed>> {
    let text = read_file(rt, path)?;
    let parsed = parse(rt.alloc(), &text)?;
    if let Some(fault) = parsed.fault {
        eprintln!(rt; "recover: {path}: {fault}")?;
        return Ok(None);
    }
    Ok(Some(parsed))
}

fn compare_with<F: Field + Copy + Drop>(
    rt: &HostRuntime,
    f: F,
    a: &[Command],
    b: &Parsed,
) -> anyhow::Result<ExitCode> {
    match b.field {
        FieldName::Residues => compare_blocks(rt, f, Residues, a, &b.commands),
        FieldName::Octets => compare_blocks(rt, f, Octets(ByTable), a, &b.commands),
        FieldName::OctetsByShifts => compare_blocks(rt, f, Octets(ByShifts), a, &b.commands),
    }
}

// Prints the first difference, or that every published answer is equal.
fn compare_blocks<F: Field + Copy + Drop, G: Field + Copy + Drop>(
    rt: &HostRuntime,
    f: F,
    g: G,
    a: &[Command],
    b: &[Command],
) -> anyhow::Result<ExitCode> {
    let mut others = Blocks::new(b);
    // counted by hand, since the number is wanted after the loop too
    let mut blocks: usize = 0;
    let mut answers: usize = 0;
    for x in Blocks::new(a).filter(|block| block.questions.is_some()) {
        blocks = blocks.saturating_add(1);
        let Some(y) = others.next_published() else {
            return differ(rt, blocks, "published", "not there");
        };
        match compare_block(rt.alloc(), f, g, &x, &y)? {
            Outcome::Agree { answers: more } => answers = answers.saturating_add(more),
            Outcome::Differ { first, second } => {
                return differ(rt, blocks, first.as_str(), second.as_str());
            }
        }
    }
    end_comparison(rt, blocks, answers, others)
}

// So many blocks of both passes agree, and the second may have more.
fn end_comparison(
    rt: &HostRuntime,
    blocks: usize,
    answers: usize,
    mut others: Blocks,
) -> anyhow::Result<ExitCode> {
    if others.next_published().is_some() {
        return differ(rt, blocks.saturating_add(1), "not there", "published");
    }
    let line = agree_line(rt.alloc(), blocks, answers)?;
    print!(rt; "{line}")?;
    Ok(ExitCode::SUCCESS)
}

fn differ(rt: &HostRuntime, block: usize, first: &str, second: &str) -> anyhow::Result<ExitCode> {
    let line = differ_line(rt.alloc(), block, first.trim_end(), second.trim_end())?;
    print!(rt; "{line}")?;
    Ok(ExitCode::FAILURE)
}

fn compare_block<F: Field + Drop, G: Field + Drop>(
    heap: Global,
    f: F,
    g: G,
    x: &Block,
    y: &Block,
) -> Result<Outcome, AllocError> {
    if x.unknowns != y.unknowns {
        let first = format!(in heap; "{} unknowns", x.unknowns)?;
        let second = format!(in heap; "{} unknowns", y.unknowns)?;
        return Ok(Outcome::Differ { first, second });
    }
    // `record` is called here, as in `solve_blocks`
    let a = match record(heap, f, x.unknowns, calls_of(heap, x)?) {
        Ok(recording) => recording,
        Err(stop) => return refused_alike(stop),
    };
    let b = match record(heap, g, y.unknowns, calls_of(heap, y)?) {
        Ok(recording) => recording,
        Err(stop) => return refused_alike(stop),
    };
    match compare(heap, x.unknowns, &a.published, &b.published)? {
        Some(
            Difference {
                question,
                first,
                second,
            },
        ) => Ok(Outcome::Differ {
            first: reply_line(heap, question, &first)?,
            second: reply_line(heap, question, &second)?,
        }),
        None => Ok(Outcome::Agree {
            answers: answers_of(x.unknowns, rank_of(&a.events)),
        }),
    }
}

// A number of unknowns that is refused is answered alike.
fn refused_alike(stop: Stop) -> Result<Outcome, AllocError> {
    let _refusal = stop.into_refused()?;
    Ok(Outcome::Agree { answers: 1 })
}

// The solution, the kernel vectors and the unknowns.
fn answers_of(unknowns: usize, rank: usize) -> usize {
    let free = unknowns.saturating_sub(rank);
    free.saturating_add(unknowns).saturating_add(1)
}
