// Solving a pass: its calls are recorded, and every answer is printed.
use crate::blocks::{Block, Blocks, calls_of};
use crate::questions::{ask_line, report_text};
use algebra::field::Field;
use answers::calls::{offer_line, published_line, rank_line, refusal_line};
use anyhow::anyhow;
use commands::command::{Command, FieldName};
use commands::reading::parse;
use logs::answer::Answer;
use logs::refusal::Refusal;
use pass::asking::Question;
use pass::recording::{Event, Recording, record};
use recovery::published::Published;
use rings::octets::Octets;
use rings::octets::by_shifts::ByShifts;
use rings::octets::by_table::ByTable;
use rings::residues::Residues;

// Prints the answers to the commands before the first fault, which is the error: it holds 120 bytes of text, and no message of a
// fault is longer.
pub(crate) fn solve_pass(rt: &HostRuntime, text: &[u8]) -> anyhow::Result<()> {
    let parsed = parse(rt.alloc(), text)?;
    // a match for each call: a generic function is no value to hand on
    match parsed.field {
        FieldName::Residues => solve_blocks(rt, Residues, &parsed.commands)?,
        FieldName::Octets => solve_blocks(rt, Octets(ByTable), &parsed.commands)?,
        FieldName::OctetsByShifts => solve_blocks(rt, Octets(ByShifts), &parsed.commands)?,
    }
    match parsed.fault {
        None => Ok(()),
        Some(fault) => Err(anyhow!("{fault}")),
    }
}

fn solve_blocks<F: Field + Copy + Drop>(
    rt: &HostRuntime,
    field: F,
    commands: &[Command],
) -> anyhow::Result<()> {
    for block in Blocks::new(commands) {
        // not a function of its own: it would copy the recording once more, 33 KB
        let calls = calls_of(rt.alloc(), &block)?;
        match record(rt.alloc(), field, block.unknowns, calls) {
            Ok(recording) => print_recording(rt, &block, &recording)?,
            Err(stop) => print_refused(rt, &block, stop.into_refused()?)?,
        }
    }
    Ok(())
}

// No collection was opened: each command of the block is refused.
fn print_refused(rt: &HostRuntime, block: &Block, refusal: Refusal) -> anyhow::Result<()> {
    let line = refusal_line(rt.alloc(), refusal)?;
    for _ in 0..block.count_commands() {
        print!(rt; "{line}")?;
    }
    Ok(())
}

fn print_recording<F: Field + Drop>(
    rt: &HostRuntime,
    block: &Block,
    recording: &Recording<F>,
) -> anyhow::Result<()> {
    for event in recording.events.as_slice() {
        print_event(rt, event)?;
    }
    match block.questions {
        Some(questions) => print_published(rt, recording, questions),
        None => Ok(()),
    }
}

// The line of the publication, and the answers after it.
fn print_published<F: Field + Drop>(
    rt: &HostRuntime,
    recording: &Recording<F>,
    questions: &[Command],
) -> anyhow::Result<()> {
    let rank = rank_of(&recording.events);
    let free = recording.published.unknowns().saturating_sub(rank);
    let line = published_line(rt.alloc(), rank, free)?;
    print!(rt; "{line}")?;
    for question in questions {
        print_question(rt, &recording.published, question)?;
    }
    Ok(())
}

// How many equations were kept.
pub(crate) fn rank_of(events: &[Event]) -> usize {
    events
        .iter()
        .filter(|event| {
            matches!(
                event,
                Event::Offered {
                    answer: Ok(Answer::Kept(_)),
                    ..
                }
            )
        })
        .count()
}

fn print_event(rt: &HostRuntime, event: &Event) -> anyhow::Result<()> {
    let line = match event {
        Event::Offered {
            answer,
            weights,
            ..
        } => offer_line(rt.alloc(), *answer, weights)?,
        Event::Ranked(rank) => rank_line(rt.alloc(), *rank)?,
    };
    print!(rt; "{line}")?;
    Ok(())
}

fn print_question<F: Field + Drop>(
    rt: &HostRuntime,
    published: &Published<F>,
    question: &Command,
) -> anyhow::Result<()> {
    let question = match question {
        Command::Solution => Question::Solution,
        Command::Kernel(k) => Question::Kernel(*k),
        Command::Symbol(j) => Question::Unknown(*j),
        Command::Report => return print_report(rt, published),
        // the reader lets nothing else follow a publication
        _ => return Ok(()),
    };
    let line = ask_line(rt.alloc(), published, question)?;
    print!(rt; "{line}")?;
    Ok(())
}

fn print_report<F: Field + Drop>(rt: &HostRuntime, published: &Published<F>) -> anyhow::Result<()> {
    let text = report_text(rt.alloc(), published)?;
    print!(rt; "{text}")?;
    Ok(())
}
