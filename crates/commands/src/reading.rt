// Reads the commands of a text, line by line.
ghost use Rattle.std.specs.Prelude.{◌≡◌, IfOk};
ghost use Rattle.text.specs.Cursors.{left};
ghost use Rattle.commands.specs.declared.command.FieldName.TheVariants.{Residues};
ghost use Rattle.commands.specs.declared.state.State.TheVariants.{Start};
ghost use Rattle.commands.specs.Format.{read_from, reading};
ghost use Rattle.commands.specs.Lawful.{Lawful};
ghost use Rattle.commands.specs.Readings.{reading_of};
ghost use Rattle.commands.specs.Written.{ReadBack};

use crate::command::{Command, FieldName};
use crate::fault::Fault;
use crate::state::{State, state_after};
use crate::words::{Said, parse_line};
use std::alloc::{AllocError, Global};
use text::cursor::Cursor;
use text::lines::Line;

// The field and the commands of a text up to its end or to the first fault.
#[derive(Drop)]
pub struct Parsed {
    pub field: FieldName,
    pub commands: Vec<Command>,
    pub fault: Option<Fault>,
}

// Reads commands until the text ends or does not fit the format.
pub fn parse(heap: Global, text: &[u8]) -> Result<Parsed, AllocError>
    ensures format { IfOk result (λ p. reading_of p ≡ reading text.now) }
    ensures lawful { IfOk result (λ p. Lawful (reading_of p).steps) }
    ensures back { IfOk result (λ p. ReadBack text.now (reading_of p)) }
{
    read_lines(heap, Cursor::start(text))
}

// Reads the lines from a cursor on, of which this is the only use.
#[tactic(auto, using(crate::proofs::Going::one_more))]
fn read_lines(heap: Global, mut cursor: Cursor<'_>) -> Result<Parsed, AllocError>
    ensures { IfOk result (λ p. reading_of p ≡ read_from Start Residues (left cursor.entry)) }
{
    let mut parsed = Parsed {
        field: FieldName::Residues,
        commands: Vec::new(heap),
        fault: None,
    };
    let mut state = State::Start;
    while let Ok(Line { number, text }) = cursor.next_line() {
        match parse_line(heap, state, text) {
            Ok(Said::Field(name)) => {
                parsed.field = name;
                state = State::Named;
            }
            Ok(Said::Command(command)) => {
                state = state_after(&command);
                parsed.commands.push(command)?;
            }
            Err(stop) => {
                let expected = stop.into_malformed()?;
                parsed.fault = Some(Fault {
                    line: number,
                    expected,
                });
                return Ok(parsed);
            }
        }
    }
    Ok(parsed)
}
