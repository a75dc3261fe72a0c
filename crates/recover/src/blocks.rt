// The blocks of a pass: each opens a collection, makes calls on it, and asks questions once it is published.
ghost use Rattle.std.specs.Prelude.{length};
ghost use Rattle.std.specs.Iterator.{at_most};

use commands::command::Command;
use pass::recording::Call;
use recovery::table::UNKNOWNS;
use std::alloc::{AllocError, Global};

// One block, as a part of the commands.
#[derive(Clone, Copy)]
pub(crate) struct Block<'a> {
    pub(crate) unknowns: usize,
    // The commands before its publication.
    pub(crate) calls: &'a [Command],
    // The commands after its publication, where it is published.
    pub(crate) questions: Option<&'a [Command]>,
}

impl Block<'_> {
    // How many commands it has, with those that open and publish it.
    pub(crate) fn count_commands(&self) -> usize {
        let opened = self.calls.len().saturating_add(1);
        match self.questions {
            Some(questions) => opened.saturating_add(questions.len()).saturating_add(1),
            None => opened,
        }
    }
}

// The blocks of the commands that are left.
#[derive(Drop)]
pub(crate) struct Blocks<'a> {
    rest: &'a [Command],
}

impl<'a> Blocks<'a> {
    pub(crate) fn new(commands: &'a [Command]) -> Blocks<'a> {
        Blocks { rest: commands }
    }

    // The next block that is published.
    pub(crate) fn next_published(&mut self) -> Option<Block<'a>> {
        self.find(|block| block.questions.is_some())
    }
}

impl<'a> Iterator for Blocks<'a> {
    type Item = Block<'a>;

    ghost remaining = { λ s. at_most (length s.rest.now) };

    fn next(&mut self) -> Option<Block<'a>> {
        let [Command::Unknowns(unknowns), rest @ ..] = self.rest else {
            return None;
        };
        let next = rest
            .iter()
            .position(|command| matches!(command, Command::Unknowns(_)));
        let (block, after) = rest.split_at(next.unwrap_or(rest.len()));
        self.rest = after;
        Some(cut_block(*unknowns, block))
    }
}

// A block with these commands after the one that opens it.
fn cut_block(unknowns: usize, commands: &[Command]) -> Block<'_> {
    let publication = commands
        .iter()
        .position(|command| matches!(command, Command::Publish));
    match publication {
        Some(at) => Block {
            unknowns,
            calls: &commands[..at],
            questions: Some(&commands[at + 1..]),
        },
        None => Block {
            unknowns,
            calls: commands,
            questions: None,
        },
    }
}

// The calls of a block as data, each offer with a slice of zeros for its weights. (With more unknowns than a collection can have,
// the block is refused before any call is made.)
pub(crate) fn calls_of(heap: Global, block: &Block) -> Result<Vec<Call>, AllocError> {
    let mut calls = Vec::new(heap);
    for command in block.calls {
        match command {
            Command::Offer {
                coefficients,
                value,
            } => calls.push(Call::Offer {
                coefficients: coefficients.clone()?,
                value: *value,
                weights: vec![in heap; 0; block.unknowns.min(UNKNOWNS)]?,
            })?,
            Command::Rank => calls.push(Call::Rank)?,
            // no other command stands before a publication
            _ => {}
        }
    }
    Ok(calls)
}
