// What two passes over the same blocks come to.
ghost use Rattle.std.specs.Prelude.{◌≡◌, IfOk, string_bytes};
ghost use Rattle.answers.specs.PassText.{agree_text, differ_text};

use crate::plural::{noun_ending, to_be};
use std::alloc::{AllocError, Global};

// All published answers of the blocks are equal.
pub fn agree_line(heap: Global, blocks: usize, answers: usize) -> Result<String, AllocError>
    ensures { IfOk result (λ s. string_bytes s ≡ agree_text blocks answers) }
{
    let of_block = noun_ending(blocks);
    let of_answer = noun_ending(answers);
    let are = to_be(answers);
    format!(in heap;
        "agree: {blocks} block{of_block}, {answers} published answer{of_answer} {are} equal\n"
    )
}

// Two answers of a block differ; each is given by its line, without the line feed.
pub fn differ_line(
    heap: Global,
    block: usize,
    first: &str,
    second: &str,
) -> Result<String, AllocError>
    ensures { IfOk result (λ s. string_bytes s ≡ differ_text block first.now second.now) }
{
    format!(in heap; "differ: block {block}: {first} / {second}\n")
}
