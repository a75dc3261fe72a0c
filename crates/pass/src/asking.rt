// Asking a published form: questions and replies as values.
ghost use Rattle.std.specs.Prelude.{◌≡◌, ℕ, List, replicate, IfOk};
ghost use Rattle.std.specs.Fn.{FnOnceReturnsAtMut};
ghost use Rattle.logs.specs.Questions.{wrote, solution, kernel};
ghost use Rattle.pass.specs.Questions.{questioned, replied, Replied, Writes};

use algebra::field::Field;
use algebra::ring::Ring;
use logs::answer::Symbol;
use logs::refusal::Refusal;
use recovery::published::Published;
use std::alloc::{AllocError, Global};

// A question to a published form.
#[derive(Clone, Copy, PartialEq, Eq, Debug)]
pub enum Question {
    Solution,
    Kernel(usize),
    Unknown(usize),
}

// What a published form answers.
#[derive(PartialEq, Eq, Debug, Drop)]
pub enum Reply {
    // The result, and what the slice lent for the vector holds after it.
    Wrote {
        result: Result<(), Refusal>,
        content: Vec<u32>,
    },
    Said(Result<Symbol, Refusal>),
}

// Asks a question. Where it wants a slice, one of so many zeros is lent: any number may be given, and a wrong one is refused.
pub fn ask<F: Field + Drop>(
    heap: Global,
    unknowns: usize,
    published: &Published<F>,
    question: Question,
) -> Result<Reply, AllocError>
    ensures { IfOk result (Replied (F.Ring.meaning published.now.field) published.now.table (questioned unknowns question)) }
{
    match question {
        Question::Solution => ask_into(
            heap,
            unknowns,
            |out: &mut [u32]|
                ensures { Writes (F.Ring.meaning published.entry.now.field) published.entry.now.table solution out.old result out.new }
            { published.solution(out) },
        ),
        Question::Kernel(k) => ask_into(
            heap,
            unknowns,
            |out: &mut [u32]|
                ensures { Writes (F.Ring.meaning published.entry.now.field) published.entry.now.table (kernel k) out.old result out.new }
            { published.kernel(k, out) },
        ),
        Question::Unknown(j) => Ok(Reply::Said(published.unknown(j))),
    }
}

// Asks what wants a slice.
fn ask_into<A: FnOnce(&mut [u32]) -> Result<(), Refusal>>(
    heap: Global,
    unknowns: usize,
    ask: A,
) -> Result<Reply, AllocError>
    requires { A.IsAlwaysCallable ask }
    ensures { IfOk result (λ reply. (r : _) × (written : List ℕ) × (replied reply ≡ wrote r written) × FnOnceReturnsAtMut A.FnOnce ask (replicate unknowns 0) r written) }
{
    let mut content = vec![in heap; 0u32; unknowns]?;
    let result = ask(&mut content);
    Ok(Reply::Wrote { result, content })
}
