// The line that each call is answered with. Every line ends with a line feed.
ghost use Rattle.std.specs.Prelude.{◌≡◌, IfOk, string_bytes};
ghost use Rattle.answers.specs.CallText.{answer_text, kernel_text, numbers_text, or_refusal, published_text, rank_text, refusal_text, solution_text, symbol_text};

use logs::answer::{Answer, Symbol};
use logs::refusal::Refusal;
use std::alloc::{AllocError, Global};
use text::writing::push_more_numbers;

// `refused` with the number, and the position if the refusal carries one.
pub fn refusal_line(heap: Global, refusal: Refusal) -> Result<String, AllocError>
    ensures { IfOk result (λ s. string_bytes s ≡ refusal_text refusal) }
{
    format!(in heap; "{refusal}\n")
}

// The answer to an offer, with the weights unless the equation is kept.
pub fn offer_line(
    heap: Global,
    answer: Result<Answer, Refusal>,
    weights: &[u32],
) -> Result<String, AllocError>
    ensures { IfOk result (λ s. string_bytes s ≡ or_refusal (answer_text weights.now) answer) }
{
    match answer {
        Ok(kept @ Answer::Kept(_)) => format!(in heap; "{kept}\n"),
        Ok(answer) => {
            let head = format!(in heap; "{answer} weights")?;
            numbers_line(heap, head.as_str(), weights)
        }
        Err(refusal) => refusal_line(heap, refusal),
    }
}

pub fn rank_line(heap: Global, rank: usize) -> Result<String, AllocError>
    ensures { IfOk result (λ s. string_bytes s ≡ rank_text rank) }
{
    format!(in heap; "rank {rank}\n")
}

// The rank of what is published, and how many unknowns are free.
pub fn published_line(heap: Global, rank: usize, free: usize) -> Result<String, AllocError>
    ensures { IfOk result (λ s. string_bytes s ≡ published_text rank free) }
{
    format!(in heap; "published rank {rank} free {free}\n")
}

pub fn solution_line(
    heap: Global,
    answer: Result<(), Refusal>,
    out: &[u32],
) -> Result<String, AllocError>
    ensures { IfOk result (λ s. string_bytes s ≡ or_refusal (λ _. solution_text out.now) answer) }
{
    match answer {
        Ok(()) => numbers_line(heap, "solution", out),
        Err(refusal) => refusal_line(heap, refusal),
    }
}

// The k-th kernel vector.
pub fn kernel_line(
    heap: Global,
    k: usize,
    answer: Result<(), Refusal>,
    out: &[u32],
) -> Result<String, AllocError>
    ensures { IfOk result (λ s. string_bytes s ≡ or_refusal (λ _. kernel_text k out.now) answer) }
{
    match answer {
        Ok(()) => {
            let head = format!(in heap; "kernel {k}:")?;
            numbers_line(heap, head.as_str(), out)
        }
        Err(refusal) => refusal_line(heap, refusal),
    }
}

// What is known of the j-th symbol.
pub fn symbol_line(
    heap: Global,
    j: usize,
    answer: Result<Symbol, Refusal>,
) -> Result<String, AllocError>
    ensures { IfOk result (λ s. string_bytes s ≡ or_refusal (symbol_text j) answer) }
{
    match answer {
        Ok(symbol) => format!(in heap; "symbol {j} {symbol}\n"),
        Err(refusal) => refusal_line(heap, refusal),
    }
}

// The head, numbers after it, each with a blank before it, and a line feed.
fn numbers_line(heap: Global, head: &str, numbers: &[u32]) -> Result<String, AllocError>
    ensures { IfOk result (λ s. string_bytes s ≡ numbers_text head.now numbers.now) }
{
    let mut text = String::from_str(heap, head)?;
    push_more_numbers(&mut text, numbers)?;
    text.push('\n')?;
    Ok(text)
}
