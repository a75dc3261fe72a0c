// The questions to a published block, each with the text of its answer.
use algebra::field::Field;
use answers::calls::{kernel_line, solution_line, symbol_line};
use answers::report::report;
use logs::answer::Symbol;
use pass::asking::{Question, Reply, ask};
use recovery::published::Published;
use std::alloc::{AllocError, Global};

// The line that a reply is printed as.
pub(crate) fn reply_line(
    heap: Global,
    question: Question,
    reply: &Reply,
) -> Result<String, AllocError> {
    match (question, reply) {
        (Question::Solution, Reply::Wrote { result, content }) => {
            solution_line(heap, *result, content)
        }
        (Question::Kernel(k), Reply::Wrote { result, content }) => {
            kernel_line(heap, k, *result, content)
        }
        (Question::Unknown(j), Reply::Said(result)) => symbol_line(heap, j, *result),
        // there is none: a reply is of the kind of its question
        _ => Ok(String::new(heap)),
    }
}

// Asks one question.
pub(crate) fn ask_line<F: Field + Drop>(
    heap: Global,
    published: &Published<F>,
    question: Question,
) -> Result<String, AllocError> {
    let reply = ask(heap, published.unknowns(), published, question)?;
    reply_line(heap, question, &reply)
}

// The block for a person.
pub(crate) fn report_text<F: Field + Drop>(
    heap: Global,
    published: &Published<F>,
) -> Result<String, AllocError> {
    let symbols: Vec<Symbol> = (0..published.unknowns())
        .filter_map(|j| published.unknown(j).ok())
        .collect(heap)?;
    report(heap, &symbols)
}
