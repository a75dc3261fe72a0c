// Comparing two published forms by what they answer.
ghost use Rattle.std.specs.Prelude.{◌≡◌, ◌≢◌, List, IfOk, MatchOption};
ghost use Rattle.std.specs.Iterator.{AlwaysYields, IsFinite};
ghost use Rattle.pass.specs.Comparisons.{FirstAmong, Compared};
ghost use Rattle.pass.specs.Questions.{replied};

use crate::asking::{Question, Reply, ask};
use algebra::field::Field;
use algebra::ring::Ring;
use recovery::published::Published;
use std::alloc::{AllocError, Global};
use std::iter::once;

// A question with two replies to it that are not the same.
#[derive(PartialEq, Eq, Debug, Drop)]
pub struct Difference {
    pub question: Question,
    pub first: Reply,
    pub second: Reply,
}

impl Difference {
    // Two replies to a question, if they are not the same.
    fn between(question: Question, first: Reply, second: Reply) -> Option<Difference>
        ensures { MatchOption result (replied first ≡ replied second) (λ d. (d ≡ record { question = question; first = first; second = second }) × (replied first ≢ replied second)) }
    {
        if first == second {
            return None;
        }
        Some(Difference {
            question,
            first,
            second,
        })
    }
}

// Asks both forms for the solution, then for each kernel vector, then of each of so many unknowns, and gives the first question
// that they answer differently. Over fields of one meaning, forms that leave the same vectors possible have no difference.
pub fn compare<F: Field + Drop, G: Field + Drop>(
    heap: Global,
    unknowns: usize,
    a: &Published<F>,
    b: &Published<G>,
) -> Result<Option<Difference>, AllocError>
    ensures { IfOk result (Compared (F.Ring.meaning a.now.field) (G.Ring.meaning b.now.field) unknowns a.now.table b.now.table) }
{
    let kernels = (0..unknowns).map(Question::Kernel);
    let each_unknown = (0..unknowns).map(Question::Unknown);
    let questions = once(Question::Solution).chain(kernels).chain(each_unknown);
    first_difference(heap, unknowns, a, b, questions)
}

// The first of the questions that the forms answer differently.
fn first_difference<F: Field + Drop, G: Field + Drop, Q: Iterator<Item = Question> + Drop>(
    heap: Global,
    unknowns: usize,
    a: &Published<F>,
    b: &Published<G>,
    questions: Q,
) -> Result<Option<Difference>, AllocError>
    requires can { Q.can_next questions }
    requires ends { IsFinite (Q.remaining questions) }
    ensures { (asked : List Question) → AlwaysYields Q.next_gives (λ question. question) questions asked → IfOk result (FirstAmong (F.Ring.meaning a.now.field) (G.Ring.meaning b.now.field) unknowns a.now.table b.now.table asked) }
{
    for question in questions {
        let first = ask(heap, unknowns, a, question)?;
        let second = ask(heap, unknowns, b, question)?;
        if let Some(difference) = Difference::between(question, first, second) {
            return Ok(Some(difference));
        }
    }
    Ok(None)
}
