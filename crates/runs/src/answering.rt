// Whether collections answer as runs have it.
ghost use Rattle.std.specs.Prelude.{◌≡◌, true, [], ◌∷◌, Decides};
ghost use Rattle.recovery.specs.Widths.{is_width};
ghost use Rattle.runs.specs.Matching.{OffersMatch, RepliesMatch};
ghost use Rattle.runs.specs.Runs.{Runs};

use crate::run::{Asked, Step};
use algebra::field::Field;
use recovery::collection::Collection;
use recovery::published::Published;
use recovery::width::Width;

// Offers the equation of a step: whether the answer and the weights are the step's.
fn offer_matches<F: Field + Drop, const N: usize>(
    collection: &mut Collection<F>,
    step: &Step<N>,
) -> bool
    ensures field { collection.new.field ≡ collection.old.field }
    ensures matched { OffersMatch (F.Ring.meaning collection.old.field) N (step.now ∷ []) collection.old.table result collection.new.table }
{
    let mut weights = [0; N];
    let answer = collection.offer(&step.coefficients, step.value, &mut weights);
    answer == Ok(step.answer) && weights == step.weights
}

// Offers the equations of the steps, up to the first that does not match.
// It is a loop since a closure in `all` that changes the collection would need an invariant on what it captures.
fn offers_match<F: Field + Drop, const N: usize>(
    collection: &mut Collection<F>,
    steps: &[Step<N>],
) -> bool
    ensures field { collection.new.field ≡ collection.old.field }
    ensures matched { OffersMatch (F.Ring.meaning collection.old.field) N steps.now collection.old.table result collection.new.table }
{
    for step in steps {
        if !offer_matches(collection, step) {
            return false;
        }
    }
    true
}

// Asks a question: whether the reply is its own.
fn reply_matches<F: Field + Drop, const N: usize>(published: &Published<F>, asked: Asked<N>) -> bool
    ensures { RepliesMatch (F.Ring.meaning published.now.field) N (asked.entry ∷ []) published.now.table result }
{
    let mut out = [0; N];
    match asked {
        Asked::Solution(vector) => published.solution(&mut out).is_ok() && out == vector,
        Asked::Kernel(k, vector) => published.kernel(k, &mut out).is_ok() && out == vector,
        Asked::Unknown(j, symbol) => published.unknown(j) == Ok(symbol),
    }
}

// Asks the questions, up to the first whose reply does not match.
// It is a loop since a closure in `all` would have to repeat the clause of `reply_matches`.
fn replies_match<F: Field + Drop, const N: usize>(
    published: &Published<F>,
    asked: &[Asked<N>],
) -> bool
    ensures { RepliesMatch (F.Ring.meaning published.now.field) N asked.now published.now.table result }
{
    for one in asked {
        if !reply_matches(published, *one) {
            return false;
        }
    }
    true
}

// Whether a new collection over the field answers the steps and, published, the questions as the run has it.
pub(crate) fn run_matches<F: Field + Drop, const N: usize>(
    field: F,
    steps: &[Step<N>],
    asked: &[Asked<N>],
) -> bool
    ensures { Decides result ((is_width N ≡ true) × Runs (F.Ring.meaning field) N steps.now asked.now) }
{
    let Ok(width) = Width::new(N) else {
        return false;
    };
    let mut collection = Collection::open(field, width);
    offers_match(&mut collection, steps) && replies_match(&collection.publish(), asked)
}
