// Recording: calls on a fresh collection with their answers, and what was published after them.
ghost use Rattle.std.specs.Prelude.{◌≡◌, IfOk, MatchResult};
ghost use Rattle.logs.specs.Offers.{offer};
ghost use Rattle.pass.specs.Recordings.{asked, to_take, Makes, MakesAll, Recorded, Stopped};

use crate::stop::Stop;
use algebra::field::Field;
use algebra::ring::Ring;
use logs::answer::Answer;
use logs::refusal::Refusal;
use recovery::collection::Collection;
use recovery::published::Published;
use recovery::width::Width;
use std::alloc::{AllocError, Global};

// A call on a collection.
#[derive(PartialEq, Eq, Debug, Drop)]
pub enum Call {
    // An equation, and what the slice lent for weights holds.
    Offer {
        coefficients: Vec<u32>,
        value: u32,
        weights: Vec<u32>,
    },
    Rank,
}

// A call with its answer.
#[derive(PartialEq, Eq, Debug, Drop)]
pub enum Event {
    // The slice for weights is shown as it was before the call and as it is after it.
    Offered {
        coefficients: Vec<u32>,
        value: u32,
        before: Vec<u32>,
        answer: Result<Answer, Refusal>,
        weights: Vec<u32>,
    },
    Ranked(usize),
}

// The events of calls on a fresh collection, oldest first, and what it published after them.
#[derive(Drop)]
pub struct Recording<F: Field + Drop> {
    pub events: Vec<Event>,
    pub published: Published<F>,
}

// Opens a collection, makes the calls in their order, and publishes. Refuses where the number of unknowns is not from 1 to 64.
pub fn record<F: Field + Drop>(
    heap: Global,
    field: F,
    unknowns: usize,
    calls: Vec<Call>,
) -> Result<Recording<F>, Stop>
    ensures { MatchResult result (λ x. (x.published.field ≡ field) × Recorded (F.Ring.meaning field) unknowns calls.items x.events.items x.published.table) (Stopped unknowns) }
{
    let width = Width::new(unknowns)?;
    let mut collection = Collection::open(field, width);
    let events = make_all(heap, &mut collection, calls)?;
    let published = collection.publish();
    Ok(Recording { events, published })
}

// Makes the calls one after another.
fn make_all<F: Field + Drop>(
    heap: Global,
    collection: &mut Collection<F>,
    calls: Vec<Call>,
) -> Result<Vec<Event>, AllocError>
    ensures field { collection.new.field ≡ collection.old.field }
    ensures made { IfOk result (λ es. MakesAll (F.Ring.meaning collection.old.field) calls.items collection.old.table collection.new.table es.items) }
{
    let mut events = Vec::new(heap);
    for call in calls {
        events.push(make(collection, call)?)?;
    }
    Ok(events)
}

// Makes one call.
fn make<F: Field + Drop>(collection: &mut Collection<F>, call: Call) -> Result<Event, AllocError>
    ensures field { collection.new.field ≡ collection.old.field }
    ensures made { IfOk result (Makes (F.Ring.meaning collection.old.field) (asked call) collection.old.table collection.new.table) }
{
    match call {
        Call::Offer {
            coefficients,
            value,
            weights,
        } => make_offer(collection, coefficients, value, weights),
        Call::Rank => Ok(Event::Ranked(collection.rank())),
    }
}

fn make_offer<F: Field + Drop>(
    collection: &mut Collection<F>,
    coefficients: Vec<u32>,
    value: u32,
    mut weights: Vec<u32>,
) -> Result<Event, AllocError>
    ensures field { collection.new.field ≡ collection.old.field }
    ensures made { IfOk result (Makes (F.Ring.meaning collection.old.field) (to_take (offer coefficients.items value weights.items)) collection.old.table collection.new.table) }
{
    let before = weights.clone()?;
    let answer = collection.offer(&coefficients, value, &mut weights);
    Ok(Event::Offered {
        coefficients,
        value,
        before,
        answer,
        weights,
    })
}
