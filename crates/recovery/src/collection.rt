// Collecting equations: opening, offering, the rank, and publication.
ghost use Rattle.std.specs.Prelude.{◌≡◌, ℕ, ◌+◌, ◌*◌, ◌<◌, [], ◌∷◌, length, Ok, Err, ◌≢◌};
ghost use Rattle.logs.specs.Offers.{checked, offer, Log, offered, ranked, kept};
ghost use Rattle.recovery.specs.Tables.{Holds, Keeps, verdict};

use crate::elimination::{divide, extended, first_nonzero, place, write_negatives};
use crate::published::Published;
use crate::table::{CELLS, Table, UNKNOWNS};
use crate::width::Width;
use algebra::codes::first_outside;
use algebra::field::Field;
use algebra::ring::Ring;
use logs::answer::Answer;
use logs::refusal::Refusal;

// Equations over a field, offered one by one. The weights of an answer refer to the kept equations in the order of keeping. That the
// table holds a log is a clause of each call and no invariant: a ghost field of a generic struct cannot name the meaning of its field.
#[derive(Drop)]
pub struct Collection<F: Field + Drop> {
    field: F,
    table: Table,
}

impl<F: Field + Drop> Collection<F> {
    // A collection with no equation.
    pub fn open(field: F, width: Width) -> Collection<F>
        ensures field { result.field ≡ field }
        ensures width { result.table.width ≡ width.unknowns }
        ensures log { Holds (F.Ring.meaning field) width.unknowns [] result.table }
    {
        let table = Table {
            slots: [[0; CELLS]; UNKNOWNS],
            count: 0,
            width: width.unknowns(),
        };
        Collection { field, table }
    }

    // Offers an equation. A refusal changes nothing. Kept: all weights become 0. Otherwise the weights build the coefficients from the
    // kept equations, and the value too where the equation is implied. (No struct
    // of the three: one with a `&mut` slice could only be passed by value and taken apart.)
    pub fn offer(
        &mut self,
        coefficients: &[u32],
        value: u32,
        weights: &mut [u32],
    ) -> Result<Answer, Refusal>
        ensures field { self.new.field ≡ self.old.field }
        ensures width { self.new.table.width ≡ self.old.table.width }
        ensures answer { verdict result ≡ checked (F.Ring.meaning self.old.field).order self.old.table.width (offer coefficients.now value weights.old) }
        ensures refused { (x : Refusal) → result ≡ Err x → (self.new ≡ self.old) × (weights.new ≡ weights.old) }
        ensures unkept { ((k : ℕ) → result ≢ Ok (Answer.Kept k)) → self.new ≡ self.old }
        ensures log { (n : ℕ) (log : Log) → Holds (F.Ring.meaning self.old.field) n log self.old.table → Holds (F.Ring.meaning self.old.field) n (offered (offer coefficients.now value weights.old) result weights.new ∷ log) self.new.table }
    {
        self.check(coefficients, value, weights)?;
        Ok(self.judge(coefficients, value, weights))
    }

    // Refuses an offer by the first that is wrong of the coefficients' number, the weights' number, and the codes.
    fn check(&self, coefficients: &[u32], value: u32, weights: &[u32]) -> Result<(), Refusal>
        ensures { result ≡ checked (F.Ring.meaning self.now.field).order self.now.table.width (offer coefficients.now value weights.now) }
    {
        let n = self.table.width;
        if coefficients.len() != n {
            return Err(Refusal::Coefficients);
        }
        if weights.len() != n {
            return Err(Refusal::Length);
        }
        if let Some(position) = first_outside(&self.field, coefficients) {
            return Err(Refusal::Code { position });
        }
        if u64::from(value) >= self.field.order() {
            return Err(Refusal::Code { position: n });
        }
        Ok(())
    }

    // Judges an offer that passes its checks: what is left of it when the slots are taken out decides.
    fn judge(&mut self, coefficients: &[u32], value: u32, weights: &mut [u32]) -> Answer
        requires { checked (F.Ring.meaning self.old.field).order self.old.table.width (offer coefficients.now value weights.old) ≡ Ok tt }
        ensures field { self.new.field ≡ self.old.field }
        ensures width { self.new.table.width ≡ self.old.table.width }
        ensures unkept { ((k : ℕ) → result ≢ Answer.Kept k) → self.new ≡ self.old }
        ensures log { (log : Log) → Holds (F.Ring.meaning self.old.field) self.old.table.width log self.old.table → Holds (F.Ring.meaning self.old.field) self.old.table.width (offered (offer coefficients.now value weights.old) (Ok result) weights.new ∷ log) self.new.table }
    {
        let n = self.table.width;
        let mut cells = extended(coefficients, value);
        let left = &mut cells[..2 * n + 1];
        self.table.reduce(&self.field, left, coefficients);
        match first_nonzero(&left[..n]) {
            Some(q) => {
                weights.fill(0);
                let count = self.table.count;
                // there is always room, since no kept equation is a sum of the others
                if count < n {
                    self.keep(left, q);
                }
                Answer::Kept(count)
            }
            None => {
                write_negatives(&self.field, &left[n + 1..], weights);
                if left[n] == 0 {
                    Answer::Implied
                } else {
                    Answer::Contradiction
                }
            }
        }
    }

    // Places what is left of an equation at column q, with its own weight.
    fn keep(&mut self, left: &mut [u32], q: usize)
        requires pivot { q < self.old.table.width }
        requires room { self.old.table.count < self.old.table.width }
        requires long { length left.old ≡ 2 * self.old.table.width + 1 }
        ensures field { self.new.field ≡ self.old.field }
        ensures table { Keeps (F.Ring.meaning self.old.field) q left.old left.new self.old.table self.new.table }
    {
        let n = self.table.width;
        let count = self.table.count;
        left[n + 1 + count] = 1;
        divide(&self.field, left, q);
        place(&self.field, &mut self.table.slots, n, left, q);
        self.table.count = count + 1;
    }

    // How many equations are kept.
    pub fn rank(&self) -> usize
        ensures count { result ≡ self.now.table.count }
        ensures log { (n : ℕ) (log : Log) → Holds (F.Ring.meaning self.now.field) n log self.now.table → (result ≡ length (kept log)) × Holds (F.Ring.meaning self.now.field) n (ranked result ∷ log) self.now.table }
    {
        self.table.count
    }

    // Ends collecting, and publishes what was kept.
    pub fn publish(self) -> Published<F>
        ensures field { result.field ≡ self.field }
        ensures table { result.table ≡ self.table }
    {
        let Collection { field, table } = self;
        Published { field, table }
    }
}
