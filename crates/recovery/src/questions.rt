// The questions that a published collection answers.
ghost use Rattle.std.specs.Prelude.{◌≡◌, ℕ, length, Err};
ghost use Rattle.logs.specs.Offers.{Log};
ghost use Rattle.logs.specs.Questions.{solution_checked, kernel_checked, unknown_checked, wrote, said, Answers};
ghost use Rattle.logs.specs.Questions.{solution as about_solution, kernel as about_kernel, unknown as about_unknown};
ghost use Rattle.recovery.specs.Tables.{Holds, verdict};

use crate::published::Published;
use algebra::field::Field;
use algebra::ring::Ring;
use logs::answer::Symbol;
use logs::refusal::Refusal;

impl<F: Field + Drop> Published<F> {
    // The number of unknowns.
    pub fn unknowns(&self) -> usize
        ensures { result ≡ self.now.table.width }
    {
        self.table.width
    }

    // Writes the possible vector whose free unknowns are 0. Refuses a slice that is not as long as there are unknowns.
    pub fn solution(&self, out: &mut [u32]) -> Result<(), Refusal>
        ensures answer { result ≡ solution_checked self.now.table.width (length out.old) }
        ensures refused { (x : Refusal) → result ≡ Err x → out.new ≡ out.old }
        ensures log { (n : ℕ) (log : Log) → Holds (F.Ring.meaning self.now.field) n log self.now.table → Answers (F.Ring.meaning self.now.field) n log (about_solution out.old) (wrote result out.new) }
    {
        if out.len() != self.table.width {
            return Err(Refusal::Length);
        }
        self.table.write_values(out);
        Ok(())
    }

    // Writes kernel vector k: 1 at the k-th free unknown, 0 at the others, and 0 in every equation. Refuses where there are not so
    // many, then a slice that is not as long as there are unknowns.
    pub fn kernel(&self, k: usize, out: &mut [u32]) -> Result<(), Refusal>
        ensures answer { result ≡ kernel_checked self.now.table.width self.now.table.count k (length out.old) }
        ensures refused { (x : Refusal) → result ≡ Err x → out.new ≡ out.old }
        ensures log { (n : ℕ) (log : Log) → Holds (F.Ring.meaning self.now.field) n log self.now.table → Answers (F.Ring.meaning self.now.field) n log (about_kernel k out.old) (wrote result out.new) }
    {
        let n = self.table.width;
        if k >= n - self.table.count {
            return Err(Refusal::Kernel);
        }
        if out.len() != n {
            return Err(Refusal::Length);
        }
        // there is always such a column, since one is free for each equation that is missing
        if let Some(f) = self.table.free_column(k) {
            self.table.write_kernel(&self.field, f, out);
        }
        Ok(())
    }

    // What is known of unknown j: the code that all possible vectors have there, or the first kernel vector that moves it. Refuses
    // where there are not so many unknowns.
    pub fn unknown(&self, j: usize) -> Result<Symbol, Refusal>
        ensures answer { verdict result ≡ unknown_checked self.now.table.width j }
        ensures log { (n : ℕ) (log : Log) → Holds (F.Ring.meaning self.now.field) n log self.now.table → Answers (F.Ring.meaning self.now.field) n log (about_unknown j) (said result) }
    {
        let n = self.table.width;
        if j >= n {
            return Err(Refusal::Unknown);
        }
        match self.table.first_moving(j) {
            Some(k) => Ok(Symbol::Open(k)),
            None => Ok(Symbol::Known(self.table.slots[j][n])),
        }
    }
}
