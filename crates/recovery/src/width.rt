// The number of unknowns of a collection.
ghost use Rattle.std.specs.Prelude.{◌≡◌, true, false, MatchResult};
ghost use Rattle.recovery.specs.Widths.{is_width};

use crate::table::UNKNOWNS;
use logs::refusal::Refusal;

// From 1 to 64 unknowns.
#[derive(Clone, Copy, PartialEq, Eq, Debug)]
pub struct Width {
    unknowns: usize,
    ghost narrow: { is_width unknowns ≡ true },
}

impl Width {
    // Refuses a number that is not from 1 to 64.
    pub fn new(unknowns: usize) -> Result<Width, Refusal>
        ensures { MatchResult result (λ w. (is_width unknowns ≡ true) × (w.unknowns ≡ unknowns)) (λ x. (is_width unknowns ≡ false) × (x ≡ Refusal.Width)) }
    {
        if unknowns < 1 || unknowns > UNKNOWNS {
            return Err(Refusal::Width);
        }
        Ok(Width { unknowns })
    }

    pub fn unknowns(&self) -> usize
        ensures { result ≡ self.now.unknowns }
    {
        self.unknowns
    }
}
