// Why calls were not recorded. (The stop of readers is a type of `text`, which has nothing to do with calls.)
ghost use Rattle.std.specs.Prelude.{◌≡◌, MatchResult};
ghost use Rattle.pass.specs.declared.stop.Stop.TheVariants.{Refused, OutOfMemory};

use logs::refusal::Refusal;
use std::alloc::AllocError;

#[derive(Clone, Copy, PartialEq, Eq, Debug)]
pub enum Stop {
    Refused(Refusal),
    OutOfMemory(AllocError),
}

impl Stop {
    // The refusal, unless memory ran out.
    pub fn into_refused(self) -> Result<Refusal, AllocError>
        ensures { MatchResult result (λ x. self ≡ Refused x) (λ e. self ≡ OutOfMemory e) }
    {
        match self {
            Stop::Refused(refusal) => Ok(refusal),
            Stop::OutOfMemory(error) => Err(error),
        }
    }
}

impl From<Refusal> for Stop {
    ghost from_gives = { λ e r. r ≡ Refused e };

    fn from(refusal: Refusal) -> Stop {
        Stop::Refused(refusal)
    }
}

impl From<AllocError> for Stop {
    ghost from_gives = { λ e r. r ≡ OutOfMemory e };

    fn from(error: AllocError) -> Stop {
        Stop::OutOfMemory(error)
    }
}
