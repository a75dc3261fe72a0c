// Why a reader came to no value: the text does not fit, or memory ran out.
ghost use Rattle.std.specs.Prelude.{◌≡◌, MatchResult};
ghost use Rattle.text.specs.declared.stop.Stop.TheVariants.{Malformed, OutOfMemory};

use std::alloc::{AllocError, AllocFailed};

#[derive(Clone, Copy, Debug, PartialEq, Eq)]
pub enum Stop<E> {
    Malformed(E),
    OutOfMemory(AllocError),
}

impl<E> From<AllocError> for Stop<E> {
    ghost from_gives = { λ e r. r ≡ OutOfMemory e };

    fn from(error: AllocError) -> Stop<E> {
        Stop::OutOfMemory(error)
    }
}

// What could not be stored is let go.
impl<E, T: Drop> From<AllocFailed<T>> for Stop<E> {
    ghost from_gives = { λ f r. r ≡ OutOfMemory (record {}) };

    fn from(_failed: AllocFailed<T>) -> Stop<E> {
        Stop::OutOfMemory(AllocError)
    }
}

impl<E: Drop> Stop<E> {
    // What was malformed, unless memory ran out.
    pub fn into_malformed(self) -> Result<E, AllocError>
        ensures { MatchResult result (λ m. self ≡ Malformed m) (λ e. self ≡ OutOfMemory e) }
    {
        match self {
            Stop::Malformed(malformed) => Ok(malformed),
            Stop::OutOfMemory(error) => Err(error),
        }
    }
}
