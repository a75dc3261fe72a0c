// Finite fields: rings in which each code but 0 has an inverse.
ghost use Rattle.algebra.specs.Inverse.{HasInverses, Inverts};

use crate::ring::Ring;

pub trait Field: Ring {
    // The code b with a × b = 1; none where a is 0 or no code.
    fn inverse(&self, a: u32) -> Option<u32>
        ensures { Inverts (Self.Ring.meaning self.now) a result };

    ghost inverses: { (f : Self) → HasInverses (Self.Ring.meaning f) };
}
