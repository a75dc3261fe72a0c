// The field of order 256, with one of two multiplications: by tables of powers and logarithms, or by shifts. Both have one meaning.
ghost use Rattle.std.specs.Prelude.{◌≡◌, ◌≤◌, ◌⊎◌, MatchOption};
ghost use Rattle.std.specs.NonZero.{non_zero_u8_get};
ghost use Rattle.rings.specs.Octets.{octets, octet_product};
ghost use Rattle.rings.specs.OctetFields;
ghost use Rattle.rings.specs.OctetFields.{has_inverses};
ghost use Rattle.rings.specs.OctetTests.{tests};

use algebra::field::Field;
use algebra::ring::Ring;
use std::num::NonZeroU8;

pub mod by_shifts;
pub mod by_table;
mod logarithms;
mod powers;

// How codes are multiplied and inverted.
pub trait Multiplication {
    fn product(&self, a: u8, b: u8) -> u8
        ensures { result ≡ octet_product 0x11D a b };

    fn inverse(&self, a: NonZeroU8) -> u8
        ensures { octet_product 0x11D (non_zero_u8_get a) result ≡ 1 };
}

#[derive(Clone, Copy)]
pub struct Octets<M>(pub M);

// Two numbers as codes; none where one of them is 256 or more.
fn codes(a: u32, b: u32) -> Option<(u8, u8)>
    ensures { MatchOption result ((256 ≤ a) ⊎ (256 ≤ b)) (λ pair. (pair.0 ≡ a) × (pair.1 ≡ b)) }
{
    Some((u8::try_from(a).ok()?, u8::try_from(b).ok()?))
}

impl<M: Multiplication> Ring for Octets<M> {
    ghost meaning = { λ _. octets };

    ghost laws = { λ r. OctetFields.laws tests };

    fn order(&self) -> u64 {
        256
    }

    fn sum(&self, a: u32, b: u32) -> u32 {
        codes(a, b).map_or(0, |(a, b)| u32::from(a ^ b))
    }

    fn product(&self, a: u32, b: u32) -> u32 {
        codes(a, b).map_or(0, |(a, b)| u32::from(self.0.product(a, b)))
    }

    // Each code is its own negative.
    fn negative(&self, a: u32) -> u32 {
        u8::try_from(a).map_or(0, u32::from)
    }
}

impl<M: Multiplication> Field for Octets<M> {
    ghost inverses = { λ f. has_inverses tests };

    fn inverse(&self, a: u32) -> Option<u32> {
        let code = NonZeroU8::new(u8::try_from(a).ok()?)?;
        Some(u32::from(self.0.inverse(code)))
    }
}
