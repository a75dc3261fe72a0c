// Multiplication with no table: a product adds up doublings, and an inverse is the 254th power.
ghost use Rattle.std.specs.Prelude.{◌≡◌};
ghost use Rattle.rings.specs.Octets.{octet_product};

use crate::octets::Multiplication;
use std::num::NonZeroU8;

#[derive(Clone, Copy)]
pub struct ByShifts;

// x^8 is x^4 + x^3 + x^2 + 1, of bits 0x1D.
fn doubled(a: u8) -> u8
    ensures { result ≡ octet_product 0x11D 2 a }
{
    if a < 128 { a << 1 } else { (a << 1) ^ 0x1D }
}

impl Multiplication for ByShifts {
    #[tactic(auto, using(crate::proofs::Products::by_shifts))]
    fn product(&self, a: u8, b: u8) -> u8 {
        let mut sum = 0;
        let mut term = a;
        let mut rest = b;
        while rest > 0 {
            if rest % 2 == 1 {
                sum ^= term;
            }
            term = doubled(term);
            rest /= 2;
        }
        sum
    }

    // The 255th power of each code but 0 is 1, so the 254th is its inverse; 254 is 2 + 4 + .. + 128.
    #[tactic(auto, using(crate::proofs::Products::inverse_is))]
    fn inverse(&self, a: NonZeroU8) -> u8 {
        let mut square = a.get();
        let mut power = 1;
        for _ in 0..7u32 {
            square = self.product(square, square);
            power = self.product(power, square);
        }
        power
    }
}
