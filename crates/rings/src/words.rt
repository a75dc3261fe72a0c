// The integers modulo 2^32, of which every u32 is a code: a ring and no field.
ghost use Rattle.rings.specs.Modulo.{words};
ghost use Rattle.std.proofs.Common.{lit≤};
ghost use Rattle.rings.specs.ModuloLaws.{modulo_laws};

use algebra::ring::Ring;

#[derive(Clone, Copy)]
pub struct Words;

impl Ring for Words {
    ghost meaning = { λ _. words };

    ghost laws = { λ r. modulo_laws _ (lit≤ tt) (lit≤ tt) };

    fn order(&self) -> u64 {
        1 << 32
    }

    fn sum(&self, a: u32, b: u32) -> u32 {
        a.wrapping_add(b)
    }

    fn product(&self, a: u32, b: u32) -> u32 {
        a.wrapping_mul(b)
    }

    fn negative(&self, a: u32) -> u32 {
        a.wrapping_neg()
    }
}
