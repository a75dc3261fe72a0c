// The residues modulo 65521, the largest prime below 2^16: a field.
ghost use Rattle.std.specs.Prelude.{◌+◌, ◌*◌, ◌%◌, ◌<◌};
ghost use Rattle.rings.specs.Modulo.{residues};
ghost use Rattle.std.proofs.Common.{lit≤};
ghost use Rattle.rings.specs.ModuloLaws.{modulo_laws};
ghost use Rattle.rings.specs.Primes.{prime, has_inverses};

use algebra::field::Field;
use algebra::ring::Ring;

const MODULUS: u32 = 65521;

#[derive(Clone, Copy)]
pub struct Residues;

impl Ring for Residues {
    ghost meaning = { λ _. residues };

    ghost laws = { λ r. modulo_laws _ (lit≤ tt) (lit≤ tt) };

    fn order(&self) -> u64 {
        u64::from(MODULUS)
    }

    fn sum(&self, a: u32, b: u32) -> u32 {
        if a >= MODULUS || b >= MODULUS {
            return 0;
        }
        let sum = a + b;
        if sum < MODULUS { sum } else { sum - MODULUS }
    }

    // The product of two residues is below 2^32.
    fn product(&self, a: u32, b: u32) -> u32 {
        if a >= MODULUS || b >= MODULUS {
            return 0;
        }
        a * b % MODULUS
    }

    fn negative(&self, a: u32) -> u32 {
        if 0 < a && a < MODULUS { MODULUS - a } else { 0 }
    }
}

impl Field for Residues {
    ghost inverses = { λ f. has_inverses _ prime };

    // Throughout, factor × a = rest modulo 65521; rest falls to 1, since no smaller number divides 65521.
    fn inverse(&self, a: u32) -> Option<u32> {
        if a == 0 || a >= MODULUS {
            return None;
        }
        let mut rest = a;
        let mut factor = 1;
        while rest != 1 {
            factor = self.product(factor, MODULUS - MODULUS / rest);
            rest = MODULUS % rest;
        }
        Some(factor)
    }
}
