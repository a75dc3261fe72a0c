// Finite commutative rings, whose elements are codes.
ghost use Rattle.std.specs.Prelude.{◌≡◌, ◌≤◌, ◌⊎◌};
ghost use Rattle.algebra.specs.Meaning.{Meaning, RingLaws};

// A ring of some order N: its elements are the codes 0 to N - 1. The functions change nothing, and answer 0 where an argument is
// not below N: 0 and no Option, so that operations on rows are total, whatever a slice holds.
pub trait Ring {
    ghost meaning: { Self → Meaning };

    // N, from 2 to 2^32.
    fn order(&self) -> u64
        ensures { result ≡ (meaning self.now).order };

    fn sum(&self, a: u32, b: u32) -> u32
        ensures value { result ≡ (meaning self.now).sum a b }
        ensures outside { ((meaning self.now).order ≤ a) ⊎ ((meaning self.now).order ≤ b) → result ≡ 0 };

    fn product(&self, a: u32, b: u32) -> u32
        ensures value { result ≡ (meaning self.now).product a b }
        ensures outside { ((meaning self.now).order ≤ a) ⊎ ((meaning self.now).order ≤ b) → result ≡ 0 };

    // The code b with a + b = 0.
    fn negative(&self, a: u32) -> u32
        ensures value { result ≡ (meaning self.now).negative a }
        ensures outside { (meaning self.now).order ≤ a → result ≡ 0 };

    ghost laws: { (r : Self) → RingLaws (meaning r) };
}
