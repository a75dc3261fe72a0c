// Comparing two rings or two fields by what they answer. Those of one meaning always agree.
ghost use Rattle.std.specs.Prelude.{◌≡◌, true, Decides};
ghost use Rattle.algebra.specs.Agreement.{AnswerAlike, InvertAlike};
ghost use Rattle.algebra.specs.Meaning.{OneMeaning};

use crate::field::Field;
use crate::ring::Ring;

// Whether the two have one order, the same sum and product of a and b, and the same negative of a.
#[tactic(auto, using(crate::proofs::OneMeaning::same_sum, crate::proofs::OneMeaning::same_product, crate::proofs::OneMeaning::same_negative))]
pub fn answer_alike<R: Ring, S: Ring>(r: &R, s: &S, a: u32, b: u32) -> bool
    ensures decides { Decides result (AnswerAlike (R.Ring.meaning r.now) (S.Ring.meaning s.now) a b) }
    ensures always { OneMeaning (R.Ring.meaning r.now) (S.Ring.meaning s.now) → result ≡ true }
{
    r.order() == s.order()
        && r.sum(a, b) == s.sum(a, b)
        && r.product(a, b) == s.product(a, b)
        && r.negative(a) == s.negative(a)
}

// Whether the two fields answer the same inverse of a, or both none.
#[tactic(auto, using(crate::proofs::OneMeaning::inverse_once, crate::proofs::OneMeaning::alike_at))]
pub fn invert_alike<F: Field, G: Field>(f: &F, g: &G, a: u32) -> bool
    ensures decides { Decides result (InvertAlike (F.Ring.meaning f.now) (G.Ring.meaning g.now) a) }
    ensures always { OneMeaning (F.Ring.meaning f.now) (G.Ring.meaning g.now) → result ≡ true }
{
    f.inverse(a) == g.inverse(a)
}
