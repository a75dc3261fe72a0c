// What every log promises, as the contract of a call.
ghost use Rattle.std.specs.Prelude.{◌≡◌, ◌==◌};
ghost use Rattle.logs.specs.Promises.{Promised, Agree};

use algebra::field::Field;
use algebra::ring::Ring;

// Whether the codes of two fields are the same numbers: their orders are equal. Whatever it answers, every log over either field
// keeps the promises, and logs over the two agree where the fields have one meaning.
pub fn comparable<F: Field, G: Field>(f: &F, g: &G) -> bool
    ensures orders { result ≡ ((F.Ring.meaning f.now).order == (G.Ring.meaning g.now).order) }
    ensures first { Promised (F.Ring.meaning f.now) }
    ensures second { Promised (G.Ring.meaning g.now) }
    ensures agree { Agree (F.Ring.meaning f.now) (G.Ring.meaning g.now) }
{
    f.order() == g.order()
}
