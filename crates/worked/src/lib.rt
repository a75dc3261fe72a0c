// Worked values: that the definitions give them, and that the code answers them.
#![tactic(auto)]

ghost use Rattle.std.specs.Prelude.{◌≡◌, true};
ghost use Rattle.rings.specs.Octets.{octets};
ghost use Rattle.worked.specs.Worked.{AllHold, table};

use algebra::field::Field;
use algebra::ring::Ring;
use rings::octets::Octets;
use rings::octets::by_shifts::ByShifts;
use rings::octets::by_table::ByTable;
use rings::residues::Residues;
use rings::words::Words;

// Every line of the table holds, and the supplied rings answer it. (By `&`, here and in `octet_values`, there is one exit, where one
// proof has every value.)
pub fn worked_values() -> bool
    ensures table { AllHold table }
    ensures answered { result ≡ true }
{
    residue_values()
        & octet_values(&Octets(ByTable))
        & octet_values(&Octets(ByShifts))
        & word_values()
}

fn residue_values() -> bool
    ensures { result ≡ true }
{
    (Residues.sum(65520, 1) == 0)
        && (Residues.product(65520, 65520) == 1)
        && (Residues.inverse(2) == Some(32761))
        && (Residues.inverse(0) == None)
}

fn octet_values<F: Field>(f: &F) -> bool
    ensures { F.Ring.meaning f.now ≡ octets → result ≡ true }
{
    (f.product(128, 2) == 29)
        & (f.product(3, 7) == 9)
        & (f.product(3, 3) == 5)
        & (f.inverse(2) == Some(142))
}

fn word_values() -> bool
    ensures { result ≡ true }
{
    Words.product(4294967295, 4294967295) == 1
}
