// The runs of the table, over the supplied fields.
ghost use Rattle.std.specs.Prelude.{◌≡◌, true};
ghost use Rattle.runs.specs.Table.{AllHold, runs};

use crate::answering::run_matches;
use crate::run::{Asked, Step};
use logs::answer::{Answer, Symbol};
use rings::octets::Octets;
use rings::octets::by_shifts::ByShifts;
use rings::octets::by_table::ByTable;
use rings::residues::Residues;

// An equation is kept; a multiple of it comes with its value, then with another; over the residues one more is kept.
const RESIDUE_PAIR: [Step<2>; 4] = [
    Step {
        coefficients: [1, 1],
        value: 3,
        answer: Answer::Kept(0),
        weights: [0, 0],
    },
    Step {
        coefficients: [2, 2],
        value: 6,
        answer: Answer::Implied,
        weights: [2, 0],
    },
    Step {
        coefficients: [2, 2],
        value: 7,
        answer: Answer::Contradiction,
        weights: [2, 0],
    },
    Step {
        coefficients: [0, 1],
        value: 1,
        answer: Answer::Kept(1),
        weights: [0, 0],
    },
];

const OCTET_PAIR: [Step<2>; 3] = [
    Step {
        coefficients: [1, 2],
        value: 3,
        answer: Answer::Kept(0),
        weights: [0, 0],
    },
    Step {
        coefficients: [3, 6],
        value: 5,
        answer: Answer::Implied,
        weights: [3, 0],
    },
    Step {
        coefficients: [3, 6],
        value: 9,
        answer: Answer::Contradiction,
        weights: [3, 0],
    },
];

// Two equations in either order, which leave one unknown free, and what is asked after both.
const FIRST_ORDER: [Step<3>; 2] = [
    Step {
        coefficients: [1, 1, 0],
        value: 5,
        answer: Answer::Kept(0),
        weights: [0, 0, 0],
    },
    Step {
        coefficients: [0, 0, 1],
        value: 4,
        answer: Answer::Kept(1),
        weights: [0, 0, 0],
    },
];

const SECOND_ORDER: [Step<3>; 2] = [
    Step {
        coefficients: [0, 0, 1],
        value: 4,
        answer: Answer::Kept(0),
        weights: [0, 0, 0],
    },
    Step {
        coefficients: [1, 1, 0],
        value: 5,
        answer: Answer::Kept(1),
        weights: [0, 0, 0],
    },
];

const ASKED_OF_EITHER: [Asked<3>; 4] = [
    Asked::Solution([5, 0, 4]),
    Asked::Kernel(0, [65520, 1, 0]),
    Asked::Unknown(2, Symbol::Known(4)),
    Asked::Unknown(0, Symbol::Open(0)),
];

// No coefficient but 0, offered to a new collection.
const NO_COEFFICIENT: [Step<1>; 2] = [
    Step {
        coefficients: [0],
        value: 0,
        answer: Answer::Implied,
        weights: [0],
    },
    Step {
        coefficients: [0],
        value: 1,
        answer: Answer::Contradiction,
        weights: [0],
    },
];

pub(crate) fn residue_runs() -> bool
    ensures { AllHold runs → result ≡ true }
{
    run_matches(Residues, &RESIDUE_PAIR, &[Asked::Solution([2, 1])])
        && run_matches(Residues, &FIRST_ORDER, &ASKED_OF_EITHER)
        && run_matches(Residues, &SECOND_ORDER, &ASKED_OF_EITHER)
        && run_matches(Residues, &NO_COEFFICIENT, &[])
}

pub(crate) fn octet_runs() -> bool
    ensures { AllHold runs → result ≡ true }
{
    run_matches(Octets(ByTable), &OCTET_PAIR, &[])
        && run_matches(Octets(ByTable), &NO_COEFFICIENT, &[])
        && run_matches(Octets(ByShifts), &OCTET_PAIR, &[])
        && run_matches(Octets(ByShifts), &NO_COEFFICIENT, &[])
}
