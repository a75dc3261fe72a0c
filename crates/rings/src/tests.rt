// Worked values of each ring.
use crate::octets::Octets;
use crate::octets::by_shifts::ByShifts;
use crate::octets::by_table::ByTable;
use crate::residues::Residues;
use crate::words::Words;
use algebra::field::Field;
use algebra::ring::Ring;
use std::process::Abort;

#[test]
fn words(rt: HostRuntime) {
    assert_eq!(rt; Words.order(), 4294967296);
    assert_eq!(rt; Words.sum(4294967295, 2), 1);
    assert_eq!(rt; Words.product(4294967295, 4294967295), 1);
    assert_eq!(rt; Words.negative(1), 4294967295);
}

#[test]
fn residues(rt: HostRuntime) {
    assert_eq!(rt; Residues.sum(65520, 1), 0);
    assert_eq!(rt; Residues.sum(65521, 1), 0);
    assert_eq!(rt; Residues.product(65520, 65520), 1);
    assert_eq!(rt; Residues.negative(0), 0);
    assert_eq!(rt; Residues.negative(1), 65520);
    assert_eq!(rt; Residues.inverse(2), Some(32761));
    assert_eq!(rt; Residues.inverse(0), None);
    assert_eq!(rt; Residues.inverse(65521), None);
}

fn octet_values<F: Field>(rt: &impl Abort, f: &F) {
    assert_eq!(rt; f.order(), 256);
    assert_eq!(rt; f.sum(3, 7), 4);
    assert_eq!(rt; f.product(128, 2), 29);
    assert_eq!(rt; f.product(3, 7), 9);
    assert_eq!(rt; f.product(3, 3), 5);
    assert_eq!(rt; f.product(256, 1), 0);
    assert_eq!(rt; f.negative(7), 7);
    assert_eq!(rt; f.inverse(2), Some(142));
    assert_eq!(rt; f.inverse(0), None);
}

#[test]
fn octets(rt: HostRuntime) {
    octet_values(&rt, &Octets(ByTable));
    octet_values(&rt, &Octets(ByShifts));
}
