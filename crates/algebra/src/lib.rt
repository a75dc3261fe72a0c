// Rings and fields by their meaning: what every library of this repository is generic in.
#![tactic(auto)]

pub mod agreement;
pub mod codes;
pub mod field;
pub mod multiples;
pub mod ring;
