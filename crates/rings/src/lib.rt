// Finite rings and fields: words of 32 bits, residues modulo a prime, and octets.
#![tactic(auto)]

pub mod octets;
pub mod residues;
#[cfg(test)]
mod tests;
pub mod words;
