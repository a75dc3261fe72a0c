// Multiplication by tables: a product adds logarithms, and an inverse negates one.
use crate::octets::Multiplication;
use crate::octets::logarithms::logarithm;
use crate::octets::powers::power;
use std::num::NonZeroU8;

#[derive(Clone, Copy)]
pub struct ByTable;

impl Multiplication for ByTable {
    #[tactic(auto, using(crate::proofs::Products::by_table))]
    fn product(&self, a: u8, b: u8) -> u8 {
        match (NonZeroU8::new(a), NonZeroU8::new(b)) {
            (Some(a), Some(b)) => power(u32::from(logarithm(a)) + u32::from(logarithm(b))),
            _ => 0,
        }
    }

    // The logarithms of a code and of its inverse add up to 255.
    #[tactic(auto, using(crate::proofs::Products::product_power, crate::proofs::Products::power_255))]
    fn inverse(&self, a: NonZeroU8) -> u8 {
        power(255 - u32::from(logarithm(a)))
    }
}
