// Matrices over lent memory: windows, and the product of two of them over every ring.
#![tactic(auto)]

mod codes;
pub mod product;
pub mod refusal;
pub mod window;
