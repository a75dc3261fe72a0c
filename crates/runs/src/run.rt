// A run of a collection: what is offered, one equation after another, and what is asked of it when it is published.
use logs::answer::{Answer, Symbol};

// An offer of an equation on N unknowns, its answer, and the weights after it.
#[derive(Clone, Copy)]
pub(crate) struct Step<const N: usize> {
    pub(crate) coefficients: [u32; N],
    pub(crate) value: u32,
    pub(crate) answer: Answer,
    pub(crate) weights: [u32; N],
}

// A question, with its reply.
#[derive(Clone, Copy)]
pub(crate) enum Asked<const N: usize> {
    // For the solution.
    Solution([u32; N]),
    // For the kernel vector of a number.
    Kernel(usize, [u32; N]),
    // For the unknown of a number.
    Unknown(usize, Symbol),
}
