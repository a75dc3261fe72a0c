// The lines that calls on collections of equations are answered with, the report for a person, and what two passes come to.
#![tactic(auto)]

pub mod calls;
pub mod passes;
mod plural;
pub mod report;
#[cfg(test)]
mod tests;
