// The lines and the words of a text, and the whole numbers that words write.
#![tactic(auto)]

pub mod cursor;
pub mod fault;
pub mod lines;
pub mod number;
pub mod stop;
#[cfg(test)]
mod tests;
pub mod words;
pub mod writing;
