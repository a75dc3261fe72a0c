// The text of a pass, read into a list of commands.
#![tactic(auto)]

pub mod command;
pub mod fault;
pub mod keyword;
pub mod reading;
mod state;
#[cfg(test)]
mod tests;
mod words;
