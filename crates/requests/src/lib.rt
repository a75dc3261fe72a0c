// The text of requests to multiply matrices, read into values.
#![tactic(auto)]

pub mod fault;
pub mod reading;
pub mod request;
#[cfg(test)]
mod tests;
mod words;
