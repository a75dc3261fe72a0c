// Answering the requests of a text.
#![tactic(auto)]

pub mod answering;
mod multiply;
pub mod rendering;
pub mod reply;
