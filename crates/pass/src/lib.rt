// Calls on a collection recorded with their answers, and published forms compared.
#![tactic(auto)]

pub mod asking;
pub mod comparison;
pub mod recording;
pub mod stop;
