// Collections of linear equations over every field: what they accept, and what is known once they are published.
#![tactic(auto)]

pub mod collection;
mod columns;
mod elimination;
pub mod published;
mod questions;
pub mod table;
pub mod width;
