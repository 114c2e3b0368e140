//! Linear codes over the fields of two and three elements: their entropies, and the first value of a point that differs from them.
#![tactic(auto)]

mod codes;
mod counting;
mod entropies;

pub use codes::{Field, LinearCode, Variable};
pub use entropies::{entropies_of, first_other};
