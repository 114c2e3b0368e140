//! Constraints on entropies and rates; the problems and systems that are made of them.
#![tactic(auto)]

mod problems;

pub use problems::{Constraint, Kind, Origin, Problem, System};
