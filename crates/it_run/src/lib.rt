//! Bland's run of the simplex method on a tableau of exact fractions.
#![tactic(auto)]

mod answering;
mod choice;
mod readings;
mod run;

pub use answering::{Solved, exact_run};
