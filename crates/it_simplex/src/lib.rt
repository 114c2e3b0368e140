//! Whether a target is a sum of columns with weights of at least 0, by Bland's run of the simplex method.
#![tactic(auto)]

mod answering;
mod budget;
mod laws;

pub use answering::solve;
pub use budget::Budget;
pub use it_run::Solved;
pub use laws::{ends_at_the_first, ends_once, meets_no_basis_twice, runs_end};
