//! Tools for proofs of targets and of factors: the columns of a problem's generators in a run of the simplex method, and rational
//! numbers made whole by the least common multiple of their denominators.
#![tactic(auto)]

mod columns;
mod rows;
mod scaling;

pub use columns::push_row;
pub use rows::{generator_row, opposite_row};
pub use scaling::{common_scale, scaled_number, scaled_values};
