//! Where a row comes from: the constraints of a problem whose sum it is, up to a positive factor, proposed by one run of the simplex
//! method and judged by the checker.
#![tactic(auto)]

mod columns;
mod origins;
mod search;
mod sums;

pub use origins::origin;
pub use sums::{column_weights, multiple_of_denominators};
