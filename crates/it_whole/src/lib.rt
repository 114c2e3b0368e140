//! Rows of whole numbers over one denominator, in 32 or in 64 bits, and a step of the simplex method on them.
//!
//! A row represents rational numbers: each of its numbers over its denominator, mostly not in lowest terms. A step subtracts from a
//! row the multiple of the leaving row that makes its entry at the entering column 0. While the numbers stay within a limit, this
//! needs no fractions and mostly no division; where they don't, the operation fails.
#![tactic(auto)]

mod columns;
mod giving_up;
mod narrow_rows;
mod room;
mod rows;
mod wide_rows;

pub use columns::Column;
pub use giving_up::GaveUp;
pub use rows::{Leaving, WholeRow};
