//! The run of the simplex method on whole numbers.
//!
//! Of a table of fractions the engine keeps only the artificial columns and the right side, as whole numbers over one denominator
//! for each row. A row's entry at any other column is the sum of the column's terms at these numbers. While all numbers stay below
//! 2^63 in absolute value, no step of the exact table is wide, so the engine makes the same run without testing for it, and gives up
//! where a number would be 2^63 or more. It tries first with rows in 32 bits, on which a step is vectorized, and where a number
//! doesn't fit these, again from the start with rows in 64 bits.
#![tactic(auto)]

mod behind;
mod blocks;
mod bringing;
mod choice;
mod engine;
mod leaving;
mod loading;
mod pivots;
mod reading;
mod shares;
mod whole;

pub use whole::{narrow_run, whole_run};
