//! Outer bounds in rates alone, by the meaning of a question's text: what is asked, and which rows and rays are exact.
#![tactic(auto)]

mod asked;
pub mod laws;

pub use asked::{gone_rates, problem_of_lines};
