//! Answers about the factors between the sides of a relation: the least one, that there is none, or no least one; when such an answer
//! is true; and the row that says that a number is a factor.
#![tactic(auto)]

mod sides;
pub mod types;

pub use sides::{RowStop, side_row};
