//! The judge of a hull: whether rows hold exactly at the points that rays span, by elimination and certificates.
#![tactic(auto)]

mod drops;
pub mod laws;
mod spans;
mod types;
mod verdicts;

pub use spans::hull;
pub use types::{Fault, Frame, HullVerdict, RowDrop, Spanned, Step};
pub use verdicts::check_hull;
