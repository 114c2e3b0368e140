//! Questions in mode `outer`: the right reply to one, which is the outer bound of a question that asks to eliminate rates, and its lines.
#![tactic(auto)]

mod laws;
mod lines;
mod marks;
mod rays;
mod replying;
mod reporting;
mod steps;
mod types;

pub use laws::{replies_are_determined, shown_bounds_are_true};
pub use lines::reply_lines;
pub use replying::reply;
pub use reporting::reply_report;
pub use types::{RepliedProblem, Reply};
