//! Questions in mode `best`: the right reply to one, which is what is found of the factors of `prove E >= F`, and its line.
#![tactic(auto)]

mod joining;
mod laws;
mod lines;
mod quick;
mod replying;
mod types;

pub use laws::{replies_are_determined, shown_factors_are_true};
pub use lines::reply_line;
pub use replying::reply;
pub use types::{RepliedProblem, Reply};
