//! The verdict on each line of a report.
#![tactic(auto)]

mod bounds;
mod factors;
mod judging;
mod laws;
mod lines;
mod rows;
mod words;

pub use judging::{judge, judge_fault, judge_reported};
pub use laws::{
    each_line_is_judged, valid_code_is_true, valid_factor_is_true, valid_is_true,
    valid_origins_are_true, verdict_is_one,
};
pub use lines::JudgedLine;
