//! Answers as reports: lines of JSON, written and read.
#![tactic(auto)]

mod answers;
mod bounds;
mod codes;
mod factor_values;
mod factors;
pub mod keys;
pub mod kinds;
mod laws;
mod lists;
mod members;
mod numbers;
mod objects;
mod obligations;
mod origins;
mod questions;
mod reports;
mod rows;
mod sets;
mod sources;
pub mod types;
mod values;
mod verbs;
mod writing;

pub use it_space::{Answer, Cause, Certificate, Mark};
pub use keys::{Key, ReportFault};
pub use laws::{
    answers_read_back, lines_are_written_as_said, lines_have_one_reading, origins_read_back,
    reports_read_as_said, texts_read_as_said,
};
pub use origins::unmarked;
pub use reports::answer_from_json;
pub use types::{Reported, ReportedBounds, ReportedCode, SourceText};
pub use writing::{answer_json, best_json, bounds_json, derived_json, misfit_json, report_json};
