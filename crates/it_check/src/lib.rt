//! The checker of certificates and counterexamples.
#![tactic(auto)]

mod laws;
mod no;
mod terms;
mod values;
mod verdicts;
mod windows;
mod yes;

pub use laws::{valid_met, valid_no, valid_yes, yes_is_true};
pub use no::{check_met, check_no};
pub use verdicts::Verdict;
pub use yes::check_yes;
