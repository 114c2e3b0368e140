//! The reading of the command's words.
#![tactic(auto)]

mod command;
pub mod laws;
mod numbers;
mod reading;
pub mod types;

pub use reading::settings;
