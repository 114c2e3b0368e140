//! Forms: how a text is written, letter by letter, what it says, and its first fault.
#![tactic(auto)]

pub mod types;

pub use types::{Code, Symbol};
