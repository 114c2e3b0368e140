//! What is told of a report: the answers of its lines in the field's own notation.
#![tactic(auto)]

mod alike;
mod codes;
mod containments;
mod details;
mod factors;
mod heads;
mod labels;
pub mod laws;
mod lines;
mod maps;
mod regions;
mod reports;
pub mod settings;
mod top;

pub use top::tell;
