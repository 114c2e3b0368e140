//! The tokens of a line, names, and relations between sums of entropies.
#![tactic(auto)]

mod atoms;
pub mod copies;
mod cutting;
mod denominators;
mod givens;
mod laws;
mod lists;
mod measures;
mod members;
mod names;
pub mod parts;
mod pieces;
mod places;
mod relations;
pub mod rest;
mod runs;
mod signs;
mod sums;
mod terminals;
pub mod types;

pub use cutting::{line_tokens, tokens};
pub use denominators::common_denominator;
pub use givens::given;
pub use laws::{given_is_one, line_tokens_are_one, relation_is_one};
pub use lists::is_measure;
pub use measures::{entropy, mutual_information};
pub use names::Names;
pub use relations::relation;
