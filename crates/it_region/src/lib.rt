//! Regions of a containment question: what it means that one lies in another, what the auxiliaries of the second may stand
//! for, and the obligations of such a substitution.
#![tactic(auto)]

mod fitting;
mod laws;
mod pairs;
mod parts;
mod pulled_rows;
pub mod types;

pub use fitting::{are_below, fits};
pub use laws::obligations_contain;
pub use pairs::pair;
pub use parts::candidate;
pub use pulled_rows::obligations;
pub use types::{Candidate, Pair};
