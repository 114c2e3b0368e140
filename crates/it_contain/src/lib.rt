//! The search for a substitution that shows that one region lies in another: those who propose candidates, and the first
//! candidate that is proved.
#![tactic(auto)]

mod boxes;
mod judging;
mod outcomes;
mod proposer;
mod recent;
mod search;
mod singles;
mod subsets;
mod tuples;
pub mod types;

pub use it_region::{Candidate, Pair, fits, obligations, pair};
pub use proposer::Proposer;
pub use recent::Recent;
pub use search::contain;
pub use singles::Singles;
pub use subsets::Subsets;
pub use types::{Contained, Shape};
