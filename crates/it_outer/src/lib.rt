//! Outer bounds in rates alone: rows with certificates that are the hull of rays, each of which meets the problem.
#![tactic(auto)]

mod extremes;
mod hulls;
pub mod laws;
mod outcomes;
mod passes;
mod search;
mod types;
mod visits;

pub use search::outer;
pub use types::{Bounds, Limits, Outer, OuterCause};
