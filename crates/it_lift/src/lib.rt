//! Certificates over closed sets, lifted to certificates over all sets.
#![tactic(auto)]

mod excesses;
mod laws;
mod lifting;
mod moves;
mod sums;

pub use laws::{lift_adds_up, reading_gives_dependences, weight_sums_fit_as_end};
pub use lifting::lift;
