//! The values of a point, as the few facts that determine it among all polymatroids with rates.
#![tactic(auto)]

mod fact_finding;
mod fact_texts;
mod facts;
mod points;
mod settling;

pub use points::told_point;
