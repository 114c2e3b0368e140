//! Polymatroids, the elemental inequalities, certificates and counterexamples.
#![tactic(auto)]

mod laws;
mod substitutions;
mod sums;
mod tables;

pub use laws::{certificates_prove, elementals_generate};
pub use substitutions::{Substitution, pull_back, union_of_images};
pub use tables::{Table, is_polymatroid};
