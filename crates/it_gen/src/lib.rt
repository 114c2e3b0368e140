//! Question files of drawn questions, to measure the prover on: each asks whether a sum of three elemental inequalities of four
//! variables is at least a multiple of an entropy.
#![tactic(auto)]

mod draws;
mod files;
mod laws;

pub use files::questions_of;
pub use laws::generated_is_file;
