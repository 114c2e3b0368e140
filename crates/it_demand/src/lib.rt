//! What relations and other constraints demand, as rows over the coordinates of a space.
#![tactic(auto)]

mod coefficients;
mod givens;
mod laws;
mod lines;
mod relations;

pub use coefficients::Coefficients;
pub use givens::canon_given;
pub use laws::rows_are_unique;
pub use lines::{given_constraints, row_constraints};
pub use relations::{canon, difference};
