//! Sets of variables; spaces of entropies and rates with their coordinates, rows and points; and the answers
//! made of these.
#![tactic(auto)]

mod answers;
mod cancelling;
mod divisors;
mod faults;
mod points;
mod rows;
mod sets;
mod spaces;
mod sums;
mod values;

pub use answers::{Answer, Cause, Certificate, Mark, is_nonzero_weight};
pub use cancelling::cancel;
pub use divisors::normal;
pub use faults::RowFault;
pub use points::Point;
pub use rows::{Row, push_some};
pub use sets::VarSet;
pub use spaces::Space;
pub use sums::Sums;
pub use values::{value, with_product};
