//! Lists without redundant rows: reduction of a list, and elimination of rates that reduces the list after each.
#![tactic(auto)]

mod laws;
mod others;
mod projection;
mod reduction;
mod types;

pub use laws::{causes_are_plain, reductions_are_determined, settled_regions_agree};
pub use projection::{kept_system, project};
pub use reduction::reduce;
pub use types::{Need, Projected, Reduced};
