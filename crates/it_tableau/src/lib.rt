//! The exact table of the simplex method: its start on sparse rows with an artificial column for each row, and the pivot.
#![tactic(auto)]

mod costs;
mod gathering;
mod laws;
mod merging;
mod rows;
mod sparse_rows;
mod start;
mod tableau;

pub use gathering::{ascends, place_of};
pub use laws::{pivots_combine_start, pivots_keep_invariants, start_has_invariants};
pub use start::{artificials, keeps_sign};
pub use tableau::Tableau;
