//! Functional dependences among the given equations, closed sets, and rows over closed sets.
#![tactic(auto)]

mod coordinates;
mod dependences;
mod laws;
mod reading;
mod row_places;
mod sizes;

pub use dependences::{Dependence, Dependences, first_open};
pub use laws::{
    closure_is_least, closures_keep, collapse_keeps, coordinates_serve, reads_exactly,
    spread_out_holds,
};
pub use sizes::{MOST_ENTRIES, MOST_VARIABLES_IN_REACH, column_count, size};
