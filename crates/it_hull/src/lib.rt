//! Cones of rays: the rows that hold exactly at the points that rays span, with one ray added at a time.
#![tactic(auto)]

mod constant_problems;
mod first;
mod hulls;
mod kept;
pub mod laws;
mod terms;

pub use constant_problems::constants;
pub use first::first_rows;
pub use hulls::with_ray;
pub use kept::kept_coordinates;
