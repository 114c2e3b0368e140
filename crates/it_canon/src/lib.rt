//! The problems that questions pose, and the rows of their targets and systems, over the coordinates of a space.
#![tactic(auto)]

mod laws;
mod problems;
mod relations;
mod systems;

pub use it_demand::{Coefficients, canon, canon_given, rows_are_unique};
pub use laws::questions_pose_problems;
pub use problems::{problem, problem_names, region_lines};
pub use relations::sides;
pub use systems::{system, target_rows};
