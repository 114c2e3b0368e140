//! Whether a target is at least 0 wherever a polymatroid and rates meet the constraints of a problem: by a certificate over
//! the elemental inequalities and the constraints, or by a point that refutes it (Yeung 1997). The run of the simplex
//! method works on the sets that are closed under the problem's functional dependences; its weights are lifted back to
//! all sets, and its point is spread out over them. A quick run may come first: its proposal is the answer if the check
//! finds it valid. Where the defined run is out of reach, the quick run is made alone.
#![tactic(auto)]

mod answering;
mod certificates;
mod closed;
mod columns;
mod laws;
mod points;
mod proving;
mod quick;
mod reach;
mod scaling;
mod types;

pub use answering::{QUICK_STEPS, prove};
pub use closed::ClosedProblem;
pub use laws::{
    defined_ends_may_come, ends_agree, ends_are_right, never_at_start, never_out_of_steps,
    one_outcome, proven_ascends, size_is_of_start,
};
pub use quick::settle;
pub use types::{Effort, Proof, Runs, budget_of};
