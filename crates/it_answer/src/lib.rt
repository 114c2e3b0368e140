//! Right answers to questions. To `prove`: a question's problem and targets, each target by `prove` of it_prove, and the answer
//! that they give together. To `eliminate`: the rows of the question's system, and the region that reduced elimination leaves under
//! the question's givens. To `contain`: the pair of the question's regions, and what the search over boxes finds.
#![tactic(auto)]

mod answering;
mod containments;
mod laws;
mod regions;
mod targets;
mod types;

pub use answering::answer;
pub use laws::{
    answers_are_determined, files_are_in_reach, never_yes_and_no, no_step_is_zero,
    shown_answers_are_true,
};
pub use regions::marked_rows;
pub use targets::target_rows;
pub use types::{AnsweredProblem, Budgets};
