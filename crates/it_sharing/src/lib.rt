//! Secret sharing: files that say which parties may know a secret, and the constraints of perfect sharing that they make.
#![tactic(auto)]

mod aims;
mod laws;
mod lists;
mod making;
mod reading;
mod sets;
pub mod types;

pub use laws::{
    made_givens_are_perfect, made_question_is_of_perfect_sharing, sharing_has_one, sharing_is_one,
    sharing_is_within,
};
pub use making::made;
pub use reading::sharing;
