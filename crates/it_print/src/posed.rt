//! Questions as they are posed.
use it_problems::Constraint;
use it_question::types::Question;

/// A question of a file, with the constraints of the problem that it poses, which are the generators after the elemental inequalities.
#[derive(Drop)]
pub struct PosedQuestion<'a> {
    /// The question's number in its file, counted from 1.
    pub number: usize,
    pub question: &'a Question,
    pub constraints: &'a [Constraint],
}
