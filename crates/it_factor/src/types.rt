//! Replies with their problems.
use it_problems::Problem;
use it_ratio::types::Best;
use it_space::Row;

/// The sides of a relation, as rows, with the problem under which a factor between them is looked for.
#[derive(Drop)]
pub struct Sides<'a> {
    pub problem: &'a Problem,
    pub left: &'a Row,
    pub right: &'a Row,
}

/// A reply to a question in mode `best`.
#[derive(Drop)]
pub enum Reply {
    /// To `prove E >= F`: which numbers c make c times E at least F.
    Found(Best),
    /// To any other verb, and to a relation with another sign.
    Other,
}

/// The reply to a question, and the question's problem. The generators that a certificate numbers are the elemental inequalities
/// of the problem's space, then its constraints.
pub struct RepliedProblem {
    pub problem: Problem,
    pub reply: Reply,
}

impl Drop for RepliedProblem {
    fn drop(self) {
        let RepliedProblem {
            problem: _,
            reply: _,
        } = self;
    }
}
