//! Replies with their problems.
use it_outer::OuterCause;
use it_problems::Problem;
use it_space::{Certificate, Mark, Point, Row};

/// A reply to a question in mode `outer`.
#[derive(Drop)]
pub enum Reply {
    /// The outer bound: rows at the rates that stay, each with its mark; a certificate of each, in order; and rays, points at which all
    /// lines are true, whose rates span what the rows allow.
    Bounded {
        rows: Vec<(Mark, Row)>,
        proofs: Vec<Certificate>,
        rays: Vec<Point>,
    },
    /// The search has no end within its limits, and why.
    Undecided(OuterCause),
    /// With all lines given the question's table is too large for its file.
    Size,
    /// To any other verb.
    Other,
}

/// The reply to a question, and the problem that all its lines pose, `row` lines too. The generators that a certificate numbers are the
/// elemental inequalities of the problem's space, then its constraints.
pub struct RepliedProblem {
    pub problem: Problem,
    pub reply: Reply,
}

impl Drop for RepliedProblem {
    fn drop(self) {
        let RepliedProblem {
            problem: _,
            reply: _,
        } = self;
    }
}
