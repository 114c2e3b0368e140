//! Answers with their problems, and what they may cost.
ghost use Rattle.std.specs.Prelude.{◌≡◌, IfOk};
ghost use Rattle.it_answer.specs.RightAnswers.{budgets_under};

use it_problems::Problem;
use it_prove::Effort;
use it_space::Answer;
use std::alloc::{AllocError, Global};

/// How much an answer may cost: the effort for each target, which runs are made and the most steps of the defined run; the most rows that
/// the elimination of a rate may leave before they are reduced, at most 65,535 by its type; and the most candidates that are tried.
#[derive(Clone, Copy, Debug, PartialEq, Eq)]
pub struct Budgets {
    pub effort: Effort,
    pub rows: u16,
    pub tries: u32,
}

impl Budgets {
    /// These budgets with the effort for targets under `problem`.
    pub fn under(self, alloc: Global, problem: &Problem) -> Result<Budgets, AllocError>
        ensures { IfOk result (λ b. b ≡ budgets_under problem.now self) }
    {
        let effort = self.effort.under(alloc, problem)?;
        Ok(Budgets {
            effort,
            rows: self.rows,
            tries: self.tries,
        })
    }
}

/// The answer to a question, and the question's problem. The generators that a certificate numbers are the elemental
/// inequalities of the problem's space, then its constraints.
pub struct AnsweredProblem {
    pub problem: Problem,
    pub answer: Answer,
}

impl Drop for AnsweredProblem {
    fn drop(self) {
        let AnsweredProblem {
            problem: _,
            answer: _,
        } = self;
    }
}
