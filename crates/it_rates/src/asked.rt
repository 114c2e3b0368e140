//! The rates that a question eliminates, and the problem that all its lines pose.
ghost use Rattle.std.specs.Prelude.{◌≡◌, IfOk};
ghost use Rattle.it_question.specs.Questions.{verb_view};
ghost use Rattle.it_canon.specs.QuestionDemands.{IsProblemOf};
ghost use Rattle.it_rates.specs.Asked.{gone_rates, under_all_lines};

use it_problems::Problem;
use it_question::line_constraints;
use it_question::types::{Question, Verb};
use std::alloc::{AllocError, Global};

/// The rates that a verb eliminates; none where it asks for something else.
pub fn gone_rates(verb: &Verb) -> &[u8]
    ensures { result.now ≡ gone_rates (verb_view verb.now) }
{
    match verb {
        Verb::Eliminate(rates) => rates.as_slice(),
        Verb::Prove(_) => &[],
        Verb::Contain { .. } => &[],
    }
}

/// The problem that all lines of a question pose, `row` lines too.
pub fn problem_of_lines(alloc: Global, question: &Question) -> Result<Problem, AllocError>
    ensures { IfOk result (λ p. IsProblemOf (under_all_lines question.now.body) p) }
{
    question.facts();
    let space = question.space();
    let constraints = line_constraints(alloc, question.lines(), space)?;
    Ok(Problem { space, constraints })
}
