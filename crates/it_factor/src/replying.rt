//! The replies to questions.
ghost use Rattle.std.specs.Prelude.{◌≡◌, length, IfOk};
ghost use Rattle.std.specs.Option.{IfSome};
ghost use Rattle.it_syntax.specs.Givens.{IsRelationOf};
ghost use Rattle.it_syntax.specs.Meaning.{relation_view};
ghost use Rattle.it_question.specs.ProblemLines.{problem_names};
ghost use Rattle.it_demand.specs.Origins.{AreStated};
ghost use Rattle.it_demand.specs.QuestionSpaces.{space_of};
ghost use Rattle.it_canon.specs.QuestionDemands.{IsProblemOf, question_demands, question_origins};
ghost use Rattle.it_ratio.specs.BestViews.{best_view};
ghost use Rattle.it_best.specs.PhaseSteps.{AreSides};
ghost use Rattle.it_factor.specs.Lines.{IsPrintable};
ghost use Rattle.it_factor.specs.QuickSteps.{IsQuickEnd};
ghost use Rattle.it_factor.specs.Replies.{reply_view};
ghost use Rattle.it_factor.specs.RightReplies.{IsDueReply, IsRightReply};
ghost use Rattle.it_factor.specs.RowReplies.{IsFoundByRows, IsRelationReply};

use crate::quick::quick_factor;
use crate::types::{RepliedProblem, Reply};
use it_best::best;
use it_canon::{problem, sides};
use it_problems::Problem;
use it_prove::{Effort, Runs, budget_of};
use it_question::types::{Question, Verb};
use it_ratio::types::{Best, BestCause};
use it_space::Row;
use it_syntax::types::{Relation, Sign};
use std::alloc::{AllocError, Global};

/// The right reply to a question, and the question's problem: to `prove E >= F` what is found of its factors, and `Other` to each
/// other verb or sign. The effort's steps are the most of each of the three runs; without them each goes on to its end. Where these
/// runs about the question's problem are out of reach, quick runs are made alone.
pub fn reply(
    alloc: Global,
    question: &Question,
    effort: Effort,
) -> Result<RepliedProblem, AllocError>
    ensures space { IfOk result (λ a. a.problem.space ≡ space_of (problem_names question.now.body)) }
    ensures problem { IfOk result (λ a. AreStated a.problem.space (question_origins question.now.body) (question_demands question.now.body) a.problem.constraints) }
    ensures right { IfOk result (λ a. IsRightReply effort question.now.body (reply_view a.reply)) }
    ensures printable { IfOk result (λ a. IsPrintable question.now.body (length a.problem.constraints) a.reply) }
{
    let problem = problem(alloc, question)?;
    let own = effort.under(alloc, &problem)?;
    let reply = reply_under(alloc, question, &problem, own)?;
    Ok(RepliedProblem { problem, reply })
}

/// The reply to a question, with the question's problem.
fn reply_under(
    alloc: Global,
    question: &Question,
    problem: &Problem,
    effort: Effort,
) -> Result<Reply, AllocError>
    requires problem { IsProblemOf question.now.body problem.now }
    ensures right { IfOk result (λ r. IsDueReply effort question.now.body (reply_view r)) }
    ensures printable { IfOk result (IsPrintable question.now.body (length problem.now.constraints)) }
{
    question.facts();
    match question.verb() {
        Verb::Prove(relation) => relation_reply(alloc, problem, relation, effort),
        Verb::Eliminate(_) => Ok(Reply::Other),
        Verb::Contain { .. } => Ok(Reply::Other),
    }
}

/// The reply about a relation under a problem, by its sign.
fn relation_reply(
    alloc: Global,
    problem: &Problem,
    relation: &Relation,
    effort: Effort,
) -> Result<Reply, AllocError>
    requires relation { IsRelationOf problem.now.space.variables problem.now.space.rates (relation_view relation.now) }
    ensures { IfOk result (λ r. IsRelationReply problem.now effort (relation_view relation.now) (reply_view r)) }
{
    match relation.sign {
        Sign::AtLeast => {
            let found = factors(alloc, problem, relation, effort)?;
            Ok(Reply::Found(found))
        }
        Sign::AtMost => Ok(Reply::Other),
        Sign::Equal => Ok(Reply::Other),
    }
}

/// What is found of the factors between the sides of a relation under a problem.
fn factors(
    alloc: Global,
    problem: &Problem,
    relation: &Relation,
    effort: Effort,
) -> Result<Best, AllocError>
    requires relation { IsRelationOf problem.now.space.variables problem.now.space.rates (relation_view relation.now) }
    ensures { IfOk result (λ b. IsFoundByRows problem.now effort (relation_view relation.now) (best_view b)) }
{
    let (left, right) = sides(alloc, relation, problem.space())?;
    match quick_end(alloc, problem, &left, &right, effort.runs)? {
        Some(found) => Ok(found),
        None => {
            let found = best(alloc, problem, &left, &right, budget_of(effort.pivots))?;
            Ok(found)
        }
    }
}

/// What is found without the defined runs, if `runs` has that: what quick runs find of the factors, and where they are made alone, else
/// that these stay undecided.
fn quick_end(
    alloc: Global,
    problem: &Problem,
    left: &Row,
    right: &Row,
    runs: Runs,
) -> Result<Option<Best>, AllocError>
    requires { AreSides problem.now left.now right.now }
    ensures { IfOk result (λ o. IfSome o (λ b. IsQuickEnd problem.now left.now right.now runs (best_view b))) }
{
    match runs {
        Runs::Defined => Ok(None),
        Runs::QuickFirst => quick_factor(alloc, problem, left, right),
        Runs::QuickAlone => match quick_factor(alloc, problem, left, right)? {
            Some(found) => Ok(Some(found)),
            None => Ok(Some(Best::Undecided(BestCause::Pivots { steps: 0, part: 1 }))),
        },
    }
}
