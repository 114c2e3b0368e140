//! The replies to questions.
ghost use Rattle.std.specs.Prelude.{◌≡◌, ◌<◌, ◌≤◌, All, IfOk, length};
ghost use Rattle.std.specs.Bool.{OnFalse, OnTrue};
ghost use Rattle.it_space.specs.Rows.{IsOver, most_system_rows};
ghost use Rattle.it_space.specs.Spaces.{IsSpace, size_of};
ghost use Rattle.it_demand.specs.Origins.{AreStated};
ghost use Rattle.it_demand.specs.QuestionSpaces.{space_of};
ghost use Rattle.it_canon.specs.QuestionDemands.{IsProblemOf, question_demands, question_origins};
ghost use Rattle.it_bounds.specs.Lines.{IsPrintable};
ghost use Rattle.it_bounds.specs.Replies.{reply_view};
ghost use Rattle.it_bounds.specs.Reports.{IsToldReply};
ghost use Rattle.it_bounds.specs.RightReplies.{IsDueReply, IsRightReply};
ghost use Rattle.it_bounds.specs.RowReplies.{IsReplyByRows, IsTableWithin, TellsBounds};
ghost use Rattle.it_rates.specs.Asked.{under_all_lines};

use crate::marks::with_marks;
use crate::types::{RepliedProblem, Reply};
use it_closure::{MOST_ENTRIES, size};
use it_outer::{Bounds, Limits, Outer, outer};
use it_problems::Problem;
use it_prove::Effort;
use it_question::FileLimits;
use it_question::types::{Question, Verb};
use it_rates::problem_of_lines;
use it_space::Space;
use std::alloc::{AllocError, Global};

/// The right reply to a question, and the problem that all its lines pose, `row` lines too: to one that asks to eliminate rates its outer
/// bound, and `Other` to each other verb. The listed rates are eliminated, and all entropies with them; the other rates stay. It is `Size`
/// where the table of that problem is too large for a file with the limits `file`. The other limits are those of the search: the most
/// rows after one more ray, at most 65,535; the most rays; and the effort for each run, which is a quick one alone where the defined run
/// about that problem is out of reach.
pub fn reply(
    alloc: Global,
    question: &Question,
    file: FileLimits,
    limits: Limits,
) -> Result<RepliedProblem, AllocError>
    requires few_rows { limits.rows ≤ most_system_rows }
    ensures space { IfOk result (λ a. a.problem.space ≡ space_of question.now.body.names) }
    ensures problem { IfOk result (λ a. AreStated a.problem.space (question_origins (under_all_lines question.now.body)) (question_demands (under_all_lines question.now.body)) a.problem.constraints) }
    ensures right { IfOk result (λ a. IsRightReply file limits question.now.body (reply_view a.reply)) }
    ensures printable { IfOk result (λ a. IsPrintable question.now.body (length a.problem.constraints) a.reply) }
    ensures told { IfOk result (λ a. IsToldReply question.now.body a.reply) }
{
    let problem = problem_of_lines(alloc, question)?;
    let own = limits.under(alloc, &problem)?;
    let reply = reply_under(alloc, question, &problem, file, own)?;
    Ok(RepliedProblem { problem, reply })
}

/// The reply to a question, with the problem that all its lines pose.
fn reply_under(
    alloc: Global,
    question: &Question,
    problem: &Problem,
    file: FileLimits,
    limits: Limits,
) -> Result<Reply, AllocError>
    requires problem { IsProblemOf (under_all_lines question.now.body) problem.now }
    requires few_rows { limits.rows ≤ most_system_rows }
    ensures right { IfOk result (λ r. IsDueReply file limits question.now.body (reply_view r)) }
    ensures printable { IfOk result (IsPrintable question.now.body (length problem.now.constraints)) }
    ensures told { IfOk result (IsToldReply question.now.body) }
{
    question.facts();
    match question.verb() {
        Verb::Eliminate(rates) => {
            let bound = bound(alloc, problem, rates.as_slice(), file, limits)?;
            Ok(bound)
        }
        Verb::Prove(_) => Ok(Reply::Other),
        Verb::Contain { .. } => Ok(Reply::Other),
    }
}

/// Whether the problem's table isn't too large for a file with these limits. Where tables may have any size it isn't counted.
fn is_within(alloc: Global, problem: &Problem, file: FileLimits) -> Result<bool, AllocError>
    ensures yes { IfOk result (λ b. OnTrue b (IsTableWithin file problem.now)) }
    ensures no { IfOk result (λ b. OnFalse b (¬ IsTableWithin file problem.now)) }
{
    if file.large_tables {
        return Ok(true);
    }
    let entries = size(alloc, problem)?;
    Ok(entries <= MOST_ENTRIES)
}

/// The outer bound of `problem` without the rates `gone`.
fn bound(
    alloc: Global,
    problem: &Problem,
    gone: &[u8],
    file: FileLimits,
    limits: Limits,
) -> Result<Reply, AllocError>
    requires gone { All (λ r. r < problem.now.space.rates) gone.now }
    requires some { 1 ≤ length gone.now }
    requires few_rows { limits.rows ≤ most_system_rows }
    ensures { IfOk result (λ r. IsReplyByRows file limits problem.now gone.now (reply_view r)) }
{
    problem.facts();
    if !is_within(alloc, problem, file)? {
        return Ok(Reply::Size);
    }
    let end = outer(alloc, problem, gone, limits)?;
    match end {
        Outer::Bounds(bounds) => marked(alloc, problem.space(), bounds, limits.effort),
        Outer::Undecided(cause) => Ok(Reply::Undecided(cause)),
    }
}

/// The reply with these bounds, each row with its mark.
fn marked(alloc: Global, space: Space, bounds: Bounds, effort: Effort) -> Result<Reply, AllocError>
    requires space { IsSpace space }
    requires rows { All (IsOver (size_of space)) bounds.hull.rows.items }
    requires few { length bounds.hull.rows.items ≤ most_system_rows }
    ensures { IfOk result (λ r. TellsBounds space effort bounds (reply_view r)) }
{
    let rows = with_marks(alloc, space, bounds.hull.rows.as_slice(), effort)?;
    Ok(Reply::Bounded {
        rows,
        proofs: bounds.proofs,
        rays: bounds.rays,
    })
}
