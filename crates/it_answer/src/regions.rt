//! The answer to a question that eliminates rates.
ghost use Rattle.std.specs.Prelude.{◌≡◌, List, map, IfOk};
ghost use Rattle.it_space.specs.Answers.{answer_view};
ghost use Rattle.it_question.specs.Questions.{Eliminate};
ghost use Rattle.it_canon.specs.QuestionDemands.{IsProblemOf};
ghost use Rattle.it_redundant.specs.ReducedElimination.{projected_view};
ghost use Rattle.it_redundant.specs.Reduction.{need_view};
ghost use Rattle.it_contain.specs.Proposals.{Plan};
ghost use Rattle.it_answer.specs.DueEliminations.{answer_of_end, mark_of_need, marked_rows};
ghost use Rattle.it_answer.specs.RightAnswers.{IsAnswered};

use crate::types::Budgets;
use it_canon::system;
use it_problems::Problem;
use it_question::types::Question;
use it_redundant::{Need, Projected, project};
use it_space::{Answer, Cause, Mark, Row};
use std::alloc::{AllocError, Global};

/// The region that the question's `row` lines leave without the rates `rates`. These are eliminated in their order, and after each
/// one the rows that follow from the givens and the other rows are dropped. Or why there is no region: a rate leaves more rows than
/// the budget allows, or a number of a row passes the limit. Boxes learn nothing from it.
pub fn region(
    alloc: Global,
    question: &Question,
    rates: &[u8],
    givens: &Problem,
    budgets: Budgets,
) -> Result<Answer, AllocError>
    requires eliminates { question.now.body.verb ≡ Eliminate rates.now }
    requires givens { IsProblemOf question.now.body givens.now }
    ensures { IfOk result (λ a. (plans : List Plan) → IsAnswered budgets plans question.now a plans) }
{
    question.facts();
    let system = system(alloc, question)?;
    let rows = budgets.rows as usize;
    let end = project(alloc, &system, rates, givens, rows, budgets.effort)?;
    // named before it is answered, so that the contract of the call stands at the answer
    let answer = answer_of_end(alloc, end)?;
    Ok(answer)
}

/// The answer about the end of reduced elimination.
fn answer_of_end(alloc: Global, end: Projected) -> Result<Answer, AllocError>
    ensures { IfOk result (λ a. answer_view a ≡ answer_of_end (projected_view end)) }
{
    match end {
        Projected::Region(reduced) => {
            let rows = marked_rows(alloc, reduced.kept)?;
            Ok(Answer::Region(rows))
        }
        Projected::Rows { rate } => Ok(Answer::Undecided(Cause::Rows(rate))),
        Projected::Wide { rate } => Ok(Answer::Undecided(Cause::WideRate(rate))),
    }
}

/// The rows in order, each with its mark before it.
pub fn marked_rows(alloc: Global, kept: Vec<(Row, Need)>) -> Result<Vec<(Mark, Row)>, AllocError>
    ensures { IfOk result (λ v. v.items ≡ marked_rows (map (λ k. (k.0, need_view k.1)) kept.items)) }
{
    let mut marked = Vec::new(alloc);
    for (row, need) in kept {
        marked.push((mark_of_need(&need), row))?;
    }
    Ok(marked)
}

/// The mark of a row with the need `need`.
fn mark_of_need(need: &Need) -> Mark
    ensures { result ≡ mark_of_need (need_view need.now) }
{
    match need {
        Need::Needed(_) => Mark::Needed,
        Need::Unsettled(_) => Mark::Unsettled,
    }
}
