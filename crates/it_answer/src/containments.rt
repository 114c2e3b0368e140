//! The answer to a containment question.
ghost use Rattle.std.specs.Prelude.{◌≡◌, map, take, IfOk};
ghost use Rattle.it_space.specs.Answers.{answer_view};
ghost use Rattle.it_region.specs.Pairs.{IsContainment};
ghost use Rattle.it_answer.specs.RightAnswers.{IsAnswered};
ghost use Rattle.it_answer.specs.DueContainments.{tried_of};
ghost use Rattle.it_answer.specs.SearchAnswers.{answer_of_search};

use crate::types::Budgets;
use it_contain::types::Contained;
use it_contain::{Proposer, contain};
use it_question::types::{Question, Region, Verb};
use it_region::{Candidate, pair};
use it_space::{Answer, VarSet};
use std::alloc::{AllocError, Global};

/// The candidates of `try` lines, each with as many parts as the second region has auxiliaries.
fn tried_of(
    alloc: Global,
    second: &Region,
    tries: &[[VarSet; 4]],
) -> Result<Vec<Candidate>, AllocError>
    ensures { IfOk result (λ v. v.items ≡ tried_of second.now tries.now) }
{
    let mut candidates = Vec::new(alloc);
    for parts in tries {
        candidates.push(Candidate {
            count: second.auxiliaries(),
            parts: *parts,
        })?;
    }
    Ok(candidates)
}

/// The sets of a candidate, one for each auxiliary.
fn parts_of(alloc: Global, candidate: &Candidate) -> Result<Vec<VarSet>, AllocError>
    ensures { IfOk result (λ v. v.items ≡ take candidate.now.count candidate.now.parts) }
{
    let count = candidate.count as usize;
    candidate.parts.iter().take(count).copied().collect(alloc)
}

/// The answer about the end of a search.
fn answer_of_search(alloc: Global, end: Contained) -> Result<Answer, AllocError>
    ensures { IfOk result (λ a. answer_view a ≡ answer_of_search end) }
{
    match end {
        Contained::Found(candidate, proofs) => {
            let parts = parts_of(alloc, &candidate)?;
            Ok(Answer::Contained { parts, proofs })
        }
        Contained::Open { tried } => Ok(Answer::Open { tried }),
    }
}

/// The answer whether the first region lies in the second: the first candidate that is proved, of the `try` lines in order and then
/// of the boxes in theirs; or the number of candidates that were tried, if none is proved.
pub fn containment(
    alloc: Global,
    question: &Question,
    budgets: Budgets,
    boxes: &mut Vec<Box<dyn Proposer>>,
) -> Result<Answer, AllocError>
    requires contains { IsContainment question.now.body.verb }
    ensures { IfOk result (λ a. IsAnswered budgets (map plan boxes.old.items) question.now a (map plan boxes.new.items)) }
{
    question.facts();
    let Verb::Contain { second, tries, .. } = question.verb() else {
        unreachable!()
    };
    let pair = pair(alloc, question)?;
    let tried = tried_of(alloc, second, tries.as_slice())?;
    let end = contain(
        alloc,
        &pair,
        tried.as_slice(),
        boxes,
        budgets.tries,
        budgets.effort,
    )?;
    // named before it is answered, so that the contract of the call stands at the answer
    let answer = answer_of_search(alloc, end)?;
    Ok(answer)
}
