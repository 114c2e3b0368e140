//! The two regions of a containment question.
ghost use Rattle.std.specs.Prelude.{IfOk};
ghost use Rattle.it_problems.specs.Problems.{IsProblem};
ghost use Rattle.it_region.specs.Pairs.{IsPair, Pairs, IsContainment};

use crate::types::Pair;
use it_canon::{problem, region_lines};
use it_question::types::{Question, Verb};
use std::alloc::{AllocError, Global};

/// The pair of a containment question.
pub fn pair(alloc: Global, question: &Question) -> Result<Pair, AllocError>
    requires contains { IsContainment question.now.body.verb }
    ensures pair { IfOk result (Pairs question.now.body) }
    ensures limits { IfOk result IsPair }
{
    question.facts();
    pair_of(alloc, question)
}

/// Like `pair`, without its clause on limits.
fn pair_of(alloc: Global, question: &Question) -> Result<Pair, AllocError>
    requires contains { IsContainment question.now.body.verb }
    ensures pair { IfOk result (Pairs question.now.body) }
    ensures problem { IfOk result (λ p. IsProblem p.first) }
{
    let Verb::Contain { second, .. } = question.verb() else {
        unreachable!()
    };
    let first = problem(alloc, question)?;
    let space = second.space();
    let first_given = 1 + question.lines().givens().len() as u16;
    let first_row = 1 + question.lines().rows().len() as u16;
    let own = region_lines(alloc, second, first_given, first_row, space)?;
    Ok(Pair {
        first,
        space,
        common: question.space().variables,
        parts: second.auxiliaries(),
        own,
    })
}
