//! The values of a point, as the few facts that determine it.
ghost use Rattle.std.specs.Prelude.{◌≤◌, IfOk, IfSome, length};
ghost use Rattle.it_question.specs.ProblemLines.{problem_names};
ghost use Rattle.it_facts.specs.Points.{TellsPoint};

use crate::fact_finding::found_facts;
use crate::fact_texts::facts_text;
use crate::facts::Fact;
use crate::settling::determine;
use it_canon::problem_names;
use it_question::types::Question;
use it_space::Point;
use it_syntax::Names;
use std::alloc::{AllocError, Global};

/// The text of `facts`; None where they don't determine the point.
fn judged(
    alloc: Global,
    names: &Names,
    point: &Point,
    facts: &[Fact],
) -> Result<Option<Vec<u8>>, AllocError>
    requires { 1 ≤ length names.now.variables }
    ensures { IfOk result (λ o. IfSome o (λ text. TellsPoint names.now point.now text.items)) }
{
    if !determine(facts, point, names.space()) {
        return Ok(None);
    }
    let text = facts_text(alloc, names, facts)?;
    Ok(Some(text))
}

/// The values of a point under the names of a question's problem, as facts that are true of it and of no other polymatroid with
/// rates: entropies of sets, constants, variables that are functions of each other or of a set, sets of independent variables,
/// and a value for each rate. None where none were found that determine it.
#[tactic(auto, using(it_canon::proofs::QuestionLemmas::space_is))]
pub fn told_point(
    alloc: Global,
    question: &Question,
    point: &Point,
) -> Result<Option<Vec<u8>>, AllocError>
    ensures { IfOk result (λ o. IfSome o (λ text. TellsPoint (problem_names question.now.body) point.now text.items)) }
{
    let names = problem_names(question);
    let facts = found_facts(alloc, point, names.space())?;
    judged(alloc, names, point, facts.as_slice())
}
