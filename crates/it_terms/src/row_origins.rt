//! Where rows come from, by the numbers of the question's constraints.
ghost use Rattle.std.specs.Prelude.{◌≡◌, ◌≤◌, IfOk, length, map};
ghost use Rattle.it_polymatroid.specs.Elementals.{elementals};
ghost use Rattle.it_canon.specs.QuestionDemands.{question_origins};
ghost use Rattle.it_rates.specs.Asked.{under_all_lines};
ghost use Rattle.it_terms.specs.RowOrigins.{ComesFrom, row_comment};
ghost use Rattle.it_terms.specs.Sums.{by_constraint};
ghost use Rattle.it_space.specs.Spaces.{most_variables};

use crate::names::origin_comment;
use crate::row_judging::is_over;
use it_elemental::count;
use it_origins::origin;
use it_question::types::Question;
use it_rates::problem_of_lines;
use it_space::Row;
use std::alloc::{AllocError, Global};

/// `weights` with the indexes of constraints in place of those of generators: the elemental inequalities of `variables`
/// variables, which come before the constraints, aren't counted.
fn by_constraints(
    alloc: Global,
    weights: &[(u32, i128)],
    variables: u8,
) -> Result<Vec<(u32, i128)>, AllocError>
    requires some { 1 ≤ variables }
    requires few { variables ≤ most_variables }
    ensures { IfOk result (λ ws. ws.items ≡ map (by_constraint (length (elementals variables))) weights.now) }
{
    let elementals = count(variables);
    weights
        .iter()
        .map(|(index, weight)| (index.saturating_sub(elementals), *weight))
        .collect(alloc)
}

/// The lines of a question, `row` lines among them, whose sum `row` is, up to a positive factor: weights by the indexes of what
/// the lines demand, in order; none is 0, and only those of equations are below 0. No weights where none were found. If `row`
/// is a multiple of one line, it is that line alone; else few lines if few are enough.
#[tactic(auto, using(crate::proofs::OriginLemmas::not_told))]
pub fn row_origin(
    alloc: Global,
    question: &Question,
    row: &Row,
) -> Result<Vec<(u32, i128)>, AllocError>
    ensures { IfOk result (λ ws. ComesFrom question.now.body row.now ws.items) }
{
    let posed = problem_of_lines(alloc, question)?;
    let space = posed.space();
    if !is_over(row, space) {
        return Ok(Vec::new(alloc));
    }
    let Some(certificate) = origin(alloc, &posed, row)? else {
        return Ok(Vec::new(alloc));
    };
    let weights = by_constraints(alloc, certificate.weights.as_slice(), space.variables)?;
    Ok(weights)
}

/// The comment behind a row: the lines that it comes from, with these weights, and the lines that say the functions by which it is told.
pub fn row_comment(
    alloc: Global,
    question: &Question,
    weights: &[(u32, i128)],
    lines: &[u32],
) -> Result<Vec<u8>, AllocError>
    ensures { IfOk result (λ t. t.items ≡ row_comment (question_origins (under_all_lines question.now.body)) weights.now lines.now) }
{
    let posed = problem_of_lines(alloc, question)?;
    let comment = origin_comment(alloc, posed.constraints(), weights, lines)?;
    Ok(comment)
}
