//! The line of a row, judged before it is returned.
ghost use Rattle.std.specs.Prelude.{◌≡◌, ◌≤◌, IfOk, IfSome, length};
ghost use Rattle.it_question.specs.ProblemLines.{problem_names};
ghost use Rattle.it_terms.specs.Tells.{TellsRow};

use crate::drafts::{laid_out, row_terms};
use crate::finding::{Found, joint_sum, own_sum};
use crate::judging::tells;
use crate::measures::{Measure, measures};
use crate::untold::Untold;
use crate::writing::sums_text;
use it_canon::problem_names;
use it_question::types::Question;
use it_space::Row;
use it_syntax::Names;
use std::alloc::{AllocError, Global};

/// The text of `row` with `sum` for its part over sets.
pub fn written(
    alloc: Global,
    measures: &[Measure],
    names: &Names,
    row: &Row,
    sum: Result<Found, Untold>,
) -> Result<Vec<u8>, Untold> {
    let found = sum?;
    let terms = row_terms(alloc, row, &found, names.space())?;
    let draft = laid_out(alloc, terms.as_slice())?;
    Ok(sums_text(
        alloc,
        measures,
        names,
        draft.left.as_slice(),
        draft.sign,
        draft.right.as_slice(),
    )?)
}

/// `text`, where there is one and it tells `row`.
fn judged(
    alloc: Global,
    names: &Names,
    row: &Row,
    text: Result<Vec<u8>, Untold>,
) -> Result<Option<Vec<u8>>, AllocError>
    requires { 1 ≤ length names.now.variables }
    ensures { IfOk result (λ o. IfSome o (λ text. TellsRow names.now row.now text.items)) }
{
    let text = match text {
        Ok(text) => text,
        Err(Untold::Memory) => return Err(AllocError),
        Err(Untold::NotFound) => return Ok(None),
    };
    if tells(alloc, text.as_slice(), names, row)? {
        Ok(Some(text))
    } else {
        Ok(None)
    }
}

/// The text of `row` in `measures`, else in joint entropies.
fn row_text(
    alloc: Global,
    measures: &[Measure],
    names: &Names,
    row: &Row,
) -> Result<Option<Vec<u8>>, AllocError>
    requires { 1 ≤ length names.now.variables }
    ensures { IfOk result (λ o. IfSome o (λ text. TellsRow names.now row.now text.items)) }
{
    let space = names.space();
    let own = own_sum(alloc, measures, row, space);
    let text = written(alloc, measures, names, row, own);
    if let Some(text) = judged(alloc, names, row, text)? {
        return Ok(Some(text));
    }
    let joint = joint_sum(alloc, row, space);
    let text = written(alloc, measures, names, row, joint);
    judged(alloc, names, row, text)
}

/// The text of a row under the names of a question's problem: rates on the left where there are some, and on the right a sum
/// of entropies and mutual informations that the question itself has, or one of any sets; else joint entropies. None where
/// no text was found that is read back as this row.
pub fn told_row(
    alloc: Global,
    question: &Question,
    row: &Row,
) -> Result<Option<Vec<u8>>, AllocError>
    ensures { IfOk result (λ o. IfSome o (λ text. TellsRow (problem_names question.now.body) row.now text.items)) }
{
    let names = problem_names(question);
    let measures = measures(alloc, question.source(), names)?;
    row_text(alloc, measures.as_slice(), names, row)
}
