//! Lines of a containment's second region with sets substituted for its auxiliary variables, judged before they are returned.
ghost use Rattle.std.specs.Prelude.{◌≡◌, ◌≤◌, IfOk, IfSome, length, map};
ghost use Rattle.std.specs.Bool.{OnTrue};
ghost use Rattle.std.specs.List.{AllZip};
ghost use Rattle.it_space.specs.Spaces.{IsSpace};
ghost use Rattle.it_space.specs.Rows.{value};
ghost use Rattle.it_syntax.specs.Givens.{IsRelationOf};
ghost use Rattle.it_syntax.specs.Meaning.{relation_view};
ghost use Rattle.it_question.specs.ProblemLines.{problem_names};
ghost use Rattle.it_terms.specs.Signs.{AreLeastTogether};
ghost use Rattle.it_terms.specs.Tells.{SaysForms, TellsForms};

use crate::judging::is_same;
use crate::measures::measures;
use crate::reading::relation_text;
use crate::substituting::substituted;
use crate::untold::Untold;
use crate::writing::sums_text;
use it_canon::{problem_names, target_rows};
use it_problems::Origin;
use it_question::types::Question;
use it_space::{Row, Space, VarSet, normal};
use it_syntax::Names;
use it_syntax::types::Relation;
use std::alloc::{AllocError, Global};

/// Whether two rows are at least 0 at the same maps: they are equal in lowest terms.
#[tactic(auto, using(crate::proofs::SignLemmas::least_together))]
fn are_least_together(alloc: Global, row: &Row, other: &Row) -> Result<bool, AllocError>
    ensures { IfOk result (λ b. OnTrue b (AreLeastTogether row.now other.now)) }
{
    let low = normal(row.copy(alloc)?);
    let other_low = normal(other.copy(alloc)?);
    Ok(is_same(&low, &other_low))
}

/// Whether `rows` and `others` have one length and are, pair by pair, at least 0 at the same maps.
fn are_all_least_together(alloc: Global, rows: &[Row], others: &[Row]) -> Result<bool, AllocError>
    ensures { IfOk result (λ b. OnTrue b (AllZip AreLeastTogether rows.now others.now)) }
{
    if rows.len() != others.len() {
        return Ok(false);
    }
    for (i, row) in rows.iter().enumerate() {
        let together = are_least_together(alloc, row, &others[i])?;
        if !together {
            return Ok(false);
        }
    }
    Ok(true)
}

/// Whether `relation` says just that `rows` are at least 0. An equation says it of two rows, its own and the negated one.
fn says_rows(
    alloc: Global,
    relation: &Relation,
    rows: &[Row],
    space: Space,
) -> Result<bool, AllocError>
    requires space { IsSpace space }
    requires within { IsRelationOf space.variables space.rates (relation_view relation.now) }
    ensures { IfOk result (λ b. OnTrue b (SaysForms space.variables (relation_view relation.now) (map value rows.now))) }
{
    let targets = target_rows(alloc, relation, space)?;
    let together = are_all_least_together(alloc, targets.as_slice(), rows)?;
    Ok(together)
}

/// Whether a text, read as what stands after the word of a `row` or `prove` line, says that these rows are at least 0.
fn tells_rows(alloc: Global, text: &[u8], names: &Names, rows: &[Row]) -> Result<bool, AllocError>
    requires some { 1 ≤ length names.now.variables }
    ensures { IfOk result (λ b. OnTrue b (TellsForms names.now (map value rows.now) text.now)) }
{
    match relation_text(alloc, text, names)? {
        Some(relation) => says_rows(alloc, &relation, rows, names.space()),
        None => Ok(false),
    }
}

/// The text of a line of a containment's second region with `parts` substituted for its auxiliary variables.
fn line_text(
    alloc: Global,
    question: &Question,
    names: &Names,
    parts: &[VarSet],
    origin: Origin,
) -> Result<Vec<u8>, Untold>
    requires { 1 ≤ length names.now.variables }
{
    let relation = substituted(alloc, question, parts, origin)?;
    let measures = measures(alloc, question.source(), names)?;
    Ok(sums_text(
        alloc,
        measures.as_slice(),
        names,
        relation.left.terms.as_slice(),
        relation.sign,
        relation.right.terms.as_slice(),
    )?)
}

/// The text of the line `origin` of a containment's second region, whose own lines are counted, with `parts` substituted for
/// its auxiliary variables: in the author's own spelling, without terms of which nothing is left. None where the text isn't
/// read as a relation that says just that `rows` are at least 0.
pub fn told_line(
    alloc: Global,
    question: &Question,
    parts: &[VarSet],
    origin: Origin,
    rows: &[Row],
) -> Result<Option<Vec<u8>>, AllocError>
    ensures { IfOk result (λ o. IfSome o (λ text. TellsForms (problem_names question.now.body) (map value rows.now) text.items)) }
{
    let names = problem_names(question);
    let text = match line_text(alloc, question, names, parts, origin) {
        Ok(text) => text,
        Err(Untold::Memory) => return Err(AllocError),
        Err(Untold::NotFound) => return Ok(None),
    };
    if tells_rows(alloc, text.as_slice(), names, rows)? {
        Ok(Some(text))
    } else {
        Ok(None)
    }
}
