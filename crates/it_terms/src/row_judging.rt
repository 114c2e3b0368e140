//! Whether a text says what a row says where functions hold.
ghost use Rattle.std.specs.Prelude.{◌≡◌, ◌≤◌, IfOk, IfSome, length, map};
ghost use Rattle.std.specs.Bool.{OnTrue};
ghost use Rattle.it_space.specs.Rows.{IsOver};
ghost use Rattle.it_problems.specs.declared.problems.Kind.TheVariants.{Equation};
ghost use Rattle.it_space.specs.Spaces.{IsSpace, size_of};
ghost use Rattle.it_elemental.specs.Generators.{forms_of, of_constraint};
ghost use Rattle.it_closure.specs.Collapse.{IsCollapseOf};
ghost use Rattle.it_syntax.specs.Givens.{IsRelationOf};
ghost use Rattle.it_syntax.specs.Meaning.{relation_view};
ghost use Rattle.it_terms.specs.Signs.{AreGivenEquations, AreLeastSpreadOut, HasSignUnder, IsGiven, SaysSpreadOut, TellsRowBy};

use crate::judging::is_same;
use crate::reading::relation_text;
use crate::under::functions_of;
use it_canon::canon;
use it_closure::Dependences;
use it_problems::{Constraint, Kind, Origin, Problem};
use it_space::{Row, RowFault, Space, normal};
use it_syntax::Names;
use it_syntax::types::{Relation, Sign};
use std::alloc::{AllocError, Global};

/// Whether the coordinates of a row are those of a space.
pub fn is_over(row: &Row, space: Space) -> bool
    requires { IsSpace space }
    ensures { OnTrue result (IsOver (size_of space) row.now) }
{
    let size = space.size();
    row.terms()
        .iter()
        .all(|(coordinate, _)| 1 <= *coordinate && *coordinate <= size)
}

/// A row over closed sets, None where it isn't one of the functions' space or a number on the way is too large.
pub fn closed_row(
    alloc: Global,
    functions: &Dependences,
    row: &Row,
) -> Result<Option<Row>, AllocError>
    ensures { IfOk result (λ o. IfSome o (IsCollapseOf functions.now.space.variables functions.now.list row.now)) }
{
    if !is_over(row, functions.space()) {
        return Ok(None);
    }
    match functions.collapse(alloc, row) {
        Ok(row) => Ok(Some(row)),
        Err(RowFault::Wide) => Ok(None),
        Err(RowFault::Memory) => Err(AllocError),
    }
}

/// A row over closed sets in lowest terms.
#[tactic(auto, using(crate::proofs::RowLemmas::low_sign))]
fn low_row(alloc: Global, functions: &Dependences, row: &Row) -> Result<Option<Row>, AllocError>
    ensures { IfOk result (λ o. IfSome o (HasSignUnder functions.now.space.variables functions.now.list row.now)) }
{
    match closed_row(alloc, functions, row)? {
        Some(row) => Ok(Some(normal(row))),
        None => Ok(None),
    }
}

/// Whether two rows are equal over closed sets in lowest terms.
#[tactic(auto, using(crate::proofs::RowLemmas::same_closed))]
fn is_same_closed(
    alloc: Global,
    functions: &Dependences,
    row: &Row,
    other: &Row,
) -> Result<bool, AllocError>
    ensures { IfOk result (λ b. OnTrue b (AreLeastSpreadOut functions.now.space.variables functions.now.list row.now other.now)) }
{
    let Some(low) = low_row(alloc, functions, row)? else {
        return Ok(false);
    };
    let Some(other_low) = low_row(alloc, functions, other)? else {
        return Ok(false);
    };
    Ok(is_same(&low, &other_low))
}

/// Whether `relation` is an inequality that holds exactly where `row` is at least 0, of the maps that have one value at sets of
/// one closure.
fn says_under(
    alloc: Global,
    relation: &Relation,
    functions: &Dependences,
    row: &Row,
) -> Result<bool, AllocError>
    requires { IsRelationOf functions.now.space.variables functions.now.space.rates (relation_view relation.now) }
    ensures { IfOk result (λ b. OnTrue b (SaysSpreadOut functions.now.space.variables functions.now.list (relation_view relation.now) row.now)) }
{
    if relation.sign == Sign::Equal {
        return Ok(false);
    }
    let own = canon(alloc, relation, functions.space())?;
    let is_same = is_same_closed(alloc, functions, &own, row)?;
    Ok(is_same)
}

/// Whether a text, read as what stands after the word of a `row` line, says what a row says at each polymatroid at which the
/// constraints of these numbers are true; by the functions that these say.
#[tactic(auto, using(crate::proofs::UnderLemmas::relation_of_space))]
pub fn tells_under(
    alloc: Global,
    text: &[u8],
    names: &Names,
    problem: &Problem,
    lines: &[u32],
    row: &Row,
) -> Result<bool, AllocError>
    requires some { 1 ≤ length names.now.variables }
    requires space { problem.now.space ≡ record { variables = length names.now.variables; rates = length names.now.rates } }
    ensures { IfOk result (λ b. OnTrue b (TellsRowBy names.now (forms_of (map of_constraint problem.now.constraints)) lines.now row.now text.now)) }
{
    let Some(relation) = relation_text(alloc, text, names)? else {
        return Ok(false);
    };
    let Some(functions) = functions_of(alloc, problem, lines)? else {
        return Ok(false);
    };
    let says = says_under(alloc, &relation, &functions, row)?;
    Ok(says)
}

/// Whether an origin is that of a `given` line.
fn is_given(origin: Origin) -> bool
    ensures { OnTrue result (IsGiven origin) }
{
    match origin {
        Origin::Given { .. } => true,
        Origin::Rate { .. } => false,
    }
}

/// Whether a constraint is an equation of a `given` line.
pub fn is_given_equation(constraint: &Constraint) -> bool
    ensures { OnTrue result (IsGiven constraint.now.origin × (constraint.now.kind ≡ Equation)) }
{
    constraint.kind == Kind::Equation && is_given(constraint.origin)
}

/// Whether the constraints of these numbers are equations of `given` lines.
pub fn are_given_equations(constraints: &[Constraint], lines: &[u32]) -> bool
    ensures { OnTrue result (AreGivenEquations constraints.now lines.now) }
{
    for line in lines {
        let index = *line as usize;
        if index >= constraints.len() || !is_given_equation(&constraints[index]) {
            return false;
        }
    }
    true
}
