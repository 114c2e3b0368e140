//! Whether texts tell a proof where functions hold.
ghost use Rattle.std.specs.Prelude.{◌≡◌, ◌<◌, ◌≤◌, ◌^◌, All, IfOk, IfSome, length, map};
ghost use Rattle.std.specs.Bool.{OnTrue};
ghost use Rattle.it_space.specs.Rows.{IsOver, value};
ghost use Rattle.it_space.specs.Spaces.{size_of};
ghost use Rattle.it_elemental.specs.Generators.{forms_of, of_constraint};
ghost use Rattle.it_print.specs.Lines.{origins_of};
ghost use Rattle.it_syntax.specs.Givens.{IsRelationOf};
ghost use Rattle.it_syntax.specs.declared.types.Sign.TheVariants.{Equal};
ghost use Rattle.it_syntax.specs.Meaning.{common_denominator, relation_view};
ghost use Rattle.it_terms.specs.FunctionProofs.{TellsProofUnder, named_sides_text, sides_text};
ghost use Rattle.it_terms.specs.Sums.{AreSaid, IsProofBy};
ghost use Rattle.it_terms.specs.Tells.{IsRelationText};

use crate::names::with_names;
use crate::proof_judging::{Split, is_proof};
use crate::reading::relation_text;
use crate::sums::are_allowed;
use crate::under::{excess, functions_of, is_nothing_under};
use crate::untold::Untold;
use it_closure::Dependences;
use it_problems::{Constraint, Problem};
use it_space::Row;
use it_syntax::types::{Relation, Sign};
use it_syntax::{Names, common_denominator};
use std::alloc::{AllocError, Global};

/// A proposed proof where functions hold: the texts of its sides, how these are split, and the weights of the constraints that
/// stand behind the right side by the names of their lines.
#[derive(Drop)]
pub struct Sides {
    pub left: Vec<u8>,
    pub right: Vec<u8>,
    pub split: Split,
    pub named: Vec<(u32, i128)>,
}

/// The functions that constraints of a problem say, with the numbers of these constraints.
#[derive(Drop)]
struct SaidFunctions<'a> {
    problem: &'a Problem,
    lines: &'a [u32],
    functions: &'a Dependences,
}

/// Two sides with `=` between them, the right one as `0` if it is empty.
pub fn sides_text(alloc: Global, left: &[u8], right: &[u8]) -> Result<Vec<u8>, AllocError>
    ensures { IfOk result (λ t. t.items ≡ sides_text left.now right.now) }
{
    let mut out = Vec::from_slice(alloc, left)?;
    out.extend_from_slice(b" = ")?;
    if right.is_empty() {
        out.extend_from_slice(b"0")?;
    } else {
        out.extend_from_slice(right)?;
    }
    Ok(out)
}

/// The relation of these sides, None where they aren't read as one.
pub fn sides_relation(
    alloc: Global,
    names: &Names,
    left: &[u8],
    right: &[u8],
) -> Result<Option<Relation>, AllocError>
    requires some { 1 ≤ length names.now.variables }
    ensures is { IfOk result (λ o. IfSome o (λ r. IsRelationText names.now (sides_text left.now right.now) (relation_view r))) }
    ensures limits { IfOk result (λ o. IfSome o (λ r. IsRelationOf (length names.now.variables) (length names.now.rates) (relation_view r))) }
{
    let text = sides_text(alloc, left, right)?;
    relation_text(alloc, text.as_slice(), names)
}

/// Whether a relation is an equation without denominators.
pub fn is_whole_equation(relation: &Relation) -> bool
    requires some { 1 ≤ common_denominator (relation_view relation.now) }
    requires small { common_denominator (relation_view relation.now) ≤ 2 ^ 32 }
    ensures { OnTrue result ((relation.now.sign ≡ Equal) × (common_denominator (relation_view relation.now) ≡ 1)) }
{
    relation.sign == Sign::Equal && common_denominator(relation) == 1
}

/// Whether `relation`, with the weights of constraints that `sides` names, is a proof of `target` where the functions hold.
fn is_proof_under(
    alloc: Global,
    relation: &Relation,
    said: &SaidFunctions<'_>,
    target: &Row,
    sides: &Sides,
) -> Result<bool, AllocError>
    requires within { IsRelationOf said.now.problem.now.space.variables said.now.problem.now.space.rates (relation_view relation.now) }
    requires space { said.now.functions.now.space ≡ said.now.problem.now.space }
    requires there { All (λ l. l < (forms_of (map of_constraint said.now.problem.now.constraints)).count) said.now.lines.now }
    requires said { AreSaid said.now.problem.now said.now.lines.now said.now.functions.now.list }
    ensures { IfOk result (λ b. OnTrue b (IsProofBy said.now.problem.now said.now.lines.now (relation_view relation.now) sides.now.named.items target.now)) }
{
    let space = said.problem.space();
    let constraints = said.problem.constraints();
    let named = sides.named.as_slice();
    if !is_whole_equation(relation) || !are_allowed(constraints, named) {
        return Ok(false);
    }
    let is_split = is_proof(alloc, relation, space, target, constraints, &sides.split)?;
    if !is_split {
        return Ok(false);
    }
    let Some(row) = excess(alloc, relation, true, space, constraints, named)? else {
        return Ok(false);
    };
    let is_nothing = is_nothing_under(alloc, said.functions, &row)?;
    Ok(is_nothing)
}

/// The text of sides, with the names of constraints behind the right one.
pub fn named_text(
    alloc: Global,
    constraints: &[Constraint],
    left: &[u8],
    right: &[u8],
    named: &[(u32, i128)],
) -> Result<Vec<u8>, AllocError>
    ensures { IfOk result (λ t. t.items ≡ named_sides_text (origins_of constraints.now) named.now left.now right.now) }
{
    let right = with_names(alloc, right, constraints, named)?;
    sides_text(alloc, left, right.as_slice())
}

/// The text of `sides`, where it tells a proof of `target` where the functions hold that the constraints `lines` say; else
/// None.
#[tactic(auto, using(crate::proofs::UnderLemmas::told_by_sides, crate::proofs::UnderLemmas::relation_of_space))]
pub fn judged_under(
    alloc: Global,
    names: &Names,
    problem: &Problem,
    lines: &[u32],
    target: &Row,
    sides: &Sides,
) -> Result<Option<Vec<u8>>, AllocError>
    requires some { 1 ≤ length names.now.variables }
    requires space { problem.now.space ≡ record { variables = length names.now.variables; rates = length names.now.rates } }
    ensures { IfOk result (λ o. IfSome o (λ t. TellsProofUnder names.now (origins_of problem.now.constraints) lines.now sides.now.named.items (value target.now) (forms_of (map of_constraint problem.now.constraints)) t.items)) }
{
    let left = sides.left.as_slice();
    let right = sides.right.as_slice();
    let Some(relation) = sides_relation(alloc, names, left, right)? else {
        return Ok(None);
    };
    let Some(functions) = functions_of(alloc, problem, lines)? else {
        return Ok(None);
    };
    let said = SaidFunctions {
        problem,
        lines,
        functions: &functions,
    };
    if !is_proof_under(alloc, &relation, &said, target, sides)? {
        return Ok(None);
    }
    let named = sides.named.as_slice();
    let text = named_text(alloc, problem.constraints(), left, right, named)?;
    Ok(Some(text))
}

/// The row that has to be 0 where functions hold, for the sides to be a proof.
pub fn sides_excess(
    alloc: Global,
    names: &Names,
    constraints: &[Constraint],
    sides: &Sides,
) -> Result<Row, Untold>
    requires some { 1 ≤ length names.now.variables }
    ensures { IfOk result (IsOver (size_of (record { variables = length names.now.variables; rates = length names.now.rates }))) }
{
    let left = sides.left.as_slice();
    let right = sides.right.as_slice();
    let Some(relation) = sides_relation(alloc, names, left, right)? else {
        return Err(Untold::NotFound);
    };
    match excess(
        alloc,
        &relation,
        true,
        names.space(),
        constraints,
        sides.named.as_slice(),
    )? {
        Some(row) => Ok(row),
        None => Err(Untold::NotFound),
    }
}
