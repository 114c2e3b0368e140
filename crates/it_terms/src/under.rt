//! Whether an equation is true where functions hold.
ghost use Rattle.std.specs.Prelude.{◌≡◌, ◌+ℤ◌, ◌<◌, All, IfOk, IfSome, OnOk, length, map, pos};
ghost use Rattle.std.specs.Bool.{OnTrue};
ghost use Rattle.it_space.specs.Rows.{IsOver, value};
ghost use Rattle.it_space.specs.Spaces.{IsSpace, size_of};
ghost use Rattle.it_polymatroid.specs.Certificates.{combination};
ghost use Rattle.it_elemental.specs.Generators.{forms_of, of_constraint};
ghost use Rattle.it_syntax.specs.Givens.{IsRelationOf};
ghost use Rattle.it_syntax.specs.Meaning.{relation_view};
ghost use Rattle.it_terms.specs.FunctionProofs.{AreSameUnder, IsSaid};
ghost use Rattle.it_terms.specs.Sums.{AreChosen, IsExcess, IsPlus, constraint_value};

use crate::sums::{add_constraints, add_terms};
use crate::untold::Untold;
use it_closure::Dependences;
use it_demand::difference;
use it_problems::{Constraint, Problem};
use it_space::{Row, RowFault, Space, Sums};
use it_syntax::types::Relation;
use std::alloc::{AllocError, Global};

/// The row of the left side of `relation` less its right side, negated if `negated`, plus the constraints with `weights`; None
/// where one of its numbers is too large.
pub fn excess(
    alloc: Global,
    relation: &Relation,
    negated: bool,
    space: Space,
    constraints: &[Constraint],
    weights: &[(u32, i128)],
) -> Result<Option<Row>, AllocError>
    requires space { IsSpace space }
    requires within { IsRelationOf space.variables space.rates (relation_view relation.now) }
    ensures { IfOk result (λ o. IfSome o (IsExcess space (relation_view relation.now) negated constraints.now weights.now)) }
{
    let difference = difference(alloc, relation, negated, space)?;
    let places = space.size() as usize + 1;
    let mut sums = Sums::zeros(alloc, places)?;
    match add_both(&mut sums, places, difference.terms(), constraints, weights) {
        Ok(()) => Ok(Some(Row::new(sums.terms(alloc, 1)?))),
        Err(_) => Ok(None),
    }
}

/// Adds the row of `terms`, and the sum of the constraints with `weights`.
fn add_both(
    sums: &mut Sums,
    places: usize,
    terms: &[(u32, i128)],
    constraints: &[Constraint],
    weights: &[(u32, i128)],
) -> Result<(), Untold>
    requires { length sums.old ≡ places }
    ensures { OnOk result (IsPlus sums.old sums.new (λ p. value terms.now p +ℤ combination weights.now (constraint_value constraints.now p))) }
{
    add_terms(sums, places, terms, &(0, 1))?;
    add_constraints(sums, places, constraints, weights)?;
    Ok(())
}

/// Whether `row` is 0 over closed sets; `false` where a number on the way is too large.
pub fn is_nothing_under(
    alloc: Global,
    functions: &Dependences,
    row: &Row,
) -> Result<bool, AllocError>
    requires { IsOver (size_of functions.now.space) row.now }
    ensures { IfOk result (λ b. OnTrue b (AreSameUnder functions.now.space.variables functions.now.list (value row.now) (λ p. pos 0))) }
{
    match functions.collapse(alloc, row) {
        Ok(row) => Ok(row.is_zero()),
        Err(RowFault::Wide) => Ok(false),
        Err(RowFault::Memory) => Err(AllocError),
    }
}

/// The constraints with the indexes `lines`, None where there is none with such an index.
fn chosen(
    alloc: Global,
    constraints: &[Constraint],
    lines: &[u32],
) -> Result<Option<Vec<Constraint>>, AllocError>
    ensures { IfOk result (λ o. IfSome o (λ cs. AreChosen constraints.now lines.now cs.items)) }
{
    let mut chosen = Vec::new(alloc);
    for line in lines {
        let index = *line as usize;
        if index >= constraints.len() {
            return Ok(None);
        }
        chosen.push(constraints[index].copy(alloc)?)?;
    }
    Ok(Some(chosen))
}

/// The functions that the constraints with the indexes `lines` say; None where there is none with such an index, or these are more
/// than the constraints.
pub fn functions_of(
    alloc: Global,
    problem: &Problem,
    lines: &[u32],
) -> Result<Option<Dependences>, AllocError>
    ensures space { IfOk result (λ o. IfSome o (λ d. d.space ≡ problem.now.space)) }
    ensures there { IfOk result (λ o. IfSome o (λ d. All (λ l. l < (forms_of (map of_constraint problem.now.constraints)).count) lines.now)) }
    ensures said { IfOk result (λ o. IfSome o (λ d. All (IsSaid problem.now.space.variables (forms_of (map of_constraint problem.now.constraints)) lines.now) d.list)) }
{
    problem.facts();
    let space = problem.space();
    let all = problem.constraints();
    if lines.len() > all.len() {
        return Ok(None);
    }
    match chosen(alloc, all, lines)? {
        Some(constraints) => {
            let few = Problem { space, constraints };
            Ok(Some(Dependences::read(alloc, &few)?))
        }
        None => Ok(None),
    }
}
