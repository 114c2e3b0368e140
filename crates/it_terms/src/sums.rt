//! Whether a row is a multiple of another one, or a sum of multiples of constraints.
ghost use Rattle.std.specs.Prelude.{◌≡◌, ◌≤◌, ◌^◌, ◌*ℤ◌, ℤ, length, map, All, IfOk, OnOk};
ghost use Rattle.std.specs.Bool.{OnTrue};
ghost use Rattle.it_space.specs.Rows.{value};
ghost use Rattle.it_space.specs.Spaces.{IsSpace};
ghost use Rattle.it_polymatroid.specs.Certificates.{IsAllowed, combination};
ghost use Rattle.it_elemental.specs.Generators.{forms_of, of_constraint};
ghost use Rattle.it_demand.specs.Coefficients.{dense_form};
ghost use Rattle.it_terms.specs.Proofs.{AreSame};
ghost use Rattle.it_terms.specs.Sums.{IsPlus, constraint_value};

use crate::untold::Untold;
use it_fraction::signed_product;
use it_problems::{Constraint, Kind};
use it_space::{Row, Space, Sums};
use std::alloc::{AllocError, Global};

/// Adds `weight.1` times `term` to `sums`, which has `places` places; `NotFound` if its coordinate isn't one of them, or on
/// overflow.
fn add_term(
    sums: &mut Sums,
    places: usize,
    term: &(u32, i128),
    weight: &(u32, i128),
) -> Result<(), Untold>
    requires { length sums.old ≡ places }
    ensures { OnOk result (IsPlus sums.old sums.new (λ p. weight.now.1 *ℤ (term.now.1 *ℤ p term.now.0))) }
{
    let place = term.0 as usize;
    if place >= places {
        return Err(Untold::NotFound);
    }
    let amount = signed_product(weight.1, term.1)?;
    sums.add(place, amount)?;
    Ok(())
}

/// Adds `weight.1` times the row of `terms` to `sums`, which has `places` places; errors as in `add_term`.
pub fn add_terms(
    sums: &mut Sums,
    places: usize,
    terms: &[(u32, i128)],
    weight: &(u32, i128),
) -> Result<(), Untold>
    requires { length sums.old ≡ places }
    ensures { OnOk result (IsPlus sums.old sums.new (λ p. weight.now.1 *ℤ value terms.now p)) }
{
    for term in terms {
        add_term(sums, places, term, weight)?;
    }
    Ok(())
}

/// Adds `weight.1` times the constraint with index `weight.0` to `sums`; `NotFound` if there is none, or on overflow.
fn add_constraint(
    sums: &mut Sums,
    places: usize,
    constraints: &[Constraint],
    weight: &(u32, i128),
) -> Result<(), Untold>
    requires { length sums.old ≡ places }
    ensures { OnOk result (IsPlus sums.old sums.new (λ p. weight.now.1 *ℤ constraint_value constraints.now p weight.now.0)) }
{
    let index = weight.0 as usize;
    if index >= constraints.len() {
        return Err(Untold::NotFound);
    }
    add_terms(sums, places, constraints[index].row.terms(), weight)?;
    Ok(())
}

/// Adds the sum of `constraints` with `weights` to `sums`; errors as in `add_constraint`.
pub fn add_constraints(
    sums: &mut Sums,
    places: usize,
    constraints: &[Constraint],
    weights: &[(u32, i128)],
) -> Result<(), Untold>
    requires { length sums.old ≡ places }
    ensures { OnOk result (IsPlus sums.old sums.new (λ p. combination weights.now (constraint_value constraints.now p))) }
{
    for weight in weights {
        add_constraint(sums, places, constraints, weight)?;
    }
    Ok(())
}

/// Whether `row` has the coefficients `sums`.
fn is_row_of(alloc: Global, row: &Row, sums: &Sums) -> Result<bool, AllocError>
    requires { length sums.now ≤ 2 ^ 31 }
    ensures { IfOk result (λ b. OnTrue b (AreSame (value row.now) (dense_form sums.now))) }
{
    let terms = sums.terms(alloc, 1)?;
    Ok(row.terms() == terms.as_slice())
}

/// Whether `row` is `weight.1` times `target`; `false` on overflow.
pub fn is_multiple(
    alloc: Global,
    space: Space,
    row: &Row,
    target: &Row,
    weight: &(u32, i128),
) -> Result<bool, AllocError>
    requires { IsSpace space }
    ensures { IfOk result (λ b. OnTrue b (AreSame (value row.now) (λ p. weight.now.1 *ℤ value target.now p))) }
{
    let places = space.size() as usize + 1;
    let mut sums = Sums::zeros(alloc, places)?;
    match add_terms(&mut sums, places, target.terms(), weight) {
        Ok(()) => is_row_of(alloc, row, &sums),
        Err(_) => Ok(false),
    }
}

/// Whether `row` is the sum of `constraints` with `weights`; `false` on overflow.
pub fn is_sum(
    alloc: Global,
    space: Space,
    row: &Row,
    constraints: &[Constraint],
    weights: &[(u32, i128)],
) -> Result<bool, AllocError>
    requires { IsSpace space }
    ensures { IfOk result (λ b. OnTrue b (AreSame (value row.now) (λ p. combination weights.now (constraint_value constraints.now p)))) }
{
    let places = space.size() as usize + 1;
    let mut sums = Sums::zeros(alloc, places)?;
    match add_constraints(&mut sums, places, constraints, weights) {
        Ok(()) => is_row_of(alloc, row, &sums),
        Err(_) => Ok(false),
    }
}

/// Whether a weight may stand in a proof: its constraint exists, and it is at least 0 unless that is an equation.
fn is_allowed(constraints: &[Constraint], weight: &(u32, i128)) -> bool
    ensures { OnTrue result (IsAllowed (forms_of (map of_constraint constraints.now)) weight.now) }
{
    let index = weight.0 as usize;
    if index >= constraints.len() {
        return false;
    }
    match constraints[index].kind {
        Kind::Inequality => weight.1 >= 0,
        Kind::Equation => true,
    }
}

/// Whether each weight may stand in a proof.
pub fn are_allowed(constraints: &[Constraint], weights: &[(u32, i128)]) -> bool
    ensures { OnTrue result (All (IsAllowed (forms_of (map of_constraint constraints.now))) weights.now) }
{
    for weight in weights {
        if !is_allowed(constraints, weight) {
            return false;
        }
    }
    true
}
