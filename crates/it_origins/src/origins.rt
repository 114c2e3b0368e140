//! Certificates of rows from constraints alone.
ghost use Rattle.std.specs.Prelude.{◌≤◌, All, IfOk, IfSome};
ghost use Rattle.std.specs.Bool.{OnTrue};
ghost use Rattle.it_space.specs.Answers.{certificate_view};
ghost use Rattle.it_space.specs.Rows.{IsOver};
ghost use Rattle.it_space.specs.Spaces.{size_of, most_variables};
ghost use Rattle.it_origins.specs.Origins.{IsOfConstraint, IsOrigin};

use crate::search::{Choice, short_sum};
use it_check::{Verdict, check_yes};
use it_elemental::count;
use it_problems::Problem;
use it_space::{Certificate, Row};
use std::alloc::{AllocError, Global};

/// The certificate of a sum of constraints, numbered after the `elementals` elemental inequalities; `None` if a number of it is too
/// large.
fn certificate_of(
    alloc: Global,
    choice: &Choice,
    elementals: u32,
) -> Result<Option<Certificate>, AllocError> {
    let mut weights = Vec::new(alloc);
    for (place, number) in choice.sum.weights.as_slice() {
        if *place >= choice.columns.len() {
            return Ok(None);
        }
        let column = choice.columns[*place];
        let index = elementals.checked_add(column.number);
        let negated = if column.is_negated {
            0i128.checked_sub(*number)
        } else {
            Some(*number)
        };
        let (Some(index), Some(weight)) = (index, negated) else {
            return Ok(None);
        };
        weights.push((index, weight))?;
    }
    Ok(Some(Certificate {
        scale: choice.sum.scale,
        weights,
    }))
}

/// Whether each weight is that of a constraint, and isn't 0.
fn are_of_constraints(weights: &[(u32, i128)], variables: u8) -> bool
    requires some { 1 ≤ variables }
    requires few { variables ≤ most_variables }
    ensures { OnTrue result (All (IsOfConstraint variables) weights.now) }
{
    let elementals = count(variables);
    weights
        .iter()
        .all(|(index, weight)| elementals <= *index && *weight != 0)
}

/// A certificate of `row` by the constraints of `problem` alone: the scale times the row is exactly the sum of constraints with these
/// weights, and only equations have weights below 0. The weights are in the order of the constraints. If the row is a multiple of a
/// constraint, it weighs that one alone; else, if there are few constraints, none of those that it weighs can be left out. `None` if
/// no such certificate was found.
pub fn origin(
    alloc: Global,
    problem: &Problem,
    row: &Row,
) -> Result<Option<Certificate>, AllocError>
    requires row { IsOver (size_of problem.now.space) row.now }
    ensures { IfOk result (λ o. IfSome o (λ w. IsOrigin problem.now row.now (certificate_view w))) }
{
    let variables = problem.space().variables;
    let Some(choice) = short_sum(alloc, problem, row)? else {
        return Ok(None);
    };
    let Some(certificate) = certificate_of(alloc, &choice, count(variables))? else {
        return Ok(None);
    };
    if !are_of_constraints(certificate.weights.as_slice(), variables) {
        return Ok(None);
    }
    if check_yes(problem, row, &certificate) != Verdict::Valid {
        return Ok(None);
    }
    Ok(Some(certificate))
}
