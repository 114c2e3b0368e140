//! Given equations read as functional dependences: those whose row is h(to) - h(from), or the negation, where `from` is
//! strictly inside `to`.
ghost use Rattle.std.specs.Prelude.{◌≡◌, ◌<◌, ◌≤◌, ◌+◌, ◌^◌, length, Option, Some, None, IfOk};
ghost use Rattle.it_elemental.specs.Generators.{is_equation};
ghost use Rattle.it_closure.specs.Reading.{are_ends, ends_of, is_given, is_minus_one, is_one, read_from, read_one, with_number};
ghost use Rattle.it_space.specs.Spaces.{most_variables};

use crate::dependences::Dependence;
use it_problems::{Constraint, Kind, Origin};
use it_space::VarSet;
use std::alloc::{AllocError, Global};

/// The sets of a row h(to) - h(from), or of its negation, by their coordinates.
#[derive(Clone, Copy, Debug, PartialEq, Eq)]
pub struct SetPair {
    from: u32,
    to: u32,
    negated: bool,
}

/// All dependences among `constraints`, the first of which is generator number `first`.
pub fn read_all(
    alloc: Global,
    n: u8,
    first: u32,
    constraints: &[Constraint],
) -> Result<Vec<Dependence>, AllocError>
    requires few { n ≤ most_variables }
    requires count { first + length constraints.now < 2 ^ 32 }
    ensures { IfOk result (λ v. v.items ≡ read_from n first constraints.now) }
{
    let mut list = Vec::new(alloc);
    // by index, since it counts the generators, and the invariant is about the constraints from i on
    for i in 0..constraints.len() {
        if let Some(dependence) = read_one(n, first + i as u32, &constraints[i]) {
            list.push(dependence)?;
        }
    }
    Ok(list)
}

/// The dependence that `constraint`, generator number `generator`, states, if it states one.
fn read_one(n: u8, generator: u32, constraint: &Constraint) -> Option<Dependence>
    requires few { n ≤ most_variables }
    ensures { result ≡ read_one n generator constraint.now }
{
    if is_given(constraint.origin) {
        if is_equation(constraint.kind) {
            return with_number(n, generator, ends_of(constraint.row.terms()));
        }
    }
    None
}

/// Whether a constraint comes from a `given` line.
fn is_given(origin: Origin) -> bool
    ensures { result ≡ is_given origin }
{
    match origin {
        Origin::Given { .. } => true,
        Origin::Rate { .. } => false,
    }
}

/// Whether a constraint is an equation.
fn is_equation(kind: Kind) -> bool
    ensures { result ≡ is_equation kind }
{
    match kind {
        Kind::Inequality => false,
        Kind::Equation => true,
    }
}

/// The dependence of two sets, with its generator's number, if they are sets of the `n` variables and the first is strictly inside the
/// second.
fn with_number(n: u8, generator: u32, ends: Option<SetPair>) -> Option<Dependence>
    requires few { n ≤ most_variables }
    ensures { result ≡ with_number n generator ends }
{
    match ends {
        Some(ends) => {
            if are_ends(n, ends) {
                Some(Dependence {
                    from: VarSet::from_number(ends.from as u16),
                    to: VarSet::from_number(ends.to as u16),
                    generator,
                    negated: ends.negated,
                })
            } else {
                None
            }
        }
        None => None,
    }
}

/// Whether the two are sets of the `n` variables, the first strictly inside the second.
fn are_ends(n: u8, ends: SetPair) -> bool
    requires few { n ≤ most_variables }
    ensures { result ≡ are_ends n ends }
{
    if ends.to < 1u32 << n {
        if ends.from & ends.to == ends.from {
            ends.from != ends.to
        } else {
            false
        }
    } else {
        false
    }
}

/// The two sets of a row h(to) - h(from) or its negation, which has one or two terms; `None` for any other row.
fn ends_of(terms: &[(u32, i128)]) -> Option<SetPair>
    ensures { result ≡ ends_of terms.now }
{
    match terms {
        [to] => {
            if is_one(to) {
                Some(SetPair {
                    from: 0,
                    to: to.0,
                    negated: false,
                })
            } else if is_minus_one(to) {
                Some(SetPair {
                    from: 0,
                    to: to.0,
                    negated: true,
                })
            } else {
                None
            }
        }
        [from, to] => {
            if is_minus_one(from) && is_one(to) {
                Some(SetPair {
                    from: from.0,
                    to: to.0,
                    negated: false,
                })
            } else if is_one(from) && is_minus_one(to) {
                Some(SetPair {
                    from: from.0,
                    to: to.0,
                    negated: true,
                })
            } else {
                None
            }
        }
        _ => None,
    }
}

/// Whether the coefficient is 1.
fn is_one(term: &(u32, i128)) -> bool
    ensures { result ≡ is_one term.now.1 }
{
    // written out, so that the prover sees each case with its test
    if term.1 == 1 { true } else { false }
}

/// Whether the coefficient is -1.
fn is_minus_one(term: &(u32, i128)) -> bool
    ensures { result ≡ is_minus_one term.now.1 }
{
    // written out, so that the prover sees each case with its test
    if term.1 == -1 { true } else { false }
}
