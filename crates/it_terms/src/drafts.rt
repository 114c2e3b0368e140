//! Lays out the terms of a row as a relation, with rates on the left. The relation is judged by its text.
ghost use Rattle.std.specs.Prelude.{◌≤◌};
ghost use Rattle.it_space.specs.Spaces.{most_variables};

use crate::finding::{Found, term_of};
use crate::untold::Untold;
use it_fraction::signed_product;
use it_space::{Row, Space};
use it_syntax::types::{Atom, Sign, Term};
use std::alloc::{AllocError, Global};

/// Two sums and the sign between them, before they are written.
pub struct Draft {
    pub left: Vec<Term>,
    pub sign: Sign,
    pub right: Vec<Term>,
}

impl Drop for Draft {
    fn drop(self) {
        let Draft {
            left: _,
            sign: _,
            right: _,
        } = self;
    }
}

/// The terms of `found.scale` times `row`: those of its rates, and then `found.terms`, the sum for its part over sets.
pub fn row_terms(alloc: Global, row: &Row, found: &Found, space: Space) -> Result<Vec<Term>, Untold>
    requires { space.variables ≤ most_variables }
{
    let sets = 1u32 << space.variables;
    let mut terms = Vec::new(alloc);
    for term in row.terms() {
        if term.0 >= sets {
            let rate = u8::try_from(term.0 - sets)?;
            let times = signed_product(found.scale, term.1)?;
            terms.push(term_of(times, Atom::Rate(rate))?)?;
        }
    }
    terms.extend_from_slice(found.terms.as_slice())?;
    Ok(terms)
}

/// Whether `term` is a rate just if `rate`, and negative just if `negative`.
fn is_of(term: &Term, rate: bool, negative: bool) -> bool {
    match term.atom {
        Atom::Rate(_) => rate && term.negative == negative,
        _ => !rate && term.negative == negative,
    }
}

/// Whether one of `terms` is a rate just if `rates`, and negative just if `negative`.
fn has(terms: &[Term], rates: bool, negative: bool) -> bool {
    for term in terms {
        if is_of(term, rates, negative) {
            return true;
        }
    }
    false
}

/// Appends to `side` those of `terms` that are rates just if `rates`, and negative just if `negative`; negated if `turn`.
fn put(
    side: &mut Vec<Term>,
    terms: &[Term],
    rates: bool,
    negative: bool,
    turn: bool,
) -> Result<(), AllocError> {
    for term in terms {
        if is_of(term, rates, negative) {
            side.push(Term {
                negative: negative != turn,
                ..*term
            })?;
        }
    }
    Ok(())
}

/// The relation that says the sum of `terms` to be at least 0, with terms of one sign on its left: the negative ones, under
/// `<=`, if a rate is negative, or if no rate is positive and another term is negative; else the positive ones, under `>=`.
/// Rates stand alone on the left if something of the other sign stands on the right.
pub fn laid_out(alloc: Global, terms: &[Term]) -> Result<Draft, AllocError> {
    let minus = has(terms, true, true) || !has(terms, true, false) && has(terms, false, true);
    let alone = has(terms, true, minus) && (has(terms, false, !minus) || has(terms, true, !minus));
    let mut left = Vec::new(alloc);
    put(&mut left, terms, true, minus, minus)?;
    if !alone {
        put(&mut left, terms, false, minus, minus)?;
    }
    let mut right = Vec::new(alloc);
    put(&mut right, terms, false, !minus, !minus)?;
    put(&mut right, terms, true, !minus, !minus)?;
    if alone {
        put(&mut right, terms, false, minus, !minus)?;
    }
    let sign = if minus { Sign::AtMost } else { Sign::AtLeast };
    Ok(Draft { left, sign, right })
}
