//! The weights or the point, read off the last table of a run.
ghost use Rattle.std.specs.Prelude.{◌≡◌, ◌<◌, ◌+◌, false, pos, IfOk};
ghost use Rattle.std.specs.Option.{IfNone, IfSome};
ghost use Rattle.it_rational.specs.Rational.{times, integer};
ghost use Rattle.it_tableau.specs.Operations.{rationals};
ghost use Rattle.it_tableau.specs.TableauViews.{height, table};
ghost use Rattle.it_run.specs.Readings.{weight, weights as weights_of};
ghost use Rattle.it_run.specs.Answers.{sign_number};
ghost use Rattle.it_run.specs.Steps.{HasInvariantsForSome, IsPointRead};

use it_fraction::Fraction;
use it_tableau::Tableau;
use std::alloc::{AllocError, Global};

/// The right side of the row in which column `j` is basic; `None` if it is basic in none.
fn weight_of(tableau: &Tableau, j: usize) -> Option<Fraction>
    requires usable { tableau.now.spent ≡ false }
    requires holds { HasInvariantsForSome tableau.now }
    ensures some { IfSome result (λ w. w ≡ weight rationals (height tableau.now) tableau.now.generator_columns (table tableau.now) j) }
    ensures none { IfNone result (weight rationals (height tableau.now) tableau.now.generator_columns (table tableau.now) j ≡ integer (pos 0)) }
{
    for i in 0..tableau.rows() {
        if tableau.basic(i) == j {
            return Some(tableau.rhs(i));
        }
    }
    None
}

/// The nonzero weights, each after its column, by ascending column.
pub fn weights(alloc: Global, tableau: &Tableau) -> Result<Vec<(usize, Fraction)>, AllocError>
    requires usable { tableau.now.spent ≡ false }
    requires holds { HasInvariantsForSome tableau.now }
    ensures { IfOk result (λ out. out.items ≡ weights_of rationals (height tableau.now) tableau.now.generator_columns (table tableau.now)) }
{
    let mut out = Vec::new(alloc);
    for j in 0..tableau.generator_columns() {
        if let Some(weight) = weight_of(tableau, j) {
            if !weight.is_zero() {
                out.push((j, weight))?;
            }
        }
    }
    Ok(out)
}

/// The value at row `k`: the cost of its artificial column, with the row's sign.
fn value_at(tableau: &Tableau, k: usize) -> Fraction
    requires usable { tableau.now.spent ≡ false }
    requires row { k < height tableau.now }
    ensures { result ≡ times (sign_number tableau.now k) ((table tableau.now).entry (height tableau.now) (tableau.now.generator_columns + k)) }
{
    let artificials = tableau.columns() - tableau.rows();
    let cost = tableau.cost(artificials + k);
    if tableau.sign(k) < 0 {
        cost.neg()
    } else {
        cost
    }
}

/// The point: a value for each row, in order.
pub fn point(alloc: Global, tableau: &Tableau) -> Result<Vec<Fraction>, AllocError>
    requires usable { tableau.now.spent ≡ false }
    ensures { IfOk result (λ out. IsPointRead tableau.now out.items) }
{
    let mut out = Vec::with_capacity(alloc, tableau.rows())?;
    for k in 0..tableau.rows() {
        out.push(value_at(tableau, k))?;
    }
    Ok(out)
}
