//! Two points joined to one at which the left side is 0.
ghost use Rattle.std.specs.Prelude.{◌≡◌, All, IfOk, length};
ghost use Rattle.std.specs.Option.{IfSome};
ghost use Rattle.it_number.specs.Limit.{IsWithin};
ghost use Rattle.it_space.specs.Rows.{negated_terms, value};
ghost use Rattle.it_space.specs.Spaces.{size_of};
ghost use Rattle.it_best.specs.Factors.{HasNoFactor, IsPoint, ground_of};
ghost use Rattle.it_best.specs.PhaseSteps.{AreSides};

use crate::types::Sides;
use it_check::{Verdict, check_no};
use it_columns::opposite_row;
use it_fraction::{Wide, difference, signed_product};
use it_space::{Point, Row, RowFault, value};
use std::alloc::{AllocError, Global};

/// `a` times `x` less `b` times `y`.
fn combined(a: i128, x: i128, b: i128, y: i128) -> Result<i128, Wide>
    ensures { IfOk result IsWithin }
{
    let above = signed_product(a, x)?;
    let below = signed_product(b, y)?;
    difference(above, below)
}

/// `a` times the values of `one` less `b` times those of `other`, coordinate by coordinate.
fn combined_values(
    alloc: Global,
    a: i128,
    one: &Point,
    b: i128,
    other: &Point,
) -> Result<Vec<i128>, RowFault>
    ensures { IfOk result (λ v. All IsWithin v.items) }
{
    let mut values = Vec::new(alloc);
    for (x, y) in one.values().iter().zip(other.values()) {
        let value = combined(a, *x, b, *y)?;
        values.push(value)?;
    }
    Ok(values)
}

/// `point`, if the left side is 0 there and the check finds that it meets the problem and that the right side is above 0. `negated` is
/// the negation of the right side's row.
fn judged(sides: &Sides<'_>, negated: &Row, point: Point) -> Option<Point>
    requires sides { AreSides sides.now.problem.now sides.now.left.now sides.now.right.now }
    requires negated { negated.now ≡ negated_terms sides.now.right.now }
    requires complete { length point ≡ size_of sides.now.problem.now.space }
    ensures { IfSome result (HasNoFactor (ground_of sides.now.problem.now) (value sides.now.left.now) (value sides.now.right.now)) }
{
    let Ok(zero) = value(sides.left, &point) else {
        return None;
    };
    if zero != 0 {
        return None;
    }
    match check_no(sides.problem, negated, &point) {
        Verdict::Valid => Some(point),
        _ => None,
    }
}

/// A point at which no factor holds: a sum of multiples of `above`, at which the left side is above 0, and of `below`, at which it is
/// below 0, so that it is 0 at the sum. None where a number passes the limit, or the right side isn't above 0 there.
pub fn joined(
    alloc: Global,
    sides: &Sides<'_>,
    above: &Point,
    below: &Point,
) -> Result<Option<Point>, AllocError>
    requires sides { AreSides sides.now.problem.now sides.now.left.now sides.now.right.now }
    requires above { IsPoint (ground_of sides.now.problem.now) above.now }
    requires below { IsPoint (ground_of sides.now.problem.now) below.now }
    ensures { IfOk result (λ o. IfSome o (HasNoFactor (ground_of sides.now.problem.now) (value sides.now.left.now) (value sides.now.right.now))) }
{
    let Ok(more) = value(sides.left, above) else {
        return Ok(None);
    };
    let Ok(less) = value(sides.left, below) else {
        return Ok(None);
    };
    let values = match combined_values(alloc, more, below, less, above) {
        Ok(values) => values,
        Err(RowFault::Wide) => return Ok(None),
        Err(RowFault::Memory) => return Err(AllocError),
    };
    if values.len() != sides.problem.size() as usize {
        return Ok(None);
    }
    let negated = opposite_row(alloc, sides.right)?;
    let point = Point::new(sides.problem.space(), values);
    Ok(judged(sides, &negated, point))
}
