//! The hull of rays and a further ray.
ghost use Rattle.std.specs.Prelude.{◌≡◌, ◌+◌, ◌<◌, ◌^◌, ◌∷◌, [], neg_ℤ, pos, length, All, IfErr, IfOk, OnOk, OkIff};
ghost use Rattle.it_number.specs.Limit.{IsWithin};
ghost use Rattle.it_problems.specs.Problems.{IsSystem};
ghost use Rattle.it_space.specs.Rows.{IsOver, ValueFits, coefficient, point_of, value};
ghost use Rattle.it_space.specs.Spaces.{IsSpace, size_of};
ghost use Rattle.it_space.specs.declared.faults.RowFault.TheVariants.{Wide as IsTooWide};
ghost use Rattle.it_eliminate.specs.Projections.{LacksCoordinate};
ghost use Rattle.it_eliminate.specs.Views.{eliminated_view};
ghost use Rattle.it_hull.specs.Hulls.{rows_with_multiplier, with_multiplier};
ghost use Rattle.it_hull.specs.Rays.{AddsRay, RayEnds, ValuesFit};

use crate::terms::with_term;
use it_eliminate::{Eliminated, step};
use it_fraction::{Wide, difference};
use it_problems::System;
use it_space::{Point, Row, RowFault, Space, value};
use std::alloc::{AllocError, Global};

/// The coordinate of `rate`.
pub fn coordinate(space: Space, rate: u8) -> u32
    requires { IsSpace space }
    ensures { result ≡ 2 ^ space.variables + rate }
{
    (1u32 << space.variables) + rate as u32
}

/// The negated value of `row` at `ray`; `Wide` if a product or a partial sum passes the limit.
fn negated_value(row: &Row, ray: &Point) -> Result<i128, Wide>
    requires { IsOver (length ray.now) row.now }
    ensures value { OkIff result (ValueFits row.now (point_of ray.now)) (neg_ℤ (value row.now (point_of ray.now))) }
    ensures within { IfOk result IsWithin }
{
    let at_ray = value(row, ray)?;
    difference(0, at_ray)
}

/// `row` with the multiplier of `ray` at coordinate `at`: a new term there, whose coefficient is the negated value of `row` at `ray`.
fn with_multiplier(alloc: Global, row: &Row, at: u32, ray: &Point) -> Result<Row, RowFault>
    requires row { IsOver (length ray.now) row.now }
    requires lacks { coefficient row.now at ≡ pos 0 }
    ensures row { IfOk result (λ r. r ≡ with_multiplier at (point_of ray.now) row.now) }
    ensures fit { OnOk result (ValueFits row.now (point_of ray.now)) }
    ensures wide { IfErr result (λ fault. fault ≡ IsTooWide → ¬ (ValueFits row.now (point_of ray.now))) }
{
    let negated = negated_value(row, ray)?;
    let row = with_term(alloc, row, at, negated)?;
    Ok(row)
}

/// The row that says that coordinate `at` is at least 0.
fn at_least_zero(alloc: Global, at: u32) -> Result<Row, AllocError>
    ensures { IfOk result (λ r. r ≡ (at, pos 1) ∷ []) }
{
    let terms = vec![in alloc; (at, 1)]?;
    Ok(Row::new(terms))
}

/// `rows` with the multiplier of `ray` at coordinate `at`, and the row that says that the multiplier is at least 0.
fn rows_with_multiplier(
    alloc: Global,
    rows: &[Row],
    at: u32,
    ray: &Point,
) -> Result<Vec<Row>, RowFault>
    requires rows { All (IsOver (length ray.now)) rows.now }
    requires lack { LacksCoordinate at rows.now }
    ensures rows { IfOk result (λ v. v.items ≡ rows_with_multiplier at (point_of ray.now) rows.now) }
    ensures fit { OnOk result (ValuesFit ray.now rows.now) }
    ensures wide { IfErr result (λ fault. fault ≡ IsTooWide → ¬ (ValuesFit ray.now rows.now)) }
{
    let mut list = Vec::new(alloc);
    for row in rows {
        let next = with_multiplier(alloc, row, at, ray)?;
        list.push(next)?;
    }
    let least = at_least_zero(alloc, at)?;
    list.push(least)?;
    Ok(list)
}

/// The hull of the rays of `hull` and of `ray`. The ray's multiplier is at `rate`, which the hull's rows lack, and is eliminated by one
/// step: `Rows` if that leaves more than `rows` rows, and `Wide` if the value of a row at the ray, or a number of the step, passes the
/// limit.
pub fn with_ray(
    alloc: Global,
    hull: &System,
    ray: &Point,
    rate: u8,
    rows: usize,
) -> Result<Eliminated, AllocError>
    requires system { IsSystem hull.now }
    requires rate { rate < hull.now.space.rates }
    requires free { LacksCoordinate (2 ^ hull.now.space.variables + rate) hull.now.rows.items }
    requires ray { length ray.now ≡ size_of hull.now.space }
    ensures ends { IfOk result (λ e. RayEnds (2 ^ hull.now.space.variables) rows ray.now rate hull.now.rows.items (eliminated_view e)) }
    ensures hull { IfOk result (AddsRay hull.now ray.now rate) }
{
    let at = coordinate(hull.space, rate);
    match rows_with_multiplier(alloc, hull.rows.as_slice(), at, ray) {
        Ok(list) => {
            let system = System {
                space: hull.space,
                rows: list,
            };
            let end = step(alloc, &system, rate, rows)?;
            Ok(end)
        }
        Err(RowFault::Wide) => Ok(Eliminated::Wide { rate }),
        Err(RowFault::Memory) => Err(AllocError),
    }
}
