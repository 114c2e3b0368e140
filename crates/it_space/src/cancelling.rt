//! Cancelling a coordinate between two rows.
ghost use Rattle.std.specs.Prelude.{◌≡◌, ◌≢◌, pos, ◌*ℤ◌, ◌<◌, ◌^◌, ◌<ℤ◌, ◌++◌, OkIff, OnOk, IfOk, IfErr, IfSome, IfNone, [], unsigned_abs};
ghost use Rattle.it_number.specs.Limit.{IsWithin};
ghost use Rattle.it_space.specs.Rows.{Ascends, IsCanonical, coefficient, single_term};
ghost use Rattle.it_space.specs.Cancelling.{common_at, CancelFits, cancelled_row};
ghost use Rattle.it_space.specs.Mixing.{mix, MixFitsAt, MixesFit, AreLater, IsFirstCoordinate, IsTermPut, IsMix};
ghost use Rattle.it_space.specs.declared.faults.RowFault.TheVariants.{Wide as IsTooWide};

use crate::faults::RowFault;
use crate::rows::Row;
use it_fraction::{Wide, gcd, signed_product, sum};
use std::alloc::Global;

/// Cancels coordinate `at`: the sum of the least positive multiples of `up` and `down` that has no term there. The coefficient
/// at `at` is positive in `up` and negative in `down`. `Wide` if at another coordinate a product or the sum passes the limit;
/// `Memory` if allocation fails.
pub fn cancel(alloc: Global, up: &Row, down: &Row, at: u32) -> Result<Row, RowFault>
    requires up { pos 0 <ℤ coefficient up.now at }
    requires down { coefficient down.now at <ℤ pos 0 }
    ensures row { IfOk result (λ row. row ≡ cancelled_row at up.now down.now) }
    ensures canonical { IfOk result IsCanonical }
    ensures fits { OnOk result (CancelFits at up.now down.now) }
    ensures wide { IfErr result (λ fault. fault ≡ IsTooWide → ¬ (CancelFits at up.now down.now)) }
{
    let common = common_divisor(up, down, at);
    let times_up = size(down, at) / common;
    let times_down = size(up, at) / common;
    let terms = mix(alloc, up.terms(), times_up, down.terms(), times_down, at)?;
    Ok(Row::new(terms))
}

/// The greatest common divisor of the coefficients of `up` and `down` at coordinate `at`.
fn common_divisor(up: &Row, down: &Row, at: u32) -> u128
    requires { pos 0 <ℤ coefficient up.now at }
    ensures value { result ≡ common_at at up.now down.now }
    ensures some { 0 < result }
{
    gcd(up.coefficient(at), down.coefficient(at)).unsigned_abs()
}

/// The absolute value of the coefficient of `row` at coordinate `at`.
fn size(row: &Row, at: u32) -> u128
    ensures value { result ≡ unsigned_abs (coefficient row.now at) }
    ensures within { result < 2 ^ 127 }
{
    row.coefficient(at).unsigned_abs()
}

/// The terms of `a` times `up` plus `b` times `down`, without the term at coordinate `at`.
fn mix(
    alloc: Global,
    up: &[(u32, i128)],
    a: u128,
    down: &[(u32, i128)],
    b: u128,
    at: u32,
) -> Result<Vec<(u32, i128)>, RowFault>
    requires up { IsCanonical up.now }
    requires down { IsCanonical down.now }
    requires a { a < 2 ^ 127 }
    requires b { b < 2 ^ 127 }
    ensures is { IfOk result (λ v. IsMix at a up.now b down.now v.items) }
    ensures wide { IfErr result (λ fault. fault ≡ IsTooWide → ¬ (MixesFit at a up.now b down.now)) }
{
    let mut terms = Vec::new(alloc);
    let mut left = up;
    let mut right = down;
    while let Some(coordinate) = first_coordinate(left, right) {
        let up_rest = Multiple {
            times: a,
            terms: left,
        };
        let down_rest = Multiple {
            times: b,
            terms: right,
        };
        put_term(&mut terms, coordinate, &up_rest, &down_rest, at)?;
        left = rest_after(left, coordinate);
        right = rest_after(right, coordinate);
    }
    Ok(terms)
}

/// The first coordinate of two rows; `None` if neither has a term.
fn first_coordinate(left: &[(u32, i128)], right: &[(u32, i128)]) -> Option<u32>
    requires left { IsCanonical left.now }
    requires right { IsCanonical right.now }
    ensures some { IfSome result (IsFirstCoordinate left.now right.now) }
    ensures none { IfNone result ((left.now ≡ []) × (right.now ≡ [])) }
{
    match (left, right) {
        ([], []) => None,
        ([x, ..], []) => Some(x.0),
        ([], [y, ..]) => Some(y.0),
        ([x, ..], [y, ..]) => Some(if x.0 <= y.0 { x.0 } else { y.0 }),
    }
}

/// The coefficient at `coordinate`, where no term is before it.
fn front_coefficient(terms: &[(u32, i128)], coordinate: u32) -> i128
    requires { Ascends coordinate terms.now }
    ensures { result ≡ coefficient terms.now coordinate }
{
    match terms {
        [term, ..] => { if term.0 == coordinate { term.1 } else { 0 } }
        [] => 0,
    }
}

/// The terms after `coordinate`, where no term is before it.
fn rest_after(terms: &[(u32, i128)], coordinate: u32) -> &[(u32, i128)]
    requires { Ascends coordinate terms.now }
    ensures { AreLater coordinate terms.now result.now }
{
    match terms {
        [term, rest @ ..] => { if term.0 == coordinate { rest } else { terms } }
        [] => terms,
    }
}

/// A factor, and the terms of the row that it multiplies.
#[derive(Drop)]
struct Multiple<'a> {
    times: u128,
    terms: &'a [(u32, i128)],
}

/// Appends the term at `coordinate` of the sum of `left` and `right`, unless `coordinate` is `at`.
fn put_term(
    terms: &mut Vec<(u32, i128)>,
    coordinate: u32,
    left: &Multiple<'_>,
    right: &Multiple<'_>,
    at: u32,
) -> Result<(), RowFault>
    requires left { Ascends coordinate left.now.terms.now }
    requires right { Ascends coordinate right.now.terms.now }
    requires left_times { left.now.times < 2 ^ 127 }
    requires right_times { right.now.times < 2 ^ 127 }
    ensures is { OnOk result (IsTermPut at coordinate left.now.times left.now.terms.now right.now.times right.now.terms.now terms.old.items terms.new.items) }
    ensures wide { IfErr result (λ fault. fault ≡ IsTooWide → (coordinate ≢ at) × ¬ (MixFitsAt left.now.times left.now.terms.now right.now.times right.now.terms.now coordinate)) }
{
    if coordinate == at {
        return Ok(());
    }
    let total = mixed_coefficient(left.terms, left.times, right.terms, right.times, coordinate)?;
    put_nonzero(terms, coordinate, total)
}

/// Appends the term with `coefficient` at `coordinate`, unless `coefficient` is 0.
fn put_nonzero(
    terms: &mut Vec<(u32, i128)>,
    coordinate: u32,
    coefficient: i128,
) -> Result<(), RowFault>
    ensures is { OnOk result (terms.new.items ≡ terms.old.items ++ single_term coordinate coefficient) }
    ensures fault { IfErr result (λ fault. fault ≢ IsTooWide) }
{
    if coefficient == 0 {
        return Ok(());
    }
    terms.push((coordinate, coefficient))?;
    Ok(())
}

/// The coefficient of `a` times `left` plus `b` times `right` at `coordinate`, where neither has a term before it.
fn mixed_coefficient(
    left: &[(u32, i128)],
    a: u128,
    right: &[(u32, i128)],
    b: u128,
    coordinate: u32,
) -> Result<i128, Wide>
    requires left { Ascends coordinate left.now }
    requires right { Ascends coordinate right.now }
    requires a { a < 2 ^ 127 }
    requires b { b < 2 ^ 127 }
    ensures { OkIff result (MixFitsAt a left.now b right.now coordinate) (mix a left.now b right.now coordinate) }
{
    sum(
        coefficient_times(left, coordinate, a)?,
        coefficient_times(right, coordinate, b)?,
    )
}

/// `times` times the coefficient at `coordinate`, where no term is before it.
fn coefficient_times(terms: &[(u32, i128)], coordinate: u32, times: u128) -> Result<i128, Wide>
    requires terms { Ascends coordinate terms.now }
    requires times { times < 2 ^ 127 }
    ensures { OkIff result (IsWithin (pos times *ℤ coefficient terms.now coordinate)) (pos times *ℤ coefficient terms.now coordinate) }
{
    signed_product(times as i128, front_coefficient(terms, coordinate))
}
