//! The rays with which the second pass begins.
ghost use Rattle.std.specs.Prelude.{◌≡◌, ◌≤◌, pos, All, IfOk, IfErr, OnOk, length, map, not, false, get_or, if◌then◌else◌};
ghost use Rattle.std.specs.Ordering.{int_eq};
ghost use Rattle.std.specs.Int.Signed.{lt_z};
ghost use Rattle.std.specs.List.{insert, list_any};
ghost use Rattle.it_number.specs.Limit.{IsWithin};
ghost use Rattle.it_space.specs.Rows.{IsOver, coefficient, point_of};
ghost use Rattle.it_space.specs.Spaces.{IsSpace, size_of};
ghost use Rattle.it_space.specs.declared.faults.RowFault.TheVariants.{Wide as IsTooWide};
ghost use Rattle.it_hull.specs.Rays.{ValuesFit};
ghost use Rattle.it_outer.specs.Extremes.{direction, extreme_rays, is_greater, is_outdone, is_within, put_in_order, tight_at};
ghost use Rattle.it_outer.specs.Rounds.{ArePlaces, lists_of};
ghost use Rattle.it_outer.specs.Search.{AllFit};

use it_space::{Point, Row, RowFault, Space, normal, push_some, value};
use std::alloc::{AllocError, Global};

/// The value of `point` at coordinate `at`.
fn number_at(point: &Point, at: u32) -> i128
    requires some { 1 ≤ at }
    requires few { at ≤ length point.now }
    ensures value { result ≡ point_of point.now at }
    ensures within { IsWithin result }
{
    point.at(at)
}

/// The values of `point` at the coordinates in `kept`, in lowest terms, as a row.
fn direction(alloc: Global, kept: &[u32], point: &Point) -> Result<Row, AllocError>
    requires { ArePlaces (length point.now) kept.now }
    ensures { IfOk result (λ r. r ≡ direction kept.now point.now) }
{
    let mut terms = Vec::new(alloc);
    for at in kept {
        push_some(&mut terms, *at, number_at(point, *at))?;
    }
    Ok(normal(Row::new(terms)))
}

/// Whether two rows have the same coefficient at coordinate `at`.
fn is_same_at(row: &Row, other: &Row, at: u32) -> bool
    ensures { result ≡ int_eq (coefficient row.now at) (coefficient other.now at) }
{
    row.coefficient(at) == other.coefficient(at)
}

/// Whether the coefficient of `row` at coordinate `at` is above that of `other`.
fn is_above_at(row: &Row, other: &Row, at: u32) -> bool
    ensures { result ≡ lt_z (coefficient other.now at) (coefficient row.now at) }
{
    other.coefficient(at) < row.coefficient(at)
}

/// Whether `row` is greater than `other` at the first coordinate in `kept` at which they differ.
fn is_greater(kept: &[u32], row: &Row, other: &Row) -> bool
    ensures { result ≡ is_greater kept.now row.now other.now }
{
    for at in kept {
        if !is_same_at(row, other, *at) {
            return is_above_at(row, other, *at);
        }
    }
    false
}

/// Whether `point` comes before `other` in the order of their directions.
fn comes_before(
    alloc: Global,
    kept: &[u32],
    point: &Point,
    other: &Point,
) -> Result<bool, AllocError>
    requires point { ArePlaces (length point.now) kept.now }
    requires other { ArePlaces (length other.now) kept.now }
    ensures { IfOk result (λ b. b ≡ is_greater kept.now (direction kept.now point.now) (direction kept.now other.now)) }
{
    let own = direction(alloc, kept, point)?;
    let bound = direction(alloc, kept, other)?;
    Ok(is_greater(kept, &own, &bound))
}

/// The place of `point` among `points`, which are in order: before the first one that comes after it.
fn place_of(
    alloc: Global,
    kept: &[u32],
    points: &[Point],
    point: &Point,
) -> Result<usize, AllocError>
    requires point { ArePlaces (length point.now) kept.now }
    requires points { All (λ p. ArePlaces (length p) kept.now) points.now }
    ensures place { IfOk result (λ i. put_in_order kept.now point.now points.now ≡ insert points.now i point.now) }
    ensures within { IfOk result (λ i. i ≤ length points.now) }
{
    for i in 0..points.len() {
        if comes_before(alloc, kept, point, &points[i])? {
            return Ok(i);
        }
    }
    Ok(points.len())
}

/// Inserts `point` among `points`, which are in order.
fn put_in_order(
    alloc: Global,
    kept: &[u32],
    points: &mut Vec<Point>,
    point: Point,
) -> Result<(), AllocError>
    requires point { ArePlaces (length point) kept.now }
    requires points { All (λ p. ArePlaces (length p) kept.now) points.old.items }
    ensures { OnOk result (points.new.items ≡ put_in_order kept.now point points.old.items) }
{
    let place = place_of(alloc, kept, points.as_slice(), &point)?;
    points.insert(place, point)?;
    Ok(())
}

/// A copy of the point.
fn copy_point(alloc: Global, space: Space, point: &Point) -> Result<Point, AllocError>
    requires space { IsSpace space }
    requires point { length point.now ≡ size_of space }
    ensures { IfOk result (λ p. p ≡ point.now) }
{
    let values = point.values().iter().copied().collect(alloc)?;
    Ok(Point::new(space, values))
}

/// For each row whether it is 0 at `ray`. `Wide` if the value of a row passes the limit.
fn tight_at(alloc: Global, rows: &[Row], ray: &Point) -> Result<Vec<bool>, RowFault>
    requires rows { All (IsOver (length ray.now)) rows.now }
    ensures list { IfOk result (λ v. v.items ≡ tight_at rows.now ray.now) }
    ensures fit { OnOk result (ValuesFit ray.now rows.now) }
    ensures wide { IfErr result (λ fault. fault ≡ IsTooWide → ¬ (ValuesFit ray.now rows.now)) }
{
    let mut tight = Vec::new(alloc);
    for row in rows {
        let number = value(row, ray)?;
        tight.push(number == 0)?;
    }
    Ok(tight)
}

/// The lists of `tight_at` for each of `rays`.
fn tight_lists(alloc: Global, rows: &[Row], rays: &[Point]) -> Result<Vec<Vec<bool>>, RowFault>
    requires { All (λ ray. All (IsOver (length ray)) rows.now) rays.now }
    ensures lists { IfOk result (λ v. lists_of v.items ≡ map (tight_at rows.now) rays.now) }
    ensures fit { OnOk result (AllFit rows.now rays.now) }
    ensures wide { IfErr result (λ fault. fault ≡ IsTooWide → ¬ (AllFit rows.now rays.now)) }
{
    let mut lists = Vec::new(alloc);
    for ray in rays {
        match tight_at(alloc, rows, ray) {
            Ok(tight) => lists.push(tight)?,
            Err(fault) => return Err(fault),
        }
    }
    Ok(lists)
}

/// The flag at `place`, `false` past the end.
fn flag_at(list: &[bool], place: usize) -> bool
    ensures { result ≡ get_or list.now place false }
{
    if place < list.len() {
        list[place]
    } else {
        false
    }
}

/// Whether each row that is tight in `list` is tight in `other`.
fn is_within(list: &[bool], other: &[bool]) -> bool
    ensures { result ≡ is_within list.now other.now }
{
    for i in 0..list.len() {
        if list[i] && !flag_at(other, i) {
            return false;
        }
    }
    true
}

/// Whether some row isn't tight.
fn has_loose(list: &[bool]) -> bool
    ensures { result ≡ list_any not list.now }
{
    for is_tight in list {
        if !*is_tight {
            return true;
        }
    }
    false
}

/// Whether `other` has all tight rows of `list` and more, but not all rows.
fn is_outdone(list: &[bool], other: &[bool]) -> bool
    ensures { result ≡ is_outdone list.now other.now }
{
    is_within(list, other) && !is_within(other, list) && has_loose(other)
}

/// Whether none of `lists` outdoes `list`.
fn is_extreme(list: &[bool], lists: &[Vec<bool>]) -> bool
    ensures { result ≡ not (list_any (is_outdone list.now) (lists_of lists.now)) }
{
    for other in lists {
        if is_outdone(list, other.as_slice()) {
            return false;
        }
    }
    true
}

/// Inserts a copy of `ray` among `ordered`, which are in order, if `is_wanted`.
fn put_wanted(
    alloc: Global,
    space: Space,
    kept: &[u32],
    ordered: &mut Vec<Point>,
    ray: &Point,
    is_wanted: bool,
) -> Result<(), AllocError>
    requires space { IsSpace space }
    requires kept { ArePlaces (size_of space) kept.now }
    requires ray { length ray.now ≡ size_of space }
    requires ordered { All (λ p. length p ≡ size_of space) ordered.old.items }
    ensures rays { OnOk result (ordered.new.items ≡ (if is_wanted then put_in_order kept.now ray.now ordered.old.items else ordered.old.items)) }
    ensures ordered { OnOk result (All (λ p. length p ≡ size_of space) ordered.new.items) }
{
    if is_wanted {
        let copy = copy_point(alloc, space, ray)?;
        put_in_order(alloc, kept, ordered, copy)?;
    }
    Ok(())
}

/// The extreme rays, in the order of their directions: those whose tight rows aren't all tight, together with others, at another ray.
/// `Wide` if the value of a row at a ray passes the limit.
pub fn extreme_rays(
    alloc: Global,
    space: Space,
    kept: &[u32],
    rows: &[Row],
    rays: &[Point],
) -> Result<Vec<Point>, RowFault>
    requires space { IsSpace space }
    requires kept { ArePlaces (size_of space) kept.now }
    requires rows { All (IsOver (size_of space)) rows.now }
    requires rays { All (λ ray. length ray ≡ size_of space) rays.now }
    ensures rays { IfOk result (λ v. v.items ≡ extreme_rays kept.now rows.now rays.now) }
    ensures fit { OnOk result (AllFit rows.now rays.now) }
    ensures wide { IfErr result (λ fault. fault ≡ IsTooWide → ¬ (AllFit rows.now rays.now)) }
{
    let lists = tight_lists(alloc, rows, rays)?;
    let mut ordered = Vec::new(alloc);
    for i in 0..rays.len() {
        let is_wanted = is_extreme(lists[i].as_slice(), lists.as_slice());
        put_wanted(alloc, space, kept, &mut ordered, &rays[i], is_wanted)?;
    }
    Ok(ordered)
}
