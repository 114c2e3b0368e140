//! The values of elemental inequalities at a point.
ghost use Rattle.std.specs.Prelude.{◌≡◌, ◌<◌, ◌≤◌, ◌^◌, ◌+◌, ◌+ℤ◌, ◌-ℤ◌, length, All, OkIff};
ghost use Rattle.it_number.specs.Limit.{IsWithin};
ghost use Rattle.it_space.specs.Rows.{IsValueOrWide, point_of};
ghost use Rattle.it_polymatroid.specs.Elementals.{Conditional, Mutual, elementals, elemental_at};
ghost use Rattle.it_elemental.specs.Broken.{AlternatingFits};
ghost use Rattle.it_elemental.specs.Rows.{elemental_row};
ghost use Rattle.it_elemental.specs.Views.{IsElemental};
ghost use Rattle.it_space.specs.Spaces.{most_variables};

use crate::inequalities::{Elemental, parts};
use crate::sets::{all_but, all_variables, with_variable};
use it_fraction::{Wide, difference, sum};
use it_space::{Point, VarSet};

/// The value of inequality `index` at `point`, whose first values are those of the nonempty sets: summed in order of the sets, and
/// `Wide` exactly if a partial sum is.
pub fn value_at(n: u8, index: u32, point: &Point) -> Result<i128, Wide>
    requires some { 1 ≤ n }
    requires few { n ≤ most_variables }
    requires listed { index < length (elementals n) }
    requires complete { 2 ^ n ≤ length point.now + 1 }
    ensures { IsValueOrWide (elemental_row n (elemental_at n index)) (point_of point.now) result }
{
    match parts(n, index) {
        Elemental::Conditional { of } => conditional_entropy(point, n, of),
        Elemental::Mutual { left, right, given } => mutual_information(
            point, n, left, right, given,
        ),
    }
}

/// The value of `point` at `set`, 0 at the empty set.
fn at_set(point: &Point, set: VarSet) -> i128
    requires { set ≤ length point.now }
    ensures value { result ≡ point_of point.now set }
    ensures within { All IsWithin point.now }
{
    let values = point.values();
    if set == VarSet::empty() {
        0
    } else {
        values[set.number() as usize - 1]
    }
}

/// - a + b + c - d, from left to right; `Wide` if a partial sum passes the limit.
pub fn alternating_sum(a: i128, b: i128, c: i128, d: i128) -> Result<i128, Wide>
    ensures { OkIff result (AlternatingFits a b c d) (((b -ℤ a) +ℤ c) -ℤ d) }
{
    let three = sum(difference(b, a)?, c)?;
    difference(three, d)
}

/// The entropy of variable `of` given all others.
fn conditional_entropy(point: &Point, n: u8, of: u8) -> Result<i128, Wide>
    requires few { n ≤ most_variables }
    requires shape { of < n }
    requires complete { 2 ^ n ≤ length point.now + 1 }
    ensures { IsValueOrWide (elemental_row n (Conditional of)) (point_of point.now) result }
{
    difference(
        at_set(point, all_variables(n)),
        at_set(point, all_but(n, of)),
    )
}

/// The mutual information of variables `left` and `right` given `given`.
fn mutual_information(
    point: &Point,
    n: u8,
    left: u8,
    right: u8,
    given: VarSet,
) -> Result<i128, Wide>
    requires few { n ≤ most_variables }
    requires shape { IsElemental n (Mutual left right given) }
    requires complete { 2 ^ n ≤ length point.now + 1 }
    ensures { IsValueOrWide (elemental_row n (Mutual left right given)) (point_of point.now) result }
{
    let with_left = with_variable(given, left);
    let with_right = with_variable(given, right);
    let both = with_variable(with_left, right);
    alternating_sum(
        at_set(point, given),
        at_set(point, with_left),
        at_set(point, with_right),
        at_set(point, both),
    )
}
