//! The rates of a ray.
ghost use Rattle.std.specs.Prelude.{◌≡◌, ◌<◌, ◌≤◌, ◌+◌, ◌++◌, ◌^◌, [], codes, unsigned_abs, if◌then◌else◌, length, OnOk};
ghost use Rattle.it_number.specs.Division.{int_quotient};
ghost use Rattle.it_number.specs.Gcd.{gcd};
ghost use Rattle.it_space.specs.Divisors.{content};
ghost use Rattle.it_space.specs.Rows.{point_of};
ghost use Rattle.it_space.specs.Spaces.{size_of};
ghost use Rattle.it_demand.specs.QuestionSpaces.{space_of};
ghost use Rattle.it_outer.specs.Rounds.{ArePlaces};
ghost use Rattle.it_bounds.specs.Lines.{rate_text, rates_text, values_at};

use it_fraction::gcd;
use it_print::{write_coordinate, write_signed};
use it_space::Point;
use it_syntax::Names;
use std::alloc::{AllocError, Global};

/// The greatest common divisor of `common` and the value of `point` at the coordinate `at`.
fn with_value(common: u128, point: &Point, at: u32) -> u128
    requires common { common < 2 ^ 127 }
    requires some { 1 ≤ at }
    requires few { at ≤ length point.now }
    ensures value { result ≡ gcd common (unsigned_abs (point_of point.now at)) }
    ensures within { result < 2 ^ 127 }
{
    gcd(common as i128, point.at(at)).unsigned_abs()
}

/// The greatest common divisor of the values of `point` at the coordinates `kept`; 0 if all are 0.
fn common_divisor(kept: &[u32], point: &Point) -> u128
    requires { ArePlaces (length point.now) kept.now }
    ensures value { result ≡ content 0 (values_at kept.now point.now) }
    ensures within { result < 2 ^ 127 }
{
    let mut common: u128 = 0;
    for at in kept {
        common = with_value(common, point, *at);
    }
    common
}

/// The value of `point` at the coordinate `at`, divided by `by`; 0 if `by` is 0.
fn divided_at(point: &Point, at: u32, by: u128) -> i128
    requires some { 1 ≤ at }
    requires few { at ≤ length point.now }
    requires by { by < 2 ^ 127 }
    ensures { result ≡ int_quotient (point_of point.now at) by }
{
    if by == 0 {
        return 0;
    }
    point.at(at) / by as i128
}

/// Appends a blank, if `some`: a text stands before.
fn write_between(out: &mut Vec<u8>, some: bool) -> Result<(), AllocError>
    ensures { OnOk result (out.new.items ≡ out.old.items ++ (if some then codes " " else [])) }
{
    if some {
        out.extend_from_slice(b" ")?;
    }
    Ok(())
}

/// Appends a rate with its value.
fn write_rate(out: &mut Vec<u8>, names: &Names, at: u32, number: i128) -> Result<(), AllocError>
    requires { at < 2 ^ length names.now.variables + length names.now.rates }
    ensures { OnOk result (out.new.items ≡ out.old.items ++ rate_text names.now (at, number)) }
{
    write_coordinate(out, names, at)?;
    out.extend_from_slice(b"=")?;
    write_signed(out, number)
}

/// Appends the rates that stay in lowest terms, with a blank between them.
pub fn write_rates(
    out: &mut Vec<u8>,
    names: &Names,
    kept: &[u32],
    point: &Point,
) -> Result<(), AllocError>
    requires kept { ArePlaces (size_of (space_of names.now)) kept.now }
    requires point { length point.now ≡ size_of (space_of names.now) }
    ensures { OnOk result (out.new.items ≡ out.old.items ++ rates_text names.now kept.now point.now) }
{
    let common = common_divisor(kept, point);
    let mut some = false;
    for at in kept {
        write_between(out, some)?;
        write_rate(out, names, *at, divided_at(point, *at, common))?;
        some = true;
    }
    Ok(())
}
