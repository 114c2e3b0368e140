//! Sums of fractions, given by numerators and denominators.
ghost use Rattle.std.specs.Prelude.{◌<◌, ◌*◌, ◌+ℤ◌, ◌*ℤ◌, pos, unsigned_abs, OkIff};
ghost use Rattle.std.specs.Int.{IsGcd};
ghost use Rattle.it_number.specs.Limit.{IsWithin};
ghost use Rattle.it_rational.specs.Rational.{quotient, integer};
ghost use Rattle.it_fraction.specs.Fits.{PartsFit};

use crate::fraction::{Fraction, Wide, in_lowest_terms};
use crate::steps::{common_divisor, multiple, product, quotient, signed_quotient, sum};

/// The sum of a / b and c / d, each in lowest terms; `Wide` as for `Fraction::add`.
pub fn parts_sum(a: i128, b: u128, c: i128, d: u128) -> Result<Fraction, Wide>
    requires b_some { 0 < b }
    requires d_some { 0 < d }
    requires b_within { IsWithin (pos b) }
    requires d_within { IsWithin (pos d) }
    requires left { IsGcd (unsigned_abs a) b 1 }
    requires right { IsGcd (unsigned_abs c) d 1 }
    ensures { OkIff result (PartsFit a b c d) (quotient (a *ℤ pos d +ℤ c *ℤ pos b) (b * d)) }
{
    let shared = common_divisor(b, d);
    let left_factor = quotient(d, shared);
    let right_factor = quotient(b, shared);
    let left = multiple(a, left_factor)?;
    let right = multiple(c, right_factor)?;
    let total = sum(left, right)?;
    let rest = common_divisor(total.unsigned_abs(), shared);
    let denominator = product(right_factor, quotient(d, rest))?;
    Ok(in_lowest_terms(signed_quotient(total, rest), denominator))
}

/// The sum of two whole numbers, as a fraction; `Wide` if it passes the limit.
pub fn whole_sum(a: i128, c: i128) -> Result<Fraction, Wide>
    ensures { OkIff result (IsWithin (a +ℤ c)) (integer (a +ℤ c)) }
{
    Ok(Fraction::whole(sum(a, c)?))
}
