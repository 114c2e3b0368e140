//! Products of fractions, given by numerators and denominators.
ghost use Rattle.std.specs.Prelude.{◌<◌, ◌*◌, ◌*ℤ◌, unsigned_abs, OkIff};
ghost use Rattle.std.specs.Int.{IsGcd};
ghost use Rattle.it_number.specs.Limit.{IsWithin};
ghost use Rattle.it_rational.specs.Rational.{quotient, integer};
ghost use Rattle.it_fraction.specs.Fits.{IsNarrow};

use crate::fraction::{Fraction, Wide, in_lowest_terms};
use crate::steps::{common_divisor, product, quotient, signed_product, signed_quotient};

/// The product of a / b and c / d, each in lowest terms; `Wide` if the numerator or the denominator of the result passes the limit.
pub fn parts_product(a: i128, b: u128, c: i128, d: u128) -> Result<Fraction, Wide>
    requires b_some { 0 < b }
    requires d_some { 0 < d }
    requires a_within { IsWithin a }
    requires c_within { IsWithin c }
    requires left { IsGcd (unsigned_abs a) b 1 }
    requires right { IsGcd (unsigned_abs c) d 1 }
    ensures { OkIff result (IsNarrow (quotient (a *ℤ c) (b * d))) (quotient (a *ℤ c) (b * d)) }
{
    let left_shared = common_divisor(a.unsigned_abs(), d);
    let right_shared = common_divisor(c.unsigned_abs(), b);
    let left = signed_quotient(a, left_shared);
    let right = signed_quotient(c, right_shared);
    let numerator = signed_product(left, right)?;
    let denominator = product(quotient(b, right_shared), quotient(d, left_shared))?;
    Ok(in_lowest_terms(numerator, denominator))
}

/// The product of two whole numbers, as a fraction; `Wide` if it passes the limit.
pub fn whole_product(a: i128, c: i128) -> Result<Fraction, Wide>
    ensures { OkIff result (IsWithin (a *ℤ c)) (integer (a *ℤ c)) }
{
    Ok(Fraction::whole(signed_product(a, c)?))
}
