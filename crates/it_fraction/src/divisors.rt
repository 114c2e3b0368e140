//! Greatest common divisors and least common multiples of whole numbers.
ghost use Rattle.std.specs.Prelude.{◌≡◌, ◌≤ℤ◌, pos, unsigned_abs, OkIff};
ghost use Rattle.it_number.specs.Gcd.{gcd as gcd_of, lcm as lcm_of};
ghost use Rattle.it_number.specs.Limit.{IsWithin};

use crate::fraction::Wide;
use crate::steps::{common_divisor, product, quotient};

/// The greatest common divisor of `a` and `b`, at least 0; that of 0 and 0 is 0.
pub fn gcd(a: i128, b: i128) -> i128
    requires a_within { IsWithin a }
    requires b_within { IsWithin b }
    ensures value { result ≡ pos (gcd_of (unsigned_abs a) (unsigned_abs b)) }
    ensures within { IsWithin result }
{
    common_divisor(a.unsigned_abs(), b.unsigned_abs()) as i128
}

/// The least common multiple of `a` and `b`, both above 0; `Wide` if it passes the limit.
pub fn lcm(a: i128, b: i128) -> Result<i128, Wide>
    requires a_some { pos 1 ≤ℤ a }
    requires b_some { pos 1 ≤ℤ b }
    ensures { let multiple = pos (lcm_of (unsigned_abs a) (unsigned_abs b)) in OkIff result (IsWithin multiple) multiple }
{
    let left = a.unsigned_abs();
    let right = b.unsigned_abs();
    let multiple = product(left, quotient(right, common_divisor(left, right)))?;
    Ok(multiple as i128)
}
