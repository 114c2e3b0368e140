//! Divisors with a reciprocal, which gives most quotients without a division.
ghost use Rattle.std.specs.Prelude.{◌≡◌, ◌*◌, ◌/◌, ◌<◌, unsigned_abs};
ghost use Rattle.std.specs.Bool.{OnTrue};
ghost use Rattle.std.specs.Option.{IfSome};
ghost use Rattle.it_number.specs.Division.{int_quotient};
ghost use Rattle.it_number.specs.Gcd.{gcd};
ghost use Rattle.it_number.specs.Limit.{signed_limit};

use crate::arithmetic::common_divisor;

/// A divisor above 0.
#[derive(Drop, Clone, Copy)]
pub struct Divisor {
    /// The divisor itself.
    pub value: u64,
    // 2^32 over the divisor, rounded down, plus 1; no proof depends on it
    reciprocal: u64,
}

impl Divisor {
    /// The divisor `value` with its reciprocal.
    pub fn new(value: u64) -> Divisor
        requires { 0 < value }
        ensures { result.value ≡ value }
    {
        Divisor {
            value,
            reciprocal: reciprocal_of(value),
        }
    }

    /// Whether the divisor is 1.
    pub fn is_one(&self) -> bool
        ensures { OnTrue result (self.now.value ≡ 1) }
    {
        if self.value == 1 { true } else { false }
    }

    /// The quotient of `size` by the divisor, where it is whole and the reciprocal gives it; for sizes below 2^32 it gives every
    /// whole quotient. Else `None`.
    #[inline]
    fn whole_quotient(&self, size: u64) -> Option<u64>
        ensures { IfSome result (λ q. q * self.now.value ≡ size) }
    {
        let quotient = size.wrapping_mul(self.reciprocal) >> 32;
        if quotient.checked_mul(self.value)? == size {
            Some(quotient)
        } else {
            None
        }
    }

    /// The quotient of `size` by the divisor, rounded down.
    #[inline]
    #[tactic(auto, using(crate::proofs::Divisions::factor_is_quotient))]
    pub fn size_quotient(&self, size: u64) -> u64
        requires { 0 < self.now.value }
        ensures { result ≡ size / self.now.value }
    {
        match self.whole_quotient(size) {
            Some(quotient) => quotient,
            None => size / self.value,
        }
    }

    /// The quotient of `z` by the divisor, rounded towards 0.
    #[inline]
    pub fn quotient(&self, z: i64) -> i64
        requires z { unsigned_abs z < signed_limit }
        requires some { 0 < self.now.value }
        ensures { result ≡ int_quotient z self.now.value }
    {
        let size = self.size_quotient(z.unsigned_abs()) as i64;
        if z < 0 { -size } else { size }
    }

    /// The greatest common divisor of `size` and this divisor.
    #[inline]
    pub fn shared_with(self, size: u64) -> Divisor
        requires { 0 < self.value }
        ensures { result.value ≡ gcd size self.value }
    {
        match self.whole_quotient(size) {
            Some(_) => self,
            None => Divisor::new(common_divisor(size, self.value)),
        }
    }
}

/// 2^32 over `value`, rounded down, plus 1; without a division for 1, the most frequent divisor.
#[inline]
fn reciprocal_of(value: u64) -> u64
    requires { 0 < value }
{
    if value == 1 {
        (1 << 32) + 1
    } else {
        (1 << 32) / value + 1
    }
}
