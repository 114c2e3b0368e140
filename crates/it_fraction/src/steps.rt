//! Operations on single whole numbers. A result that may pass the limit is `Wide` exactly where it does.
//! Most have a faster path for numbers of 64 bits, whose division is several times faster.
ghost use Rattle.std.specs.Prelude.{◌≡◌, ◌<◌, ◌*◌, ◌/◌, ◌+ℤ◌, ◌-ℤ◌, ◌*ℤ◌, pos, OkIff};
ghost use Rattle.it_number.specs.Division.{int_quotient};
ghost use Rattle.it_number.specs.Gcd.{gcd};
ghost use Rattle.it_number.specs.Limit.{IsWithin};

use crate::fraction::Wide;

/// The greatest number within the limit, 2^127 - 1.
const LARGEST: u128 = i128::MAX as u128;

/// The greatest common divisor of `a` and `b`, by Euclid's algorithm; that of 0 and 0 is 0.
#[tactic(auto, using(crate::proofs::DivisorLemmas::gcd_above, crate::proofs::DivisorLemmas::gcd_of_one))]
pub fn common_divisor(a: u128, b: u128) -> u128
    ensures value { result ≡ gcd a b }
    ensures some { 0 < b → 0 < result }
{
    if a == 1 || b == 1 {
        return 1;
    }
    match (u64::try_from(a), u64::try_from(b)) {
        (Ok(a), Ok(b)) => u128::from(short_common_divisor(a, b)),
        _ => long_common_divisor(a, b),
    }
}

/// Like `common_divisor`, in 64 bits.
fn short_common_divisor(a: u64, b: u64) -> u64
    ensures { result ≡ gcd a b }
{
    let mut larger = a;
    let mut smaller = b;
    while smaller != 0 {
        let rest = larger % smaller;
        larger = smaller;
        smaller = rest;
    }
    larger
}

/// Like `common_divisor`, in 64 bits as soon as a remainder fits.
fn long_common_divisor(a: u128, b: u128) -> u128
    ensures { result ≡ gcd a b }
{
    let mut larger = a;
    let mut smaller = b;
    while smaller > u128::from(u64::MAX) {
        let rest = larger % smaller;
        larger = smaller;
        smaller = rest;
    }
    if smaller == 0 {
        return larger;
    }
    u128::from(short_common_divisor(smaller as u64, (larger % smaller) as u64))
}

/// a / k, rounded down.
pub fn quotient(a: u128, k: u128) -> u128
    requires { 0 < k }
    ensures { result ≡ a / k }
{
    if k == 1 {
        return a;
    }
    match (u64::try_from(a), u64::try_from(k)) {
        (Ok(a), Ok(k)) => u128::from(a / k),
        _ => a / k,
    }
}

/// a / k, rounded towards 0.
pub fn signed_quotient(a: i128, k: u128) -> i128
    requires within { IsWithin a }
    requires some { 0 < k }
    ensures { result ≡ int_quotient a k }
{
    let size = quotient(a.unsigned_abs(), k) as i128;
    if a < 0 { -size } else { size }
}

/// The sum of `a` and `b`; `Wide` if it passes the limit.
pub fn sum(a: i128, b: i128) -> Result<i128, Wide>
    ensures { OkIff result (IsWithin (a +ℤ b)) (a +ℤ b) }
{
    if let (Ok(a), Ok(b)) = (i64::try_from(a), i64::try_from(b)) {
        return Ok(short_sum(a, b));
    }
    match a.checked_add(b) {
        Some(sum) if sum != i128::MIN => Ok(sum),
        _ => Err(Wide),
    }
}

/// The sum of two numbers of 64 bits, which is always within the limit.
fn short_sum(a: i64, b: i64) -> i128
    ensures value { result ≡ a +ℤ b }
    ensures within { IsWithin result }
{
    i128::from(a) + i128::from(b)
}

/// a - b; `Wide` if it passes the limit.
pub fn difference(a: i128, b: i128) -> Result<i128, Wide>
    ensures { OkIff result (IsWithin (a -ℤ b)) (a -ℤ b) }
{
    match a.checked_sub(b) {
        Some(rest) if rest != i128::MIN => Ok(rest),
        _ => Err(Wide),
    }
}

/// The product of `a` and `b`; `Wide` if it passes the limit.
pub fn product(a: u128, b: u128) -> Result<u128, Wide>
    ensures { OkIff result (IsWithin (pos (a * b))) (a * b) }
{
    match a.checked_mul(b) {
        Some(product) if product <= LARGEST => Ok(product),
        _ => Err(Wide),
    }
}

/// The product of the signed numbers `a` and `b`; `Wide` if it passes the limit.
pub fn signed_product(a: i128, b: i128) -> Result<i128, Wide>
    ensures { OkIff result (IsWithin (a *ℤ b)) (a *ℤ b) }
{
    if let (Ok(a), Ok(b)) = (i64::try_from(a), i64::try_from(b)) {
        return Ok(short_product(a, b));
    }
    match a.checked_mul(b) {
        Some(product) if product != i128::MIN => Ok(product),
        _ => Err(Wide),
    }
}

/// The product of two numbers of 64 bits, which is always within the limit.
fn short_product(a: i64, b: i64) -> i128
    ensures value { result ≡ a *ℤ b }
    ensures within { IsWithin result }
{
    i128::from(a) * i128::from(b)
}

/// `a` times `k`; `Wide` if it passes the limit.
pub fn multiple(a: i128, k: u128) -> Result<i128, Wide>
    requires { IsWithin (pos k) }
    ensures { OkIff result (IsWithin (a *ℤ pos k)) (a *ℤ pos k) }
{
    signed_product(a, k as i128)
}
