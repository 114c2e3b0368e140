//! Operations on single whole numbers.
ghost use Rattle.std.specs.Bool.{OnFalse, OnTrue};
ghost use Rattle.std.specs.Prelude.{◌≡◌, pos, ◌+◌, ◌*◌, ◌<◌, ◌≤◌, ◌^◌, ◌≤ℤ◌, ◌+ℤ◌, ◌*ℤ◌, neg_ℤ, unsigned_abs, SomeIff};
ghost use Rattle.std.specs.Option.{IfNone, IfSome};
ghost use Rattle.it_number.specs.Division.{int_quotient};
ghost use Rattle.it_number.specs.Gcd.{gcd};
ghost use Rattle.it_number.specs.Limit.{signed_limit};

/// Whether `z` is 0. The contract states each case by itself, for callers that branch on it.
pub fn is_zero(z: i64) -> bool
    ensures yes { OnTrue result (z ≡ pos 0) }
    ensures no { OnFalse result (¬ (z ≡ pos 0)) }
{
    // written out, so that the prover sees each case with its test
    if z == 0 { true } else { false }
}

/// The product of `a` and `b`; `None` unless it is below 2^63, so that it fits a signed number too.
#[inline]
pub fn short_product(a: u64, b: u64) -> Option<u64>
    ensures { SomeIff result (a * b < signed_limit) (a * b) }
{
    let product = a.checked_mul(b)?;
    if product < 1 << 63 {
        Some(product)
    } else {
        None
    }
}

/// `sum` plus `factor` times `x`.
#[inline]
pub fn plus_product(sum: i64, factor: i64, x: i64) -> i64
    requires { unsigned_abs sum + unsigned_abs (factor *ℤ x) < signed_limit }
    ensures { result ≡ sum +ℤ factor *ℤ x }
{
    sum + factor * x
}

/// (a + b) - (c + d).
#[inline]
pub fn difference_of_sums(a: i64, b: i64, c: i64, d: i64) -> i64
    requires { unsigned_abs a + unsigned_abs b + (unsigned_abs c + unsigned_abs d) < signed_limit }
    ensures { result ≡ (a +ℤ b) +ℤ neg_ℤ (c +ℤ d) }
{
    (a + b) - (c + d)
}

/// The product of `x` and `y`, in 128 bits, where it always fits.
#[inline]
pub fn product(x: i64, y: i64) -> i128
    ensures { result ≡ x *ℤ y }
{
    i128::from(x) * i128::from(y)
}

/// x - y.
#[inline]
fn difference(x: i128, y: i128) -> i128
    requires x { unsigned_abs x < 2 ^ 126 }
    requires y { unsigned_abs y < 2 ^ 126 }
    ensures { result ≡ x +ℤ neg_ℤ y }
{
    x - y
}

/// `z` in 64 bits; `None` if it is above `limit` in absolute value.
#[inline]
pub fn narrow(z: i128, limit: u64) -> Option<i64>
    requires { limit < signed_limit }
    ensures { SomeIff result (unsigned_abs z ≤ limit) z }
{
    if z.unsigned_abs() <= u128::from(limit) {
        Some(z as i64)
    } else {
        None
    }
}

/// The difference x a - y b; `None` if it is above `limit` in absolute value.
#[inline]
#[tactic(auto, using(crate::proofs::Bounds::half_product))]
pub fn narrow_difference(x: i64, a: i64, y: i64, b: i64, limit: u64) -> Option<i64>
    requires x { unsigned_abs x < signed_limit }
    requires a { unsigned_abs a < signed_limit }
    requires y { unsigned_abs y < signed_limit }
    requires b { unsigned_abs b < signed_limit }
    requires limit { limit < signed_limit }
    ensures { SomeIff result (unsigned_abs (x *ℤ a +ℤ neg_ℤ (y *ℤ b)) ≤ limit) (x *ℤ a +ℤ neg_ℤ (y *ℤ b)) }
{
    narrow(difference(product(x, a), product(y, b)), limit)
}

/// The greatest common divisor of `a` and `b`, by Euclid's algorithm; that of 0 and 0 is 0.
pub fn common_divisor(a: u64, b: u64) -> u64
    ensures value { result ≡ gcd a b }
    ensures some { 0 < a → 0 < result }
{
    if a == 1 {
        return 1;
    }
    // mostly a is smaller, and divides b
    let mut larger = b;
    let mut smaller = a;
    while smaller != 0 {
        let rest = larger % smaller;
        larger = smaller;
        smaller = rest;
    }
    larger
}

/// The quotient z / k, rounded towards 0.
pub fn quotient(z: i64, k: u64) -> i64
    requires z { unsigned_abs z < signed_limit }
    requires some { 0 < k }
    ensures { result ≡ int_quotient z k }
{
    if k == 1 {
        return z;
    }
    let size = (z.unsigned_abs() / k) as i64;
    if z < 0 { -size } else { size }
}

/// `pivot` and `entry`, divided by their greatest common divisor. Mostly the pivot is 1 or divides the entry; these cases come
/// first, as divisions are slow.
#[inline]
pub fn lowest_terms(pivot: i64, entry: i64) -> (i64, i64)
    requires pivot { pos 1 ≤ℤ pivot }
    requires entry { unsigned_abs entry < signed_limit }
    ensures pivot { result.0 ≡ int_quotient pivot (gcd (unsigned_abs pivot) (unsigned_abs entry)) }
    ensures entry { result.1 ≡ int_quotient entry (gcd (unsigned_abs pivot) (unsigned_abs entry)) }
{
    let size = pivot.unsigned_abs();
    if size == 1 {
        return (1, entry);
    }
    if entry.unsigned_abs() % size == 0 {
        return (1, quotient(entry, size));
    }
    let shared = common_divisor(size, entry.unsigned_abs());
    (quotient(pivot, shared), quotient(entry, shared))
}

/// The sum of `a` and `b`; `None` unless it is below 2^63, so that it fits a signed number too.
#[inline]
pub fn short_sum(a: u64, b: u64) -> Option<u64>
    ensures { SomeIff result (a + b < signed_limit) (a + b) }
{
    let sum = a.checked_add(b)?;
    if sum < 1 << 63 { Some(sum) } else { None }
}

/// The sum x a + y b; `None` if it is above `limit`.
pub fn sum_within(x: u64, a: u64, y: u64, b: u64, limit: u64) -> Option<u64>
    ensures some { IfSome result (λ s. (s ≡ x * a + y * b) × (s ≤ limit)) }
    ensures none { IfNone result (¬ (x * a + y * b ≤ limit)) }
{
    let sum = x.checked_mul(a)?.checked_add(y.checked_mul(b)?)?;
    if sum <= limit { Some(sum) } else { None }
}
