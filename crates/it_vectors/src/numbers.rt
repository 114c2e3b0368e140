//! A step's operations on the numbers of a row in 64 bits.
//! The loops go by index, since their invariants are about the numbers at the first k places.
ghost use Rattle.std.specs.Prelude.{◌≡◌, ℕ, ◌+◌, ◌*◌, ◌<◌, ◌≤◌, ◌+ℤ◌, ◌*ℤ◌, neg_ℤ, pos, length, unsigned_abs, SomeIff};
ghost use Prim.Native.Nat.{◌∣◌};
ghost use Rattle.std.specs.Bool.{OnTrue};
ghost use Rattle.std.specs.Option.{IfNone, IfSome};
ghost use Rattle.it_vectors.specs.Sizes.{AreShort, AreAtMost};
ghost use Rattle.it_vectors.specs.Places.{AreNextPlaces, IsNextPlace};
ghost use Rattle.it_vectors.specs.Combinations.{combined_number, IsBound, IsCombined};
ghost use Rattle.it_vectors.specs.Divisors.{DividesAll};
ghost use Rattle.it_space.specs.Sums.{number_at};
ghost use Rattle.it_number.specs.Limit.{signed_limit};

use crate::arithmetic::{narrow_difference, sum_within};
use crate::divisors::Divisor;
use std::marker::Model;

/// A row whose multiples are subtracted from other rows.
#[derive(Drop)]
pub struct Subtrahend<'a> {
    numbers: &'a [i64],
    // the next places where the row isn't 0
    next: &'a [usize],
    // a bound on the absolute values of the numbers
    most: u64,
}

impl<'a> Model for Subtrahend<'a> {
    ghost use Rattle.std.specs.Prelude.{List, ℤ};
    ghost use Rattle.it_vectors.specs.Sizes.{AreAtMost};
    ghost use Rattle.it_vectors.specs.Places.{AreNextPlaces};

    ghost Value = { List ℤ };

    ghost view = { λ r. r.numbers.now };

    ghost invariant = { λ r. (AreAtMost r.numbers.now r.most) × (AreNextPlaces r.numbers.now r.next.now) };
}

impl<'a> Subtrahend<'a> {
    /// The row of `numbers`, which are at most `most` in absolute value; `next` has the next places where it isn't 0.
    #[inline]
    pub fn new(numbers: &'a [i64], next: &'a [usize], most: u64) -> Subtrahend<'a>
        requires most { AreAtMost numbers.now most }
        requires places { AreNextPlaces numbers.now next.now }
        ensures { result ≡ numbers.now }
    {
        Subtrahend {
            numbers,
            next,
            most,
        }
    }
}

/// The number at place `k` of `row`.
#[inline]
pub fn read(row: &[i64], k: usize) -> i64
    requires { k < length row.now }
    ensures { result ≡ number_at row.now k }
{
    row[k]
}

/// `a` times the number of `row` at place `k`, less `b` times that of `by`; `None` if it is above `limit` in absolute value.
#[inline]
fn next_number(row: &[i64], by: &[i64], k: usize, a: i64, b: i64, limit: u64) -> Option<i64>
    requires k_row { k < length row.now }
    requires k_by { k < length by.now }
    requires row { AreShort row.now }
    requires by { AreShort by.now }
    requires a { unsigned_abs a < signed_limit }
    requires b { unsigned_abs b < signed_limit }
    requires limit { limit < signed_limit }
    ensures { SomeIff result (unsigned_abs (combined_number row.now by.now a b k) ≤ limit) (combined_number row.now by.now a b k) }
{
    narrow_difference(read(row, k), a, read(by, k), b, limit)
}

/// Like `combine`, with each number tested: `false` if one would be above `limit`, and then nothing is known of the row.
#[inline(never)]
fn combine_tested(row: &mut [i64], by: &[i64], a: i64, b: i64, limit: u64) -> bool
    requires even { length row.old ≡ length by.now }
    requires row { AreShort row.old }
    requires by { AreShort by.now }
    requires a { unsigned_abs a < signed_limit }
    requires b { unsigned_abs b < signed_limit }
    requires limit { limit < signed_limit }
    ensures { OnTrue result (IsCombined (length by.now) limit row.old by.now a b row.new) }
{
    for k in 0..row.len() {
        let Some(number) = next_number(row, by, k, a, b, limit) else {
            return false;
        };
        row[k] = number;
    }
    true
}

/// The greatest absolute value in `row`.
pub fn greatest_size(row: &[i64]) -> u64
    ensures { AreAtMost row.now result }
{
    let mut most: u64 = 0;
    for k in 0..row.len() {
        let size = read(row, k).unsigned_abs();
        if most < size {
            most = size;
        }
    }
    most
}

/// A bound on the numbers of `row` times `a` less numbers of at most `y` times `b`: from `most`, the known bound on `row`, or if
/// that gives more than `limit`, from the greatest number of `row`. `None` if that gives more than `limit` too.
fn bound(row: &[i64], most: u64, a: u64, y: u64, b: u64, limit: u64) -> Option<u64>
    requires most { AreAtMost row.now most }
    ensures { IfSome result (λ s. IsBound row.now a y b limit s) }
{
    match sum_within(most, a, y, b, limit) {
        Some(sum) => Some(sum),
        None => sum_within(greatest_size(row), a, y, b, limit),
    }
}

/// The product of `x` and `a`, without overflow checks: it is below 2^63 in absolute value.
#[inline]
fn times(x: i64, a: i64) -> i64
    requires { unsigned_abs (x *ℤ a) < signed_limit }
    ensures { result ≡ x *ℤ a }
{
    x * a
}

/// x - y, without overflow checks: it is below 2^63 in absolute value.
#[inline]
fn minus(x: i64, y: i64) -> i64
    requires { unsigned_abs x + unsigned_abs y < signed_limit }
    ensures { result ≡ x +ℤ neg_ℤ y }
{
    x - y
}

/// x a - y b, without overflow checks: the bound rules overflow out.
#[inline]
pub fn plain_difference(x: i64, a: i64, y: i64, b: i64) -> i64
    requires { unsigned_abs (x *ℤ a) + unsigned_abs (y *ℤ b) < signed_limit }
    ensures { result ≡ x *ℤ a +ℤ neg_ℤ (y *ℤ b) }
{
    minus(times(x, a), times(y, b))
}

/// `a` times the number of `row` at place `k`, less `b` times that of `by`, without overflow checks.
#[inline]
fn plain_number(row: &[i64], by: &[i64], k: usize, a: i64, b: i64) -> i64
    requires k_row { k < length row.now }
    requires k_by { k < length by.now }
    requires bound { unsigned_abs (number_at row.now k *ℤ a) + unsigned_abs (number_at by.now k *ℤ b) < signed_limit }
    ensures { result ≡ number_at row.now k *ℤ a +ℤ neg_ℤ (number_at by.now k *ℤ b) }
{
    plain_difference(read(row, k), a, read(by, k), b)
}

/// The number of `row` at place `k`, less `b` times that of `by`, without overflow checks.
#[inline]
fn less_product(row: &[i64], by: &[i64], k: usize, b: i64) -> i64
    requires k_row { k < length row.now }
    requires k_by { k < length by.now }
    requires bound { unsigned_abs (number_at row.now k) + unsigned_abs (number_at by.now k *ℤ b) < signed_limit }
    ensures { result ≡ number_at row.now k +ℤ neg_ℤ (number_at by.now k *ℤ b) }
{
    minus(read(row, k), times(read(by, k), b))
}

/// Place `k` if `row` isn't 0 there; else `after`, the next place after it where `row` isn't 0.
#[tactic(auto, using(crate::proofs::Places::next_here, crate::proofs::Places::next_null))]
fn next_place(row: &[i64], k: usize, after: usize) -> usize
    requires k { k < length row.now }
    requires after { IsNextPlace row.now (k + 1) after }
    ensures { IsNextPlace row.now k result }
{
    if read(row, k) == 0 { after } else { k }
}

/// Sets `next` to hold for each place the first place from there on where `row` isn't 0, or the length of `row` where there is none.
pub fn note_places(row: &[i64], next: &mut [usize])
    requires { length next.old ≡ length row.now + 1 }
    ensures { AreNextPlaces row.now next.new }
{
    let mut k = row.len();
    next[k] = k;
    // a `while`, which counts down: the invariant is about the places from k on
    while k > 0 {
        k -= 1;
        next[k] = next_place(row, k, next[k + 1]);
    }
}

/// Like `combine`, without overflow checks: the bound rules overflow out.
fn multiply_and_subtract(row: &mut [i64], by: &[i64], a: i64, b: i64)
    requires even { length row.old ≡ length by.now }
    requires bound { (k : ℕ) → k < length by.now → unsigned_abs (number_at row.old k *ℤ a) + unsigned_abs (number_at by.now k *ℤ b) < signed_limit }
    ensures length { length row.new ≡ length row.old }
    ensures entries { (k : ℕ) → k < length by.now → number_at row.new k ≡ number_at row.old k *ℤ a +ℤ neg_ℤ (number_at by.now k *ℤ b) }
{
    for k in 0..row.len() {
        row[k] = plain_number(row, by, k, a, b);
    }
}

/// Like `combine` with factor 1, without overflow checks: the bound rules overflow out. Only places where `by` isn't 0 change.
fn subtract_times(row: &mut [i64], by: &[i64], next: &[usize], b: i64)
    requires even { length row.old ≡ length by.now }
    requires bound { (k : ℕ) → k < length by.now → unsigned_abs (number_at row.old k) + unsigned_abs (number_at by.now k *ℤ b) < signed_limit }
    requires places { AreNextPlaces by.now next.now }
    ensures length { length row.new ≡ length row.old }
    ensures entries { (k : ℕ) → k < length by.now → number_at row.new k ≡ number_at row.old k +ℤ neg_ℤ (number_at by.now k *ℤ b) }
{
    let mut k = next[0];
    while k < row.len() {
        row[k] = less_product(row, by, k, b);
        k = next[k + 1];
    }
}

/// Like `combine`, without overflow checks: the bound rules overflow out.
fn combine_plain(row: &mut [i64], by: &[i64], next: &[usize], a: i64, b: i64)
    requires even { length row.old ≡ length by.now }
    requires bound { (k : ℕ) → k < length by.now → unsigned_abs (number_at row.old k *ℤ a) + unsigned_abs (number_at by.now k *ℤ b) < signed_limit }
    requires places { AreNextPlaces by.now next.now }
    ensures length { length row.new ≡ length row.old }
    ensures entries { (k : ℕ) → k < length by.now → number_at row.new k ≡ number_at row.old k *ℤ a +ℤ neg_ℤ (number_at by.now k *ℤ b) }
{
    if a == 1 {
        subtract_times(row, by, next, b);
    } else {
        multiply_and_subtract(row, by, a, b);
    }
}

/// Multiplies the numbers of `row` by `a` and subtracts `b` times those of `by`; returns a bound on the results. `most` is a bound on
/// the numbers of `row`. `None` if a result would be above `limit` in absolute value: then nothing is known of the row.
pub fn combine(
    row: &mut [i64],
    by: &Subtrahend<'_>,
    a: i64,
    b: i64,
    most: u64,
    limit: u64,
) -> Option<u64>
    requires even { length row.old ≡ length by.now }
    requires row { AreShort row.old }
    requires by { AreShort by.now }
    requires most { AreAtMost row.old most }
    requires a { unsigned_abs a < signed_limit }
    requires b { unsigned_abs b < signed_limit }
    requires limit { limit < signed_limit }
    ensures combined { IfSome result (λ m. IsCombined (length by.now) limit row.old by.now a b row.new) }
    ensures most { IfSome result (λ m. AreAtMost row.new m) }
{
    match bound(
        row,
        most,
        a.unsigned_abs(),
        by.most,
        b.unsigned_abs(),
        limit,
    ) {
        Some(sum) => {
            combine_plain(row, by.numbers, by.next, a, b);
            Some(sum)
        }
        None => {
            if combine_tested(row, by.numbers, a, b, limit) {
                Some(limit)
            } else {
                None
            }
        }
    }
}

/// The greatest common divisor of the numbers of `row` and the denominator `denominator`.
pub fn divisor(row: &[i64], denominator: u64) -> Divisor
    requires { 0 < denominator }
    ensures numbers { DividesAll result.value row.now }
    ensures denominator { result.value ∣ denominator }
{
    let mut shared = Divisor::new(denominator);
    for k in 0..row.len() {
        if shared.is_one() {
            return shared;
        }
        shared = shared.shared_with(read(row, k).unsigned_abs());
    }
    shared
}

/// Divides the numbers of `row` by their common divisor `shared`.
pub fn divide(row: &mut [i64], shared: &Divisor)
    requires row { AreShort row.old }
    requires divides { DividesAll shared.now.value row.old }
    ensures length { length row.new ≡ length row.old }
    ensures entries { (k : ℕ) → k < length row.old → number_at row.new k *ℤ pos shared.now.value ≡ number_at row.old k }
{
    for k in 0..row.len() {
        row[k] = shared.quotient(read(row, k));
    }
}
