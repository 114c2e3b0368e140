//! A step's operations on the numbers of a row in 32 bits.
//! The loops go by index, since their invariants are about the numbers at the first k places, and over slices, since only these
//! are vectorized.
ghost use Rattle.std.specs.Prelude.{◌≡◌, ◌++◌, ◌∷◌, [], ℕ, ◌+◌, ◌*◌, ◌<◌, ◌^◌, ◌+ℤ◌, ◌*ℤ◌, neg_ℤ, pos, length, unsigned_abs, ◌≤◌, ◌≤ℤ◌, SomeIff};
ghost use Prim.Native.Nat.{◌∣◌};
ghost use Rattle.std.specs.Bool.{OnFalse, OnTrue};
ghost use Rattle.std.specs.Option.{IfNone, IfSome};
ghost use Rattle.it_vectors.specs.Quotients.{IsExact, IsSharedPart, IsTold, likely_quotient_of};
ghost use Rattle.it_vectors.specs.Places.{IsNextPlace};
ghost use Rattle.it_vectors.specs.Combinations.{IsBound, IsCombined};
ghost use Rattle.it_vectors.specs.Divisors.{DividesAll};
ghost use Rattle.it_vectors.specs.Stretches.{AreStretches, stretch_length};
ghost use Rattle.it_vectors.specs.StretchesUpTo.{AreStretchesUpTo};
ghost use Rattle.it_space.specs.Sums.{number_at};
ghost use Rattle.it_vectors.specs.Sizes.{AreAtMost};

use crate::arithmetic::sum_within;
use crate::divisors::Divisor;
use std::marker::Model;

/// The largest signed number of 32 bits, 2^31 - 1.
const LARGEST_NARROW: u32 = i32::MAX as u32;

/// A row whose multiples are subtracted from other rows.
#[derive(Drop)]
pub struct Subtrahend<'a> {
    numbers: &'a [i32],
    // where the stretches begin outside of which the row is 0, if that is known
    starts: Option<&'a [usize]>,
    // a bound on the absolute values of the numbers
    most: u64,
}

impl<'a> Model for Subtrahend<'a> {
    ghost use Rattle.std.specs.Prelude.{List, ℤ};
    ghost use Rattle.std.specs.Option.{IfSome};
    ghost use Rattle.it_vectors.specs.Sizes.{AreAtMost};
    ghost use Rattle.it_vectors.specs.Stretches.{AreStretches};

    ghost Value = { List ℤ };

    ghost view = { λ r. r.numbers.now };

    ghost invariant = { λ r. (AreAtMost r.numbers.now r.most) × (IfSome r.starts (λ starts. AreStretches r.numbers.now starts.now)) };
}

impl<'a> Subtrahend<'a> {
    /// The row of `numbers`, which are at most `most` in absolute value; the stretches where it isn't 0 begin at `starts`.
    #[inline]
    pub fn new(numbers: &'a [i32], starts: Option<&'a [usize]>, most: u64) -> Subtrahend<'a>
        requires most { AreAtMost numbers.now most }
        requires stretches { IfSome starts (λ starts. AreStretches numbers.now starts.now) }
        ensures { result ≡ numbers.now }
    {
        Subtrahend {
            numbers,
            starts,
            most,
        }
    }
}

/// The number of `row` at place `k`.
#[inline]
pub fn read(row: &[i32], k: usize) -> i32
    requires { k < length row.now }
    ensures { result ≡ number_at row.now k }
{
    row[k]
}

/// The greatest absolute value in `row`.
pub fn greatest_size(row: &[i32]) -> u64
    ensures { AreAtMost row.now result }
{
    let mut most: u32 = 0;
    for k in 0..row.len() {
        let size = read(row, k).unsigned_abs();
        if most < size {
            most = size;
        }
    }
    u64::from(most)
}

/// The product of `x` and `a`, without overflow checks: it is below 2^31 in absolute value.
#[inline]
fn times(x: i32, a: i32) -> i32
    requires { unsigned_abs (x *ℤ a) < 2 ^ 31 }
    ensures { result ≡ x *ℤ a }
{
    x * a
}

/// x - y, without overflow checks: it is below 2^31 in absolute value.
#[inline]
fn minus(x: i32, y: i32) -> i32
    requires { unsigned_abs x + unsigned_abs y < 2 ^ 31 }
    ensures { result ≡ x +ℤ neg_ℤ y }
{
    x - y
}

/// x a - y b, without overflow checks: the bound rules overflow out.
#[inline]
fn narrow_difference(x: i32, a: i32, y: i32, b: i32) -> i32
    requires { unsigned_abs (x *ℤ a) + unsigned_abs (y *ℤ b) < 2 ^ 31 }
    ensures { result ≡ x *ℤ a +ℤ neg_ℤ (y *ℤ b) }
{
    minus(times(x, a), times(y, b))
}

/// `a` times the number of `row` at place `k`, less `b` times that of `by`, without overflow checks.
#[inline]
fn plain_number(row: &[i32], by: &[i32], k: usize, a: i32, b: i32) -> i32
    requires k_row { k < length row.now }
    requires k_by { k < length by.now }
    requires bound { unsigned_abs (number_at row.now k *ℤ a) + unsigned_abs (number_at by.now k *ℤ b) < 2 ^ 31 }
    ensures { result ≡ number_at row.now k *ℤ a +ℤ neg_ℤ (number_at by.now k *ℤ b) }
{
    narrow_difference(read(row, k), a, read(by, k), b)
}

/// The number of `row` at place `k`, less `b` times that of `by`, without overflow checks.
#[inline]
fn less_product(row: &[i32], by: &[i32], k: usize, b: i32) -> i32
    requires k_row { k < length row.now }
    requires k_by { k < length by.now }
    requires bound { unsigned_abs (number_at row.now k) + unsigned_abs (number_at by.now k *ℤ b) < 2 ^ 31 }
    ensures { result ≡ number_at row.now k +ℤ neg_ℤ (number_at by.now k *ℤ b) }
{
    minus(read(row, k), times(read(by, k), b))
}

/// The number of places in a stretch: two vector operations on four numbers each.
pub const STRETCH: usize = 8;

/// Whether the number of `row` at place `k` is 0.
#[inline]
fn is_null(row: &[i32], k: usize) -> bool
    requires { k < length row.now }
    ensures { OnTrue result (number_at row.now k ≡ pos 0) }
{
    read(row, k) == 0
}

/// Whether the numbers of the stretch that begins at place `from` are all 0. The loop has no early exit, so that it is vectorized.
#[inline]
fn is_null_stretch(row: &[i32], from: usize) -> bool
    requires { from + stretch_length ≤ length row.now }
    ensures { OnTrue result ((k : ℕ) → from ≤ k → k < from + stretch_length → number_at row.now k ≡ pos 0) }
{
    let mut all = true;
    for k in from..from + STRETCH {
        all &= is_null(row, k);
    }
    all
}

/// The first place from `from` on where `row` isn't 0, or the length of `row` where there is none.
fn past_nulls(row: &[i32], from: usize) -> usize
    requires { from ≤ length row.now }
    ensures { IsNextPlace row.now from result }
{
    for k in from..row.len() {
        if !is_null(row, k) {
            return k;
        }
    }
    row.len()
}

/// Appends place `k` to `starts`; `false` if allocation fails.
#[inline]
fn note_place(starts: &mut Vec<usize>, k: usize) -> bool
    ensures { OnTrue result (starts.new.items ≡ starts.old.items ++ k ∷ []) }
{
    starts.push(k).is_ok()
}

/// Appends place `k` to `starts`, unless `row` is 0 in the stretch that begins there; `false` if allocation fails.
#[inline]
fn note_stretch(row: &[i32], k: usize, starts: &mut Vec<usize>) -> bool
    requires stretch { k + stretch_length ≤ length row.now }
    requires noted { AreStretchesUpTo row.now starts.old.items k }
    ensures { OnTrue result (AreStretchesUpTo row.now starts.new.items (k + stretch_length)) }
{
    is_null_stretch(row, k) || note_place(starts, k)
}

/// Sets `starts` to the places where the stretches begin in which `row` isn't 0; its last entry is the first place where the rest
/// of `row`, which is shorter than a stretch, isn't 0 (or the length of `row`). `false` if allocation fails.
pub fn note_stretches(row: &[i32], starts: &mut Vec<usize>) -> bool
    ensures { OnTrue result (AreStretches row.now starts.new.items) }
{
    starts.clear();
    let mut k = 0;
    while row.len() - k >= STRETCH {
        if !note_stretch(row, k, starts) {
            return false;
        }
        k += STRETCH;
    }
    note_place(starts, past_nulls(row, k))
}

/// Like `combine`, without overflow checks: the bound rules overflow out.
fn multiply_and_subtract(row: &mut [i32], by: &[i32], a: i32, b: i32)
    requires even { length row.old ≡ length by.now }
    requires bound { (k : ℕ) → k < length by.now → unsigned_abs (number_at row.old k *ℤ a) + unsigned_abs (number_at by.now k *ℤ b) < 2 ^ 31 }
    ensures length { length row.new ≡ length row.old }
    ensures entries { (k : ℕ) → k < length by.now → number_at row.new k ≡ number_at row.old k *ℤ a +ℤ neg_ℤ (number_at by.now k *ℤ b) }
{
    for k in 0..row.len() {
        row[k] = plain_number(row, by, k, a, b);
    }
}

/// Subtracts `b` times the numbers of `by` from those of `row` at the places from `from` up to `to`, `to` excluded, without overflow
/// checks: the bound rules overflow out.
#[inline(always)]
fn subtract_part(row: &mut [i32], by: &[i32], from: usize, to: usize, b: i32)
    requires even { length row.old ≡ length by.now }
    requires from { from ≤ to }
    requires to { to ≤ length by.now }
    requires bound { (k : ℕ) → from ≤ k → k < to → unsigned_abs (number_at row.old k) + unsigned_abs (number_at by.now k *ℤ b) < 2 ^ 31 }
    ensures length { length row.new ≡ length row.old }
    ensures before { (k : ℕ) → k < from → number_at row.new k ≡ number_at row.old k }
    ensures part { (k : ℕ) → from ≤ k → k < to → number_at row.new k ≡ number_at row.old k +ℤ neg_ℤ (number_at by.now k *ℤ b) }
    ensures after { (k : ℕ) → to ≤ k → number_at row.new k ≡ number_at row.old k }
{
    for k in from..to {
        row[k] = less_product(row, by, k, b);
    }
}

/// The numbers of `row` in the stretch that begins at place `from`, less `b` times those of `by`, without overflow checks: the bound
/// rules overflow out.
#[inline(always)]
fn stretch_less_product(row: &[i32], by: &[i32], from: usize, b: i32) -> [i32; STRETCH]
    requires row { from + stretch_length ≤ length row.now }
    requires by { from + stretch_length ≤ length by.now }
    requires bound { (k : ℕ) → from ≤ k → k < from + stretch_length → unsigned_abs (number_at row.now k) + unsigned_abs (number_at by.now k *ℤ b) < 2 ^ 31 }
    ensures { (k : ℕ) → k < stretch_length → number_at result k ≡ number_at row.now (from + k) +ℤ neg_ℤ (number_at by.now (from + k) *ℤ b) }
{
    let mut numbers = [0; STRETCH];
    for k in 0..STRETCH {
        numbers[k] = less_product(row, by, from + k, b);
    }
    numbers
}

/// Overwrites the stretch of `row` that begins at place `from` with `numbers`.
#[inline(always)]
fn write_stretch(row: &mut [i32], from: usize, numbers: &[i32; STRETCH])
    requires { from + stretch_length ≤ length row.old }
    ensures length { length row.new ≡ length row.old }
    ensures before { (k : ℕ) → k < from → number_at row.new k ≡ number_at row.old k }
    ensures stretch { (k : ℕ) → k < stretch_length → number_at row.new (from + k) ≡ number_at numbers.now k }
    ensures after { (k : ℕ) → from + stretch_length ≤ k → number_at row.new k ≡ number_at row.old k }
{
    for k in 0..STRETCH {
        row[from + k] = numbers[k];
    }
}

/// Like `subtract_part`, for the stretch that begins at place `from`. All its numbers are read before the first is written: only
/// then is the loop vectorized.
#[inline(always)]
fn subtract_stretch(row: &mut [i32], by: &[i32], from: usize, b: i32)
    requires even { length row.old ≡ length by.now }
    requires stretch { from + stretch_length ≤ length by.now }
    requires bound { (k : ℕ) → from ≤ k → k < from + stretch_length → unsigned_abs (number_at row.old k) + unsigned_abs (number_at by.now k *ℤ b) < 2 ^ 31 }
    ensures length { length row.new ≡ length row.old }
    ensures before { (k : ℕ) → k < from → number_at row.new k ≡ number_at row.old k }
    ensures part { (k : ℕ) → from ≤ k → k < from + stretch_length → number_at row.new k ≡ number_at row.old k +ℤ neg_ℤ (number_at by.now k *ℤ b) }
    ensures after { (k : ℕ) → from + stretch_length ≤ k → number_at row.new k ≡ number_at row.old k }
{
    let numbers = stretch_less_product(row, by, from, b);
    write_stretch(row, from, &numbers);
}

/// Like `combine` with factor 1, without overflow checks: the bound rules overflow out. Only stretches where `by` isn't 0 change.
fn subtract_stretches(row: &mut [i32], by: &[i32], starts: &[usize], b: i32)
    requires even { length row.old ≡ length by.now }
    requires bound { (k : ℕ) → k < length by.now → unsigned_abs (number_at row.old k) + unsigned_abs (number_at by.now k *ℤ b) < 2 ^ 31 }
    requires stretches { AreStretches by.now starts.now }
    ensures length { length row.new ≡ length row.old }
    ensures entries { (k : ℕ) → k < length by.now → number_at row.new k ≡ number_at row.old k +ℤ neg_ℤ (number_at by.now k *ℤ b) }
{
    let last = starts.len() - 1;
    for j in 0..last {
        let from = starts[j];
        subtract_stretch(row, by, from, b);
    }
    subtract_part(row, by, starts[last], row.len(), b);
}

/// Subtracts `b` times the numbers of `by` from those of `row`, without overflow checks: by the stretches that begin at `starts` if
/// these are known, else at all places.
#[inline]
fn subtract_noted(row: &mut [i32], by: &[i32], starts: Option<&[usize]>, b: i32)
    requires even { length row.old ≡ length by.now }
    requires bound { (k : ℕ) → k < length by.now → unsigned_abs (number_at row.old k) + unsigned_abs (number_at by.now k *ℤ b) < 2 ^ 31 }
    requires stretches { IfSome starts (λ starts. AreStretches by.now starts.now) }
    ensures length { length row.new ≡ length row.old }
    ensures entries { (k : ℕ) → k < length by.now → number_at row.new k ≡ number_at row.old k +ℤ neg_ℤ (number_at by.now k *ℤ b) }
{
    match starts {
        Some(starts) => subtract_stretches(row, by, starts, b),
        None => subtract_part(row, by, 0, row.len(), b),
    }
}

/// Like `combine`, without overflow checks: the bound rules overflow out.
fn combine_plain(row: &mut [i32], by: &[i32], starts: Option<&[usize]>, a: i32, b: i32)
    requires even { length row.old ≡ length by.now }
    requires bound { (k : ℕ) → k < length by.now → unsigned_abs (number_at row.old k *ℤ a) + unsigned_abs (number_at by.now k *ℤ b) < 2 ^ 31 }
    requires stretches { IfSome starts (λ starts. AreStretches by.now starts.now) }
    ensures length { length row.new ≡ length row.old }
    ensures entries { (k : ℕ) → k < length by.now → number_at row.new k ≡ number_at row.old k *ℤ a +ℤ neg_ℤ (number_at by.now k *ℤ b) }
{
    if a != 1 {
        multiply_and_subtract(row, by, a, b);
    } else {
        subtract_noted(row, by, starts, b);
    }
}

/// A bound on the numbers of `row` times `a` less numbers of at most `y` times `b`: from `most`, the known bound on `row`, or if
/// that gives more than `limit`, from the greatest number of `row`. `None` if that gives more than `limit` too.
pub fn bound(row: &[i32], most: u64, a: u64, y: u64, b: u64, limit: u64) -> Option<u64>
    requires most { AreAtMost row.now most }
    ensures { IfSome result (λ s. IsBound row.now a y b limit s) }
{
    match sum_within(most, a, y, b, limit) {
        Some(sum) => Some(sum),
        None => sum_within(greatest_size(row), a, y, b, limit),
    }
}

/// `z` in 32 bits; `None` unless it is below 2^31 in absolute value.
fn narrow_factor(z: i64) -> Option<i32>
    ensures { IfSome result (λ x. x ≡ z) }
{
    if z.unsigned_abs() < 1 << 31 {
        Some(z as i32)
    } else {
        None
    }
}

/// Multiplies the numbers of `row` by `a` and subtracts `b` times those of `by`; returns a bound on the results. `most` is a bound on
/// the numbers of `row`. `None` if the bounds don't show that all results stay within `limit`: then `row` is unchanged.
pub fn combine(
    row: &mut [i32],
    by: &Subtrahend<'_>,
    a: i64,
    b: i64,
    most: u64,
    limit: u64,
) -> Option<u64>
    requires even { length row.old ≡ length by.now }
    requires most { AreAtMost row.old most }
    requires limit { limit < 2 ^ 31 }
    ensures combined { IfSome result (λ m. IsCombined (length by.now) limit row.old by.now a b row.new) }
    ensures most { IfSome result (λ m. AreAtMost row.new m) }
    ensures kept { IfNone result (row.new ≡ row.old) }
{
    let x = narrow_factor(a)?;
    let y = narrow_factor(b)?;
    let sum = bound(
        row,
        most,
        u64::from(x.unsigned_abs()),
        by.most,
        u64::from(y.unsigned_abs()),
        limit,
    )?;
    combine_plain(row, by.numbers, by.starts, x, y);
    Some(sum)
}

/// Like `combine`, for the usual case that `a` is 1 and that the bounds on both rows show that all results stay within `limit`. Else
/// `None`, and `row` is unchanged.
#[inline]
pub fn subtract_multiple(
    row: &mut [i32],
    by: &Subtrahend<'_>,
    a: i64,
    b: i64,
    most: u64,
    limit: u64,
) -> Option<u64>
    requires even { length row.old ≡ length by.now }
    requires most { AreAtMost row.old most }
    requires limit { limit < 2 ^ 31 }
    ensures one { IfSome result (λ m. a ≡ pos 1) }
    ensures combined { IfSome result (λ m. IsCombined (length by.now) limit row.old by.now (pos 1) b row.new) }
    ensures most { IfSome result (λ m. AreAtMost row.new m) }
    ensures kept { IfNone result (row.new ≡ row.old) }
{
    if a != 1 {
        return None;
    }
    let y = narrow_factor(b)?;
    let sum = sum_within(most, 1, by.most, u64::from(y.unsigned_abs()), limit)?;
    subtract_noted(row, by.numbers, by.starts, y);
    Some(sum)
}

/// The number of `room` at place `k`, in 32 bits; `None` if it is above `limit` in absolute value.
#[inline]
pub fn narrow_number(room: &[i64], k: usize, limit: u64) -> Option<i32>
    requires place { k < length room.now }
    requires limit { limit < 2 ^ 31 }
    ensures { SomeIff result (unsigned_abs (number_at room.now k) ≤ limit) (number_at room.now k) }
{
    let number = room[k];
    if number.unsigned_abs() <= limit {
        Some(number as i32)
    } else {
        None
    }
}

/// From an approximate inverse of `odd` modulo 2^32 a closer one, by a step of Newton's iteration.
fn closer_inverse(odd: i32, inverse: i32) -> i32 {
    inverse.wrapping_mul(2i32.wrapping_sub(odd.wrapping_mul(inverse)))
}

/// The inverse of `odd` modulo 2^32, by Newton's iteration (Jebelean, "An Algorithm for Exact Division", 1993); no proof depends on
/// it.
fn inverse_of(odd: i32) -> i32 {
    let first = closer_inverse(odd, odd);
    let second = closer_inverse(odd, first);
    let third = closer_inverse(odd, second);
    closer_inverse(odd, third)
}

/// The likely quotient of `z` by 2^`shift` times a number with this `inverse` modulo 2^32: it is the quotient where that is whole.
#[inline]
fn likely_quotient(z: i32, shift: u32, inverse: i32) -> i32
    requires { shift < 32 }
    ensures { result ≡ likely_quotient_of shift inverse z }
{
    (z >> shift).wrapping_mul(inverse)
}

/// The product of `x` and `a` modulo 2^32.
#[inline]
fn wrapped_product(x: i32, a: i32) -> i32
    ensures { unsigned_abs (x *ℤ a) < 2 ^ 31 → result ≡ x *ℤ a }
{
    x.wrapping_mul(a)
}

/// Whether the likely quotient of `z` is its quotient by `k`. Both tests are always evaluated, so that loops of them are vectorized.
#[inline]
fn is_told(z: i32, k: i32, shift: u32, inverse: i32, most: u32) -> bool
    requires shift { shift < 32 }
    requires most { most * unsigned_abs k < 2 ^ 31 }
    ensures { OnTrue result (likely_quotient_of shift inverse z *ℤ k ≡ z) }
{
    let quotient = likely_quotient(z, shift, inverse);
    let small = quotient.unsigned_abs() <= most;
    let same = wrapped_product(quotient, k) == z;
    small & same
}

/// A number above 0 by which numbers in 32 bits are divided without a division.
#[derive(Drop)]
struct ExactDivisor {
    value: i32,
    // how often 2 divides it
    shift: u32,
    // the inverse modulo 2^32 of what is left without these factors 2; no proof depends on it
    inverse: i32,
    // the largest quotient of a number in 32 bits
    most: u32,
}

impl ExactDivisor {
    /// The divisor `value`.
    fn new(value: i32) -> Option<ExactDivisor>
        requires { pos 1 ≤ℤ value }
        ensures value { IfSome result (λ by. by.value ≡ value) }
        ensures exact { IfSome result (λ by. IsExact by) }
    {
        let shift = value.trailing_zeros();
        if shift >= 32 {
            return None;
        }
        Some(ExactDivisor {
            value,
            shift,
            inverse: inverse_of(value >> shift),
            most: LARGEST_NARROW / value.unsigned_abs(),
        })
    }
}

/// Whether the likely quotients of the numbers at the places from `from` up to `to`, `to` excluded, are their quotients.
fn are_told(row: &[i32], from: usize, to: usize, by: &ExactDivisor) -> bool
    requires from { from ≤ to }
    requires to { to ≤ length row.now }
    requires exact { IsExact by.now }
    ensures { OnTrue result ((j : ℕ) → from ≤ j → j < to → IsTold by.now (number_at row.now j)) }
{
    let mut all = true;
    for j in from..to {
        all &= is_told(read(row, j), by.value, by.shift, by.inverse, by.most);
    }
    all
}

/// Whether `k` divides the numbers at the places from `from` up to `to`, `to` excluded, tested without a division: `true` is
/// certain, `false` isn't.
fn divides_at_once(row: &[i32], from: usize, to: usize, k: i32) -> bool
    requires from { from ≤ to }
    requires to { to ≤ length row.now }
    requires some { pos 1 ≤ℤ k }
    ensures { OnTrue result ((j : ℕ) → from ≤ j → j < to → unsigned_abs k ∣ unsigned_abs (number_at row.now j)) }
{
    match ExactDivisor::new(k) {
        Some(by) => are_told(row, from, to, &by),
        None => false,
    }
}

/// The greatest common divisor of `earlier` and the numbers at the places from `from` up to `to`, `to` excluded.
fn shared_one_by_one(row: &[i32], from: usize, to: usize, earlier: Divisor) -> Divisor
    requires from { from ≤ to }
    requires to { to ≤ length row.now }
    requires some { 0 < earlier.value }
    ensures { IsSharedPart row.now from to earlier.value result.value }
{
    let mut shared = earlier;
    for k in from..to {
        if shared.is_one() {
            return shared;
        }
        shared = shared.shared_with(u64::from(read(row, k).unsigned_abs()));
    }
    shared
}

/// Like `shared_one_by_one`. Mostly the result is `earlier`, and so that is tested first, by a vectorized loop.
fn shared_part(row: &[i32], from: usize, to: usize, earlier: Divisor) -> Divisor
    requires from { from ≤ to }
    requires to { to ≤ length row.now }
    requires some { 0 < earlier.value }
    ensures { IsSharedPart row.now from to earlier.value result.value }
{
    if earlier.value < 1 << 31 && divides_at_once(row, from, to, earlier.value as i32) {
        earlier
    } else {
        shared_one_by_one(row, from, to, earlier)
    }
}

/// The number of places in a part of a row; a test of a row may stop after each part.
const PART: usize = 64;

/// The end of the part that begins at place `from`, of a row of `length` places.
fn end_of_part(from: usize, length: usize) -> usize
    requires { from < length }
    ensures { (from < result) × (result ≤ length) }
{
    if length - from > PART {
        from + PART
    } else {
        length
    }
}

/// The greatest common divisor of the numbers of `row` and the denominator `denominator`.
pub fn divisor(row: &[i32], denominator: u64) -> Divisor
    requires { 0 < denominator }
    ensures numbers { DividesAll result.value row.now }
    ensures denominator { result.value ∣ denominator }
{
    let mut shared = Divisor::new(denominator);
    let mut from = 0;
    while from < row.len() {
        if shared.is_one() {
            return shared;
        }
        let to = end_of_part(from, row.len());
        shared = shared_part(row, from, to, shared);
        from = to;
    }
    shared
}

/// Whether the likely quotients of all numbers of `row` are their quotients. The test ends after the first part where one isn't.
fn are_all_told(row: &[i32], by: &ExactDivisor) -> bool
    requires exact { IsExact by.now }
    ensures { OnTrue result ((j : ℕ) → j < length row.now → IsTold by.now (number_at row.now j)) }
{
    let mut from = 0;
    while from < row.len() {
        let to = end_of_part(from, row.len());
        if !are_told(row, from, to, by) {
            return false;
        }
        from = to;
    }
    true
}

/// Replaces the numbers by their likely quotients, which are their quotients.
fn divide_as_told(row: &mut [i32], by: &ExactDivisor)
    requires exact { IsExact by.now }
    requires told { (j : ℕ) → j < length row.old → IsTold by.now (number_at row.old j) }
    ensures length { length row.new ≡ length row.old }
    ensures entries { (j : ℕ) → j < length row.old → number_at row.new j *ℤ by.now.value ≡ number_at row.old j }
{
    // read before the loop, so that it is vectorized
    let shift = by.shift;
    let inverse = by.inverse;
    for j in 0..row.len() {
        row[j] = likely_quotient(read(row, j), shift, inverse);
    }
}

/// Divides the numbers of `row` by `k` without a division, by a vectorized loop; `false` if that doesn't give all quotients, and
/// then `row` is unchanged.
pub fn divide_at_once(row: &mut [i32], k: i32) -> bool
    requires { pos 1 ≤ℤ k }
    ensures length { length row.new ≡ length row.old }
    ensures entries { OnTrue result ((j : ℕ) → j < length row.old → number_at row.new j *ℤ k ≡ number_at row.old j) }
    ensures kept { OnFalse result (row.new ≡ row.old) }
{
    let Some(by) = ExactDivisor::new(k) else {
        return false;
    };
    if !are_all_told(row, &by) {
        return false;
    }
    divide_as_told(row, &by);
    true
}

/// Divides the numbers of `row` by their common divisor `shared`, one after the other.
fn divide_each(row: &mut [i32], shared: &Divisor)
    requires divides { DividesAll shared.now.value row.old }
    ensures length { length row.new ≡ length row.old }
    ensures entries { (k : ℕ) → k < length row.old → number_at row.new k *ℤ pos shared.now.value ≡ number_at row.old k }
{
    for k in 0..row.len() {
        row[k] = narrow_quotient(read(row, k), shared);
    }
}

/// Divides the numbers of `row` by their common divisor `shared`.
pub fn divide(row: &mut [i32], shared: &Divisor)
    requires divides { DividesAll shared.now.value row.old }
    ensures length { length row.new ≡ length row.old }
    ensures entries { (k : ℕ) → k < length row.old → number_at row.new k *ℤ pos shared.now.value ≡ number_at row.old k }
{
    if shared.value < 1 << 31 && divide_at_once(row, shared.value as i32) {
        return;
    }
    divide_each(row, shared);
}

/// The quotient of `z` by `shared`, which divides it.
#[inline]
fn narrow_quotient(z: i32, shared: &Divisor) -> i32
    requires some { 0 < shared.now.value }
    requires divides { shared.now.value ∣ unsigned_abs z }
    ensures { result *ℤ pos shared.now.value ≡ z }
{
    shared.quotient(i64::from(z)) as i32
}
