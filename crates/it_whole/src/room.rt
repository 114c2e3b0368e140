//! A step on the numbers of a row in 32 bits that may pass the limit on the way, with space for them in 64 bits.
//! The loops go by index, since their invariants are about the numbers at the first k places, and over slices, since only these
//! are vectorized.
ghost use Rattle.std.specs.Prelude.{◌≡◌, ℕ, ◌+◌, ◌<◌, ◌^◌, ◌+ℤ◌, ◌*ℤ◌, neg_ℤ, length, unsigned_abs};
ghost use Rattle.std.specs.Bool.{OnTrue};
ghost use Rattle.std.specs.Option.{IfSome};
ghost use Rattle.it_space.specs.Sums.{number_at};
ghost use Rattle.it_vectors.specs.Combinations.{IsCombined};
ghost use Rattle.it_vectors.specs.Sizes.{AreAtMost, AreShort};
ghost use Rattle.it_whole.specs.Updates.{IsShortened};
ghost use Rattle.it_number.specs.Limit.{signed_limit};

use it_vectors::narrow_numbers::{bound, greatest_size, narrow_number, read};
use it_vectors::numbers::{divide, divisor, plain_difference};

/// The largest signed number of 64 bits, 2^63 - 1.
const LARGEST: u64 = i64::MAX as u64;

/// `a` times the number of `row` at place `k`, less `b` times that of `by`, in 64 bits.
#[inline]
fn wide_number(row: &[i32], by: &[i32], k: usize, a: i64, b: i64) -> i64
    requires k_row { k < length row.now }
    requires k_by { k < length by.now }
    requires bound { unsigned_abs (number_at row.now k *ℤ a) + unsigned_abs (number_at by.now k *ℤ b) < signed_limit }
    ensures { result ≡ number_at row.now k *ℤ a +ℤ neg_ℤ (number_at by.now k *ℤ b) }
{
    plain_difference(i64::from(read(row, k)), a, i64::from(read(by, k)), b)
}

/// Writes to `room` the numbers of `row` times `a`, less those of `by` times `b`.
fn fill(room: &mut [i64], row: &[i32], by: &[i32], a: i64, b: i64)
    requires even { length row.now ≡ length by.now }
    requires room { length room.old ≡ length by.now }
    requires bound { (k : ℕ) → k < length by.now → unsigned_abs (number_at row.now k *ℤ a) + unsigned_abs (number_at by.now k *ℤ b) < signed_limit }
    ensures length { length room.new ≡ length room.old }
    ensures entries { (k : ℕ) → k < length by.now → number_at room.new k ≡ number_at row.now k *ℤ a +ℤ neg_ℤ (number_at by.now k *ℤ b) }
{
    for k in 0..row.len() {
        room[k] = wide_number(row, by, k, a, b);
    }
}

/// Writes the numbers of `room` to `row`; `false` if one is above `limit` in absolute value.
fn write_back(row: &mut [i32], room: &[i64], limit: u64) -> bool
    requires even { length row.old ≡ length room.now }
    requires limit { limit < 2 ^ 31 }
    ensures length { length row.new ≡ length row.old }
    ensures entries { OnTrue result ((k : ℕ) → k < length room.now → number_at row.new k ≡ number_at room.now k) }
    ensures small { OnTrue result (AreAtMost row.new limit) }
{
    for k in 0..row.len() {
        let Some(number) = narrow_number(room, k, limit) else {
            return false;
        };
        row[k] = number;
    }
    true
}

/// Writes to `room` the numbers of `row` times `a`, less those of `by` times `b`. `most_by` is a bound on the numbers of `by`. `false`
/// if a result may be above 2^63 - 1 in absolute value: then `room` is unchanged.
pub fn combine_to(room: &mut [i64], row: &[i32], by: &[i32], most_by: u64, a: i64, b: i64) -> bool
    requires even { length row.now ≡ length by.now }
    requires room { length room.old ≡ length by.now }
    requires most_by { AreAtMost by.now most_by }
    ensures room { length room.new ≡ length room.old }
    ensures combined { OnTrue result (IsCombined (length by.now) 9223372036854775807 row.now by.now a b room.new) }
{
    let most = greatest_size(row);
    let Some(_) = bound(
        row,
        most,
        a.unsigned_abs(),
        most_by,
        b.unsigned_abs(),
        LARGEST,
    ) else {
        return false;
    };
    fill(room, row, by, a, b);
    true
}

/// Divides the numbers of `room` and the denominator `denominator` by a common divisor, and writes the numbers to `row`. Returns the new
/// denominator; `None` if a number is above `limit` in absolute value, and then nothing is known of `row`.
pub fn shorten_to(row: &mut [i32], room: &mut [i64], denominator: u64, limit: u64) -> Option<u64>
    requires even { length row.old ≡ length room.old }
    requires short { AreShort room.old }
    requires some { 0 < denominator }
    requires limit { limit < 2 ^ 31 }
    ensures row { length row.new ≡ length row.old }
    ensures room { length room.new ≡ length room.old }
    ensures shortened { IfSome result (λ left. IsShortened record { numbers = room.old; denominator = denominator } record { numbers = row.new; denominator = left }) }
    ensures small { IfSome result (λ left. AreAtMost row.new limit) }
{
    let shared = divisor(room, denominator);
    divide(room, &shared);
    if write_back(row, room, limit) {
        Some(shared.size_quotient(denominator))
    } else {
        None
    }
}
