//! The entering column, the entries of the rows there, and the leaving row.
ghost use Rattle.std.specs.Prelude.{◌≡◌, ◌+◌, ◌<◌, ℕ, length};
ghost use Rattle.std.specs.Option.{IfNone, IfSome};
ghost use Rattle.it_engine.specs.Choosing.{AreEntries, best_after_row, basic_column_at, best_row_below, comes_first as comes_first_of, entry_of, first_negative_cost, is_above_zero as is_above_zero_of, is_earlier as is_earlier_of, right_side_of};
ghost use Rattle.it_engine.specs.PivotedRows.{AllSuit, SuitsAll};
ghost use Rattle.it_engine.specs.Tables.{whole_row_at};
ghost use Rattle.it_rational.specs.Rational.{sign_least};
ghost use Rattle.it_space.specs.Sums.{number_at};

use it_vectors::{product, read};
use it_whole::{Column, WholeRow};

/// Whether `z` is above 0.
pub fn is_above_zero(z: i64) -> bool
    ensures { result ≡ is_above_zero_of z }
{
    z > 0
}

/// Whether `z` is at least 0.
pub fn is_at_least_zero(z: i64) -> bool
    ensures { result ≡ sign_least z }
{
    z >= 0
}

/// Whether `left` is below `right`, or equal to it with `d` below `f`.
#[tactic(auto, using(crate::proofs::Signs::order_less, crate::proofs::Signs::order_same, crate::proofs::Signs::order_more))]
fn is_earlier(left: i128, right: i128, d: usize, f: usize) -> bool
    ensures { result ≡ is_earlier_of left right d f }
{
    if left < right {
        true
    } else if left == right {
        d < f
    } else {
        false
    }
}

/// Whether the ratio b / x with basic column `d` comes before e / y with basic column `f`.
pub fn comes_first(b: i64, x: i64, d: usize, e: i64, y: i64, f: usize) -> bool
    ensures { result ≡ comes_first_of b x d e y f }
{
    is_earlier(product(b, y), product(e, x), d, f)
}

/// The first column with a cost below 0; `None` if there is none.
#[tactic(auto, using(it_run::proofs::SearchLemmas::first_is, it_run::proofs::SearchLemmas::first_none))]
pub fn entering_column(columns: &[Column], cost: &WholeRow) -> Option<usize>
    requires { AllSuit columns.now cost.now.numbers }
    ensures within { IfSome result (λ c. c < length columns.now) }
    ensures some { IfSome result (λ c. first_negative_cost columns.now cost.now.numbers ≡ c) }
    ensures none { IfNone result (first_negative_cost columns.now cost.now.numbers ≡ length columns.now) }
{
    // by index, since the invariant is about the first j columns
    for j in 0..columns.len() {
        if !is_at_least_zero(columns[j].price(cost)) {
            return Some(j);
        }
    }
    None
}

/// The entry of row `i` at `column`, as a numerator over the row's denominator.
fn entry(column: &Column, rows: &[WholeRow], i: usize) -> i64
    requires row { i < length rows.now }
    requires suits { SuitsAll column.now rows.now }
    ensures { result ≡ entry_of column.now rows.now i }
{
    column.price(&rows[i])
}

/// Sets `entries` to the entries of all rows at `column`, so that a step prices each row once.
pub fn note_entries(column: &Column, rows: &[WholeRow], entries: &mut [i64])
    requires even { length entries.old ≡ length rows.now }
    requires suits { SuitsAll column.now rows.now }
    ensures { AreEntries column.now rows.now entries.new }
{
    // by index, since the invariant is about the first i rows
    for i in 0..rows.len() {
        entries[i] = entry(column, rows, i);
    }
}

/// The right side of row `i`, which is at `place`.
#[inline]
pub fn right_side(rows: &[WholeRow], i: usize, place: usize) -> i64
    requires row { i < length rows.now }
    requires place { place < length (whole_row_at rows.now i).numbers }
    ensures { result ≡ right_side_of place rows.now i }
{
    rows[i].number(place)
}

/// The better of `best`, the best row so far, and row `i`.
fn better_row(
    best: Option<usize>,
    i: usize,
    entries: &[i64],
    rows: &[WholeRow],
    basis: &[usize],
) -> Option<usize>
    requires row { i < length basis.now }
    requires best { IfSome best (λ k. k < length basis.now) }
    requires rows { length rows.now ≡ length basis.now + 1 }
    requires even { (k : ℕ) → k < length rows.now → length (whole_row_at rows.now k).numbers ≡ length rows.now }
    requires entries { length entries.now ≡ length rows.now }
    ensures { result ≡ best_after_row (number_at entries.now) (right_side_of (length basis.now) rows.now) (basic_column_at basis.now) i best }
{
    let entering = read(entries, i);
    if !is_above_zero(entering) {
        return best;
    }
    let Some(k) = best else {
        return Some(i);
    };
    let last = basis.len();
    if comes_first(
        right_side(rows, i, last),
        entering,
        basis[i],
        right_side(rows, k, last),
        read(entries, k),
        basis[k],
    ) {
        Some(i)
    } else {
        Some(k)
    }
}

/// Of the rows with an entry above 0 the one with the least ratio; of several, the one with the least basic column. `entries` has
/// those of all rows at the entering column. `None` if no entry is above 0.
#[tactic(auto, using(crate::proofs::Choices::best_within, crate::proofs::Choices::best_more))]
pub fn leaving_row(entries: &[i64], rows: &[WholeRow], basis: &[usize]) -> Option<usize>
    requires rows { length rows.now ≡ length basis.now + 1 }
    requires even { (k : ℕ) → k < length rows.now → length (whole_row_at rows.now k).numbers ≡ length rows.now }
    requires entries { length entries.now ≡ length rows.now }
    ensures value { result ≡ best_row_below (number_at entries.now) (right_side_of (length basis.now) rows.now) (basic_column_at basis.now) (length basis.now) }
    ensures within { IfSome result (λ r. r < length basis.now) }
{
    let mut best: Option<usize> = None;
    for i in 0..basis.len() {
        best = better_row(best, i, entries, rows, basis);
    }
    best
}
