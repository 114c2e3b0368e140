//! The leaving row of a degenerate step.
ghost use Rattle.std.specs.Prelude.{◌≡◌, ◌+◌, ◌<◌, ◌≤◌, ◌*ℤ◌, neg_ℤ, ℕ, pos, Bool, List, [], length, false, slice_index_or, IfOk, OnOk};
ghost use Rattle.std.specs.Bool.{OnFalse, OnTrue};
ghost use Rattle.std.specs.Option.{IfSome};
ghost use Rattle.it_engine.specs.Behind.{AreBaseBounds, AreMovedInOrder, AreRanked, AreStillRows, column_behind, ComesBefore, has_moved, HasZeroRatio, HaveEntered, IsFirstOf, MayLeave, SuitsBehind, TakesRow};
ghost use Rattle.it_whole.specs.ColumnTerms.{multiple_of_terms};
ghost use Rattle.it_engine.specs.Choosing.{right_side_of};
ghost use Rattle.it_engine.specs.Tables.{whole_row_at};
ghost use Rattle.it_space.specs.Sums.{number_at};
ghost use Rattle.it_number.specs.Limit.{signed_limit};

use crate::blocks::{
    Block, basic_column, closer_most_at, denominator_at, is_above_at, moved_at, row_at,
};
use crate::choice::{is_above_zero, right_side};
use crate::shares::share_at;
use it_vectors::{is_zero, narrow, product, read};
use it_whole::{Column, GaveUp, WholeRow};
use std::alloc::{AllocError, Global};

/// The largest number of the engine, 2^63 - 1.
const LARGEST: u64 = i64::MAX as u64;

/// Facts of the rows, found when a block of steps begins.
#[derive(Drop)]
pub struct Base {
    /// A bound on the numbers and the denominators of the rows that stay behind.
    pub bound: u64,
    /// The rows with right side 0, by ascending basic column.
    pub ranked: Vec<usize>,
}

/// Whether the right side of row `i`, which is at `place`, is 0.
#[inline]
fn is_still(rows: &[WholeRow], place: usize, i: usize) -> bool
    requires rows { i < length rows.now }
    requires place { place < length (whole_row_at rows.now i).numbers }
    ensures yes { OnTrue result (right_side_of place rows.now i ≡ pos 0) }
    ensures no { OnFalse result (¬ (right_side_of place rows.now i ≡ pos 0)) }
{
    is_zero(right_side(rows, i, place))
}

/// `bound`, extended to the numbers and the denominator of row `i` if it stays behind.
fn more_bound(rows: &[WholeRow], moved: &[bool], i: usize, bound: u64) -> u64
    requires rows { i < length rows.now }
    requires moved { i < length moved.now }
    requires bound { AreBaseBounds bound bound rows.now moved.now i }
    ensures { AreBaseBounds result result rows.now moved.now (i + 1) }
{
    if moved_at(moved, i) {
        bound
    } else {
        bound
            .max(closer_most_at(rows, i))
            .max(denominator_at(rows, i))
    }
}

/// A bound on the numbers and the denominators of the rows below `height` that stay behind.
fn bound_behind(rows: &[WholeRow], moved: &[bool], height: usize) -> u64
    requires rows { height ≤ length rows.now }
    requires moved { height ≤ length moved.now }
    ensures { AreBaseBounds result result rows.now moved.now height }
{
    let mut bound: u64 = 0;
    for i in 0..height {
        bound = more_bound(rows, moved, i, bound);
    }
    bound
}

/// The basic column of row `i`, 0 past the last row.
#[inline]
fn column_of(basis: &[usize], i: usize) -> usize
    ensures { result ≡ slice_index_or basis.now i 0 }
{
    basis.get(i).copied().unwrap_or(0)
}

/// The rows below `height` with right side 0, in ascending order.
fn still_rows(alloc: Global, rows: &[WholeRow], height: usize) -> Result<Vec<usize>, AllocError>
    requires rows { height ≤ length rows.now }
    requires places { (i : ℕ) → i < height → height < length (whole_row_at rows.now i).numbers }
    ensures { IfOk result (λ still. AreStillRows rows.now height height still.items) }
{
    let mut still = Vec::new(alloc);
    for i in 0..height {
        if is_still(rows, height, i) {
            still.push(i)?;
        }
    }
    Ok(still)
}

/// The rows with right side 0, by ascending basic column.
fn ranked_rows(alloc: Global, rows: &[WholeRow], basis: &[usize]) -> Result<Vec<usize>, AllocError>
    requires rows { length basis.now ≤ length rows.now }
    requires places { (i : ℕ) → i < length basis.now → length basis.now < length (whole_row_at rows.now i).numbers }
    ensures { IfOk result (λ ranked. (moved : List Bool) → AreRanked rows.now basis.now moved (length basis.now) ranked.items) }
{
    let mut ranked = still_rows(alloc, rows, basis.len())?;
    ranked.sort_unstable_by_key(|i| column_of(basis, *i));
    Ok(ranked)
}

/// The base of a block of steps that begins with these rows.
pub fn begin_base(
    alloc: Global,
    rows: &[WholeRow],
    basis: &[usize],
    moved: &[bool],
) -> Result<Base, AllocError>
    requires rows { length basis.now ≤ length rows.now }
    requires moved { length basis.now ≤ length moved.now }
    requires places { (i : ℕ) → i < length basis.now → length basis.now < length (whole_row_at rows.now i).numbers }
    ensures bound { IfOk result (λ base. AreBaseBounds base.bound base.bound rows.now moved.now (length basis.now)) }
    ensures ranked { IfOk result (λ base. AreRanked rows.now basis.now moved.now (length basis.now) base.ranked.items) }
{
    let ranked = ranked_rows(alloc, rows, basis)?;
    let bound = bound_behind(rows, moved, basis.len());
    Ok(Base { bound, ranked })
}

/// Subtracts from the combined column the basic column of row `q`, which moved, times the row's entry and its share of `multiple`.
fn less_moved(
    combined: &mut Column,
    columns: &[Column],
    block: &Block<'_>,
    entries: &[i64],
    q: usize,
    multiple: u64,
) -> Result<(), GaveUp>
    requires rows { q < length block.now.rows.now }
    requires basis { q < length block.now.basis.now }
    requires entered { slice_index_or block.now.basis.now q 0 < length columns.now }
    requires entries { q < length entries.now }
    requires some { 0 < (whole_row_at block.now.rows.now q).denominator }
    requires low { multiple < signed_limit }
    ensures { OnOk result (TakesRow columns.now block.now.rows.now block.now.basis.now entries.now multiple q combined.old combined.new) }
{
    let entry = read(entries, q);
    if is_zero(entry) {
        return Ok(());
    }
    let Some(taken) = taken_times(entry, share_at(block.rows, q, multiple)) else {
        return Err(GaveUp::TooLarge);
    };
    combined.add_multiple(basic_column(columns, block.basis, q), taken)
}

/// The negated product of `entry` and `share`; `None` unless it is below 2^63 in absolute value.
fn taken_times(entry: i64, share: u64) -> Option<i64>
    requires { share < signed_limit }
    ensures { IfSome result (λ z. z ≡ neg_ℤ (entry *ℤ pos share)) }
{
    let taken = narrow(product(entry, share as i64), LARGEST)?;
    Some(-taken)
}

/// Sets the combined column to `multiple` times `column`, which enters.
fn begin_combined(
    combined: &mut Column,
    columns: &[Column],
    column: usize,
    multiple: u64,
) -> Result<(), GaveUp>
    requires column { column < length columns.now }
    requires low { multiple < signed_limit }
    ensures { OnOk result (combined.new ≡ multiple_of_terms (pos multiple) (slice_index_or columns.now column [])) }
{
    combined.clear();
    combined.add_multiple(&columns[column], multiple as i64)
}

/// Sets the combined column to the one at which a row that stays behind has `multiple` times the number that it would have at `column`
/// if it were up to date.
pub fn combine_columns(
    combined: &mut Column,
    columns: &[Column],
    block: &Block<'_>,
    entries: &[i64],
    column: usize,
    multiple: u64,
) -> Result<(), GaveUp>
    requires column { column < length columns.now }
    requires rows { length block.now.basis.now ≤ length block.now.rows.now }
    requires order { AreMovedInOrder block.now.moved.now (length block.now.basis.now) block.now.order.now }
    requires entered { HaveEntered columns.now block.now.basis.now block.now.moved.now }
    requires entries { length block.now.basis.now ≤ length entries.now }
    requires some { (i : ℕ) → i < length block.now.rows.now → 0 < (whole_row_at block.now.rows.now i).denominator }
    requires low { multiple < signed_limit }
    ensures { OnOk result (combined.new ≡ column_behind columns.now block.now.rows.now block.now.basis.now block.now.moved.now entries.now multiple column) }
{
    begin_combined(combined, columns, column, multiple)?;
    for k in 0..block.order.len() {
        let q = row_at(block.order, k);
        less_moved(combined, columns, block, entries, q, multiple)?;
    }
    Ok(())
}

/// Whether there is a `best` row so far, and its basic column isn't above that of row `i`.
#[inline(always)]
fn comes_before(best: Option<usize>, basis: &[usize], i: usize) -> bool
    requires best { IfSome best (λ r. r < length basis.now) }
    requires row { i < length basis.now }
    ensures yes { OnTrue result (ComesBefore basis.now best i) }
    ensures no { OnFalse result (¬ (ComesBefore basis.now best i)) }
{
    match best {
        Some(r) => basis[r] <= basis[i],
        None => false,
    }
}

/// Whether row `q`, by its entry in `entries` and its right side at `place`, may leave with ratio 0.
#[inline]
fn has_zero_ratio(rows: &[WholeRow], entries: &[i64], place: usize, q: usize) -> bool
    requires rows { q < length rows.now }
    requires entries { q < length entries.now }
    requires place { place < length (whole_row_at rows.now q).numbers }
    ensures yes { OnTrue result (HasZeroRatio rows.now entries.now place q) }
    ensures no { OnFalse result (¬ (HasZeroRatio rows.now entries.now place q)) }
{
    if !is_above_zero(read(entries, q)) {
        return false;
    }
    is_still(rows, place, q)
}

/// Of `best`, the best row so far, and row `q`, if it may leave by its entry in `entries`, the one with the least basic column.
#[inline(always)]
fn earlier_row(best: Option<usize>, block: &Block<'_>, entries: &[i64], q: usize) -> Option<usize>
    requires best { IfSome best (λ r. r < length block.now.basis.now) }
    requires row { q < length block.now.basis.now }
    requires rows { length block.now.basis.now < length block.now.rows.now }
    requires entries { q < length entries.now }
    requires place { length block.now.basis.now < length (whole_row_at block.now.rows.now q).numbers }
    ensures { IsFirstOf block.now.basis.now (HasZeroRatio block.now.rows.now entries.now (length block.now.basis.now)) q best → IsFirstOf block.now.basis.now (HasZeroRatio block.now.rows.now entries.now (length block.now.basis.now)) (q + 1) result }
{
    if comes_before(best, block.basis, q) {
        return best;
    }
    if has_zero_ratio(block.rows, entries, block.basis.len(), q) {
        Some(q)
    } else {
        best
    }
}

/// Of the rows that moved and may leave with ratio 0, the one with the least basic column.
fn first_moved_to_leave(block: &Block<'_>, entries: &[i64]) -> Option<usize>
    requires rows { length block.now.basis.now < length block.now.rows.now }
    requires order { AreMovedInOrder block.now.moved.now (length block.now.basis.now) block.now.order.now }
    requires entries { length block.now.basis.now ≤ length entries.now }
    requires others { (i : ℕ) → has_moved block.now.moved.now i ≡ false → number_at entries.now i ≡ pos 0 }
    requires places { (i : ℕ) → i < length block.now.basis.now → length block.now.basis.now < length (whole_row_at block.now.rows.now i).numbers }
    ensures { IsFirstOf block.now.basis.now (HasZeroRatio block.now.rows.now entries.now (length block.now.basis.now)) (length block.now.basis.now) result }
{
    let mut best: Option<usize> = None;
    for k in 0..block.order.len() {
        let q = row_at(block.order, k);
        best = earlier_row(best, block, entries, q);
    }
    best
}

/// Of the rows that may leave with ratio 0, the one with the least basic column. Those that stay behind are visited by ascending basic
/// column, and only as long as it is below that of the best row that moved.
pub fn first_to_leave(
    block: &Block<'_>,
    ranked: &[usize],
    entries: &[i64],
    combined: &Column,
) -> Option<usize>
    requires rows { length block.now.basis.now < length block.now.rows.now }
    requires moved { length block.now.basis.now ≤ length block.now.moved.now }
    requires order { AreMovedInOrder block.now.moved.now (length block.now.basis.now) block.now.order.now }
    requires ranked { AreRanked block.now.rows.now block.now.basis.now block.now.moved.now (length block.now.basis.now) ranked.now }
    requires entries { length block.now.basis.now ≤ length entries.now }
    requires others { (i : ℕ) → has_moved block.now.moved.now i ≡ false → number_at entries.now i ≡ pos 0 }
    requires suits { SuitsBehind combined.now block.now.rows.now block.now.moved.now (length block.now.basis.now) }
    requires places { (i : ℕ) → i < length block.now.basis.now → length block.now.basis.now < length (whole_row_at block.now.rows.now i).numbers }
    ensures { IsFirstOf block.now.basis.now (MayLeave block.now.rows.now block.now.moved.now entries.now combined.now (length block.now.basis.now)) (length block.now.basis.now) result }
{
    let best = first_moved_to_leave(block, entries);
    for k in 0..ranked.len() {
        let i = row_at(ranked, k);
        if moved_at(block.moved, i) {
            continue;
        }
        if comes_before(best, block.basis, i) {
            return best;
        }
        if is_above_at(combined, block.rows, i) {
            return Some(i);
        }
    }
    best
}
