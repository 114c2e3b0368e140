//! Blocks of degenerate steps: their rows, which of these moved since the block began, and working space.
ghost use Rattle.std.specs.Prelude.{◌≡◌, ◌+◌, ◌<◌, ◌≤◌, ℕ, pos, [], length, cond, false, true, slice_index_or, slice_set, IfOk, OnOk};
ghost use Rattle.std.specs.Bool.{OnFalse, OnTrue};
ghost use Rattle.it_engine.specs.Behind.{AreMovedEntries, AreMovedInOrder, has_moved};
ghost use Rattle.it_whole.specs.ColumnTerms.{Suits};
ghost use Rattle.it_engine.specs.Choosing.{entry_of, is_above_zero as is_above_zero_of};
ghost use Rattle.it_engine.specs.Engine.{HasRoom};
ghost use Rattle.it_engine.specs.PivotedRows.{SuitsAll};
ghost use Rattle.it_vectors.specs.Sizes.{AreAtMost};
ghost use Rattle.it_engine.specs.Tables.{whole_row_at};
ghost use Rattle.it_space.specs.Sums.{number_at};
ghost use Rattle.it_number.specs.Limit.{signed_limit};

use crate::choice::is_above_zero;
use it_whole::{Column, WholeRow};
use std::alloc::{AllocError, Global};

/// The data that doesn't change during a run.
#[derive(Drop)]
pub struct Run<'a> {
    /// The allocator.
    pub alloc: Global,
    /// The columns of the start but the artificial ones.
    pub columns: &'a [Column],
    /// A bound on the absolute values of the rows' numbers.
    pub limit: u64,
    /// A bound on the weights of the columns: the sums of their entries' absolute values.
    pub norm: u64,
}

/// The rows between two steps of a block, some of which stay behind.
#[derive(Drop)]
pub struct Block<'a> {
    /// All rows, the cost row last.
    pub rows: &'a [WholeRow],
    /// The basic column of each row but the cost row.
    pub basis: &'a [usize],
    /// Whether each row moved since the block of steps began.
    pub moved: &'a [bool],
    /// The rows that moved, without the cost row, in ascending order.
    pub order: &'a [usize],
}

/// Which rows moved since a block of steps began.
#[derive(Drop)]
pub struct Moves<'a> {
    /// The basic column of each row but the cost row.
    pub basis: &'a [usize],
    /// Whether each row moved.
    pub moved: &'a [bool],
    /// The rows that moved, without the cost row, in ascending order.
    pub order: &'a [usize],
}

/// Working space of a pivot. Between two calls only its size is known.
#[derive(Drop)]
pub struct Scratch {
    /// For rows in 64 bits: for each place of the leaving row, the next place where it isn't 0.
    pub next: Vec<usize>,
    /// Space for a row in 64 bits.
    pub room: Vec<i64>,
}

/// Working space of the steps. Between two calls only its size is known.
#[derive(Drop)]
pub struct Notes {
    /// That of each pivot.
    pub scratch: Scratch,
    /// The entries of the rows at the entering column.
    pub entries: Vec<i64>,
    /// Whether each row moved since the block began.
    pub moved: Vec<bool>,
    /// The rows that moved, without the cost row, in ascending order.
    pub order: Vec<usize>,
    /// The column at which rows that stay behind are priced.
    pub combined: Column,
}

impl Notes {
    /// Working space for `height` rows and the cost row.
    pub fn new(alloc: Global, height: usize) -> Result<Notes, AllocError>
        requires { height < signed_limit }
        ensures { IfOk result (HasRoom height) }
    {
        let next = Vec::from_elem(alloc, 0, height + 2)?;
        let room = Vec::from_elem(alloc, 0, height + 1)?;
        let entries = Vec::from_elem(alloc, 0, height + 1)?;
        let moved = Vec::from_elem(alloc, false, height + 1)?;
        Ok(Notes {
            scratch: Scratch { next, room },
            entries,
            moved,
            order: Vec::new(alloc),
            combined: Column::empty(alloc),
        })
    }
}

/// Whether row `i` moved.
#[inline]
pub fn moved_at(moved: &[bool], i: usize) -> bool
    requires { i < length moved.now }
    ensures { result ≡ has_moved moved.now i }
{
    moved[i]
}

/// The row at place `k` of `order`.
#[inline]
pub fn row_at(order: &[usize], k: usize) -> usize
    requires { k < length order.now }
    ensures { result ≡ slice_index_or order.now k 0 }
{
    order[k]
}

/// The denominator of row `i`.
#[inline]
pub fn denominator_at(rows: &[WholeRow], i: usize) -> u64
    requires { i < length rows.now }
    ensures { result ≡ (whole_row_at rows.now i).denominator }
{
    rows[i].denominator()
}

/// A bound on the numbers of row `i`.
#[inline]
pub fn most_at(rows: &[WholeRow], i: usize) -> u64
    requires { i < length rows.now }
    ensures { AreAtMost (whole_row_at rows.now i).numbers result }
{
    rows[i].most()
}

/// A closer bound on the numbers of row `i`.
pub fn closer_most_at(rows: &[WholeRow], i: usize) -> u64
    requires { i < length rows.now }
    ensures { AreAtMost (whole_row_at rows.now i).numbers result }
{
    rows[i].closer_most()
}

/// The entry of row `i` at `column`, as a numerator over the row's denominator.
#[inline]
pub fn entry_at(column: &Column, rows: &[WholeRow], i: usize) -> i64
    requires row { i < length rows.now }
    requires suits { Suits column.now (whole_row_at rows.now i).numbers }
    ensures { result ≡ entry_of column.now rows.now i }
{
    column.price(&rows[i])
}

/// Whether the entry of row `i` at `column` is above 0.
#[inline]
pub fn is_above_at(column: &Column, rows: &[WholeRow], i: usize) -> bool
    requires row { i < length rows.now }
    requires suits { Suits column.now (whole_row_at rows.now i).numbers }
    ensures { result ≡ is_above_zero_of (entry_of column.now rows.now i) }
{
    is_above_zero(entry_at(column, rows, i))
}

/// The basic column of row `q`, which isn't artificial.
pub fn basic_column<'a>(columns: &'a [Column], basis: &[usize], q: usize) -> &'a Column
    requires q { q < length basis.now }
    requires within { slice_index_or basis.now q 0 < length columns.now }
    ensures { result.now ≡ slice_index_or columns.now (slice_index_or basis.now q 0) [] }
{
    &columns[basis[q]]
}

/// The entry of row `i` at `column` if the row moved, else 0.
#[inline]
fn moved_entry(column: &Column, rows: &[WholeRow], moved: &[bool], i: usize) -> i64
    requires row { i < length rows.now }
    requires even { length moved.now ≡ length rows.now }
    requires suits { SuitsAll column.now rows.now }
    ensures { result ≡ cond (has_moved moved.now i) (entry_of column.now rows.now i) (pos 0) }
{
    if moved_at(moved, i) {
        entry_at(column, rows, i)
    } else {
        0
    }
}

/// Sets all entries to 0.
fn clear_entries(entries: &mut [i64])
    ensures length { length entries.new ≡ length entries.old }
    ensures null { (i : ℕ) → number_at entries.new i ≡ pos 0 }
{
    for i in 0..entries.len() {
        entries[i] = 0;
    }
}

/// Sets `entries` to the entries at `column` of the rows that moved, the cost row among them, and to 0 for all other rows.
pub fn note_moved_entries(column: &Column, block: &Block<'_>, entries: &mut [i64])
    requires even { length entries.old ≡ length block.now.rows.now }
    requires moved { length block.now.moved.now ≡ length block.now.rows.now }
    requires height { length block.now.rows.now ≡ length block.now.basis.now + 1 }
    requires order { AreMovedInOrder block.now.moved.now (length block.now.basis.now) block.now.order.now }
    requires suits { SuitsAll column.now block.now.rows.now }
    ensures { AreMovedEntries column.now block.now.rows.now block.now.moved.now entries.new }
{
    clear_entries(entries);
    for k in 0..block.order.len() {
        let q = row_at(block.order, k);
        entries[q] = entry_at(column, block.rows, q);
    }
    let last = block.basis.len();
    entries[last] = moved_entry(column, block.rows, block.moved, last);
}

/// The first place of `order` from which on no row is before `r`.
fn place_of(order: &[usize], r: usize) -> usize
    ensures within { result ≤ length order.now }
    ensures before { (k : ℕ) → k < result → slice_index_or order.now k 0 < r }
    ensures after { result < length order.now → r ≤ slice_index_or order.now result 0 }
{
    for k in 0..order.len() {
        if row_at(order, k) >= r {
            return k;
        }
    }
    order.len()
}

/// Whether `order` has row `r` at `place`.
#[inline]
fn stands_at(order: &[usize], place: usize, r: usize) -> bool
    ensures yes { OnTrue result ((place < length order.now) × (slice_index_or order.now place 0 ≡ r)) }
    ensures no { OnFalse result (place < length order.now → ¬ (slice_index_or order.now place 0 ≡ r)) }
{
    place < order.len() && row_at(order, place) == r
}

/// Marks row `r` as moved.
pub fn note_moved(moved: &mut [bool], order: &mut Vec<usize>, r: usize) -> Result<(), AllocError>
    requires { r < length moved.old }
    ensures moved { OnOk result (moved.new ≡ slice_set moved.old r true) }
    ensures order { OnOk result ((height : ℕ) → r < height → AreMovedInOrder moved.old height order.old.items → AreMovedInOrder moved.new height order.new.items) }
{
    moved[r] = true;
    let place = place_of(order.as_slice(), r);
    if stands_at(order.as_slice(), place, r) {
        return Ok(());
    }
    order.insert(place, r)?;
    Ok(())
}

/// Marks the cost row, which comes last, as moved, and all other rows as not moved.
pub fn note_none_moved(moved: &mut [bool], order: &mut Vec<usize>, height: usize)
    requires { length moved.old ≡ height + 1 }
    ensures length { length moved.new ≡ length moved.old }
    ensures moved { (i : ℕ) → i < height → has_moved moved.new i ≡ false }
    ensures cost { has_moved moved.new height ≡ true }
    ensures order { AreMovedInOrder moved.new height order.new.items }
{
    for i in 0..height {
        moved[i] = false;
    }
    moved[height] = true;
    order.clear();
}
