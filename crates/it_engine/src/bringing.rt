//! Bringing rows that stayed behind up to date.
ghost use Rattle.std.specs.Prelude.{◌≡◌, ◌+◌, ◌<◌, ℕ, pos, length, false, true, slice_index_or};
ghost use Rattle.std.specs.Bool.{OnTrue};
ghost use Rattle.std.specs.Option.{IfSome};
ghost use Rattle.it_engine.specs.Behind.{AreBrought, AreMovedInOrder, AreMovedUsable, AreShortened, has_moved, HaveEntered, IsBrought, IsLessMoved, IsLessRow, IsRowBrought};
ghost use Rattle.it_engine.specs.PivotedRows.{AreFitting, AreUsable, IsFitting};
ghost use Rattle.it_vectors.specs.Sizes.{AreShort};
ghost use Rattle.it_whole.specs.WholeRows.{IsUsable};
ghost use Rattle.it_engine.specs.Tables.{whole_row_at};
ghost use Rattle.it_number.specs.Limit.{signed_limit};

use crate::blocks::{Block, Moves, Run, basic_column, denominator_at, moved_at, row_at};
use it_vectors::is_zero;
use it_whole::{Column, Leaving, WholeRow};

/// The number that represents 1 in row `q`: its denominator. `None` unless that is below 2^63.
fn unit_at(rows: &[WholeRow], q: usize) -> Option<i64>
    requires { q < length rows.now }
    ensures { IfSome result (λ unit. unit ≡ pos (whole_row_at rows.now q).denominator) }
{
    let denominator = denominator_at(rows, q);
    if denominator < 1 << 63 {
        Some(denominator as i64)
    } else {
        None
    }
}

/// Subtracts from `row` the multiple of row `q` that makes its entry at `column` 0, where row `q` has the entry 1; `false` if a number
/// would be too large, and then nothing is known of `row`.
#[inline]
fn take_off(
    row: &mut WholeRow,
    rows: &[WholeRow],
    q: usize,
    column: &Column,
    room: &mut [i64],
    limit: u64,
) -> bool
    requires q { q < length rows.now }
    requires row { IsUsable (length (whole_row_at rows.now q).numbers) limit row.old }
    requires own { IsUsable (length (whole_row_at rows.now q).numbers) limit (whole_row_at rows.now q) }
    requires column { IsFitting (length (whole_row_at rows.now q).numbers) limit column.now }
    requires room { length room.old ≡ length (whole_row_at rows.now q).numbers }
    requires limit { limit < signed_limit }
    ensures room { length room.new ≡ length room.old }
    ensures updated { OnTrue result (IsLessRow column.now limit rows.now q row.old row.new) }
{
    let entry = column.price(row);
    if is_zero(entry) {
        return true;
    }
    let Some(unit) = unit_at(rows, q) else {
        return false;
    };
    // the row has no next places noted, which only one in 64 bits needs
    let leaving = Leaving {
        row: &rows[q],
        entry: unit,
        next: &[],
        noted: false,
    };
    row.update(&leaving, entry, room, limit)
}

/// Subtracts from `row` the multiple of row `q`, which moved, that makes its entry at the basic column of row `q` 0; `false` if a
/// number would be too large, and then nothing is known of `row`.
#[inline]
fn take_off_moved(
    row: &mut WholeRow,
    run: &Run<'_>,
    block: &Block<'_>,
    room: &mut [i64],
    q: usize,
) -> bool
    requires height { length block.now.rows.now ≡ length block.now.basis.now + 1 }
    requires q { q < length block.now.basis.now }
    requires moves { has_moved block.now.moved.now q ≡ true }
    requires entered { slice_index_or block.now.basis.now q 0 < length run.now.columns.now }
    requires row { IsUsable (length block.now.rows.now) run.now.limit row.old }
    requires rows { AreMovedUsable run.now.limit block.now.rows.now block.now.moved.now }
    requires columns { AreFitting (length block.now.rows.now) run.now.limit run.now.columns.now }
    requires room { length room.old ≡ length block.now.rows.now }
    requires limit { run.now.limit < signed_limit }
    ensures room { length room.new ≡ length room.old }
    ensures less { OnTrue result (IsLessMoved run.now.columns.now run.now.limit block.now.rows.now block.now.basis.now q row.old row.new) }
    ensures usable { OnTrue result (IsUsable (length block.now.rows.now) run.now.limit row.new) }
{
    take_off(
        row,
        block.rows,
        q,
        basic_column(run.columns, block.basis, q),
        room,
        run.limit,
    )
}

/// Brings `row`, which stayed behind, up to date; `false` if a number would be too large, and then nothing is known of it.
fn bring_row(row: &mut WholeRow, run: &Run<'_>, block: &Block<'_>, room: &mut [i64]) -> bool
    requires height { length block.now.rows.now ≡ length block.now.basis.now + 1 }
    requires order { AreMovedInOrder block.now.moved.now (length block.now.basis.now) block.now.order.now }
    requires entered { HaveEntered run.now.columns.now block.now.basis.now block.now.moved.now }
    requires row { IsUsable (length block.now.rows.now) run.now.limit row.old }
    requires rows { AreMovedUsable run.now.limit block.now.rows.now block.now.moved.now }
    requires columns { AreFitting (length block.now.rows.now) run.now.limit run.now.columns.now }
    requires room { length room.old ≡ length block.now.rows.now }
    requires limit { run.now.limit < signed_limit }
    ensures room { length room.new ≡ length room.old }
    ensures brought { OnTrue result (IsBrought run.now.columns.now run.now.limit block.now.rows.now block.now.basis.now block.now.moved.now row.old row.new) }
    ensures usable { OnTrue result (IsUsable (length block.now.rows.now) run.now.limit row.new) }
{
    for k in 0..block.order.len() {
        let q = row_at(block.order, k);
        if !take_off_moved(row, run, block, room, q) {
            return false;
        }
    }
    true
}

/// Brings row `r`, which stayed behind, up to date; `false` if a number would be too large, and then nothing is known of the rows.
fn bring(
    rows: &mut [WholeRow],
    run: &Run<'_>,
    moves: &Moves<'_>,
    room: &mut [i64],
    r: usize,
) -> bool
    requires height { length rows.old ≡ length moves.now.basis.now + 1 }
    requires r { r < length moves.now.basis.now }
    requires behind { has_moved moves.now.moved.now r ≡ false }
    requires order { AreMovedInOrder moves.now.moved.now (length moves.now.basis.now) moves.now.order.now }
    requires entered { HaveEntered run.now.columns.now moves.now.basis.now moves.now.moved.now }
    requires rows { AreUsable (length rows.old) run.now.limit rows.old }
    requires columns { AreFitting (length rows.old) run.now.limit run.now.columns.now }
    requires room { length room.old ≡ length rows.old }
    requires limit { run.now.limit < signed_limit }
    ensures room { length room.new ≡ length room.old }
    ensures brought { OnTrue result (IsRowBrought run.now.columns.now run.now.limit rows.old moves.now.basis.now moves.now.moved.now r rows.new) }
{
    let mut row = std::mem::replace(&mut rows[r], WholeRow::empty(run.alloc));
    let block = Block {
        rows,
        basis: moves.basis,
        moved: moves.moved,
        order: moves.order,
    };
    let done = bring_row(&mut row, run, &block, room);
    rows[r] = row;
    done
}

/// Brings row `r` up to date, if it stayed behind; `false` if a number would be too large, and then nothing is known of the rows.
pub fn bring_if_behind(
    rows: &mut [WholeRow],
    run: &Run<'_>,
    moves: &Moves<'_>,
    room: &mut [i64],
    r: usize,
) -> bool
    requires height { length rows.old ≡ length moves.now.basis.now + 1 }
    requires moved { length moves.now.moved.now ≡ length rows.old }
    requires r { r < length moves.now.basis.now }
    requires order { AreMovedInOrder moves.now.moved.now (length moves.now.basis.now) moves.now.order.now }
    requires entered { HaveEntered run.now.columns.now moves.now.basis.now moves.now.moved.now }
    requires rows { AreUsable (length rows.old) run.now.limit rows.old }
    requires columns { AreFitting (length rows.old) run.now.limit run.now.columns.now }
    requires room { length room.old ≡ length rows.old }
    requires limit { run.now.limit < signed_limit }
    ensures room { length room.new ≡ length room.old }
    ensures brought { OnTrue result (has_moved moves.now.moved.now r ≡ false
        → IsRowBrought run.now.columns.now run.now.limit rows.old moves.now.basis.now moves.now.moved.now r rows.new) }
    ensures kept { OnTrue result (has_moved moves.now.moved.now r ≡ true → rows.new ≡ rows.old) }
{
    if moved_at(moves.moved, r) {
        return true;
    }
    bring(rows, run, moves, room, r)
}

/// Brings all rows up to date; `false` if a number would be too large, and then nothing is known of the rows.
pub fn bring_all(rows: &mut [WholeRow], run: &Run<'_>, moves: &Moves<'_>, room: &mut [i64]) -> bool
    requires height { length rows.old ≡ length moves.now.basis.now + 1 }
    requires moved { length moves.now.moved.now ≡ length rows.old }
    requires order { AreMovedInOrder moves.now.moved.now (length moves.now.basis.now) moves.now.order.now }
    requires entered { HaveEntered run.now.columns.now moves.now.basis.now moves.now.moved.now }
    requires rows { AreUsable (length rows.old) run.now.limit rows.old }
    requires columns { AreFitting (length rows.old) run.now.limit run.now.columns.now }
    requires room { length room.old ≡ length rows.old }
    requires limit { run.now.limit < signed_limit }
    ensures room { length room.new ≡ length room.old }
    ensures brought { OnTrue result (AreBrought run.now.columns.now run.now.limit
        rows.old moves.now.basis.now moves.now.moved.now (length moves.now.basis.now) rows.new) }
{
    for r in 0..moves.basis.len() {
        if !bring_if_behind(rows, run, moves, room, r) {
            return false;
        }
    }
    true
}

/// Puts row `q` over its least denominator.
#[inline]
fn shorten_row(rows: &mut [WholeRow], q: usize)
    requires q { q < length rows.old }
    requires some { 0 < (whole_row_at rows.old q).denominator }
    requires short { AreShort (whole_row_at rows.old q).numbers }
    ensures { AreShortened rows.old rows.new }
{
    rows[q].shorten();
}

/// Puts the rows that moved, listed in `order`, over their least denominators: then other rows mostly need no factor when multiples
/// of them are subtracted.
pub fn shorten_moved(rows: &mut [WholeRow], order: &[usize], limit: u64)
    requires rows { AreUsable (length rows.old) limit rows.old }
    requires order { (k : ℕ) → k < length order.now → slice_index_or order.now k 0 < length rows.old }
    requires limit { limit < signed_limit }
    ensures { AreShortened rows.old rows.new }
{
    for k in 0..order.len() {
        shorten_row(rows, row_at(order, k));
    }
}
