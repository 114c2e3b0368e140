//! Rows that stay as they were in an earlier table, while degenerate steps are made.
//!
//! Nearly every step of a run is degenerate: the least ratio is 0, and right sides don't change. Such a step reads few rows. So a
//! block of degenerate steps keeps only the rows that left in it and the cost row up to date; all others stay as they were when it
//! began, and are brought up to date when they leave, or when the block ends. A row of a table of the run is the same row of any
//! other table less, for each row whose basic column changed, its entry there times that row. Since right sides don't change, the
//! rows with right side 0 are sorted by basic column once, when a block begins: of those that stay behind, the first that may leave
//! is the next to leave.
ghost use Rattle.std.specs.Prelude.{◌≡◌, ◌+◌, ◌<◌, ◌≤◌, [], length, true, slice_index_or, slice_set, IfOk, OnOk};
ghost use Rattle.std.specs.Option.{IfSome};
ghost use Rattle.it_engine.specs.Behind.{AreBaseBounds, AreEngineSteps, AreMovedEntries, AreMovedInOrder, AreRanked, AreStillSteps, HaveEntered, IsBehindStep, IsStillChoice, LeavesStill};
ghost use Rattle.it_engine.specs.Engine.{HasRoom, IsSafe};
ghost use Rattle.it_engine.specs.Loading.{IsNorm};

use crate::blocks::{
    Block, Moves, Notes, Run, entry_at, note_moved, note_moved_entries, note_none_moved,
};
use crate::bringing::{bring_all, bring_if_behind, shorten_moved};
use crate::choice::{entering_column, is_above_zero, right_side};
use crate::leaving::{Base, begin_base, combine_columns, first_to_leave};
use crate::pivots::pivot_moved;
use crate::shares::{are_short, shares_of_moved};
use it_vectors::{is_zero, read};
use it_whole::{Column, GaveUp, WholeRow};
use std::alloc::AllocError;

/// The row that leaves at a degenerate step in which `column` enters. `None` if the step isn't degenerate, or if the numbers of the rows
/// that stay behind may be too large.
fn still_row(
    block: &Block<'_>,
    run: &Run<'_>,
    entries: &mut [i64],
    combined: &mut Column,
    column: usize,
    base: &Base,
) -> Result<Option<usize>, AllocError>
    requires engine { IsSafe run.now.columns.now run.now.limit block.now.rows.now block.now.basis.now }
    requires moved { length block.now.moved.now ≡ length block.now.rows.now }
    requires order { AreMovedInOrder block.now.moved.now (length block.now.basis.now) block.now.order.now }
    requires entered { HaveEntered run.now.columns.now block.now.basis.now block.now.moved.now }
    requires entries { length entries.old ≡ length block.now.rows.now }
    requires column { column < length run.now.columns.now }
    requires bound { AreBaseBounds base.now.bound base.now.bound block.now.rows.now block.now.moved.now (length block.now.basis.now) }
    requires ranked { AreRanked block.now.rows.now block.now.basis.now block.now.moved.now (length block.now.basis.now) base.now.ranked.items }
    requires norm { IsNorm run.now.columns.now run.now.norm }
    ensures entries { length entries.new ≡ length entries.old }
    ensures within { IfOk result (λ found. IfSome found (λ r. r < length block.now.basis.now)) }
    ensures leaves { IfOk result (λ found. IfSome found (LeavesStill run.now.columns.now run.now.limit block.now.rows.now block.now.basis.now block.now.moved.now column)) }
    ensures noted { IfOk result (λ found. IfSome found (λ r. AreMovedEntries (slice_index_or run.now.columns.now column []) block.now.rows.now block.now.moved.now entries.new)) }
{
    note_moved_entries(&run.columns[column], block, entries);
    let Some(shares) = shares_of_moved(block, run.norm) else {
        return Ok(None);
    };
    if !are_short(
        base.bound,
        base.bound,
        shares.multiple,
        run.norm,
        shares.bound,
    ) {
        return Ok(None);
    }
    match combine_columns(
        combined,
        run.columns,
        block,
        entries,
        column,
        shares.multiple,
    ) {
        Ok(()) => Ok(first_to_leave(block, base.ranked.as_slice(), entries, combined)),
        Err(GaveUp::TooLarge) => Ok(None),
        Err(GaveUp::Memory) => Err(AllocError),
    }
}

/// The entering column and the leaving row of the next step, if it is degenerate. `None` otherwise, or if no step is left, or if the
/// numbers of the rows that stay behind may be too large.
fn still_choice(
    block: &Block<'_>,
    run: &Run<'_>,
    entries: &mut [i64],
    combined: &mut Column,
    base: &Base,
) -> Result<Option<(usize, usize)>, AllocError>
    requires engine { IsSafe run.now.columns.now run.now.limit block.now.rows.now block.now.basis.now }
    requires moved { length block.now.moved.now ≡ length block.now.rows.now }
    requires order { AreMovedInOrder block.now.moved.now (length block.now.basis.now) block.now.order.now }
    requires entered { HaveEntered run.now.columns.now block.now.basis.now block.now.moved.now }
    requires entries { length entries.old ≡ length block.now.rows.now }
    requires bound { AreBaseBounds base.now.bound base.now.bound block.now.rows.now block.now.moved.now (length block.now.basis.now) }
    requires ranked { AreRanked block.now.rows.now block.now.basis.now block.now.moved.now (length block.now.basis.now) base.now.ranked.items }
    requires norm { IsNorm run.now.columns.now run.now.norm }
    ensures entries { length entries.new ≡ length entries.old }
    ensures choice { IfOk result (λ found. IfSome found (λ x. IsStillChoice run.now.columns.now run.now.limit block.now.rows.now block.now.basis.now block.now.moved.now x.0 x.1)) }
    ensures noted { IfOk result (λ found. IfSome found (λ x. AreMovedEntries (slice_index_or run.now.columns.now x.0 []) block.now.rows.now block.now.moved.now entries.new)) }
{
    let last = block.basis.len();
    if is_zero(right_side(block.rows, last, last)) {
        return Ok(None);
    }
    let Some(column) = entering_column(run.columns, &block.rows[last]) else {
        return Ok(None);
    };
    let Some(row) = still_row(block, run, entries, combined, column, base)? else {
        return Ok(None);
    };
    Ok(Some((column, row)))
}

/// Makes `column` basic in `row`, which leaves at a degenerate step and is brought up to date first. If it gives up, nothing is known of
/// the rows.
fn make_step(
    rows: &mut [WholeRow],
    basis: &mut [usize],
    notes: &mut Notes,
    run: &Run<'_>,
    column: usize,
    row: usize,
) -> Result<(), GaveUp>
    requires engine { IsSafe run.now.columns.now run.now.limit rows.old basis.old }
    requires notes { HasRoom (length basis.old) notes.old }
    requires order { AreMovedInOrder notes.old.moved.items (length basis.old) notes.old.order.items }
    requires entered { HaveEntered run.now.columns.now basis.old notes.old.moved.items }
    requires entries { AreMovedEntries (slice_index_or run.now.columns.now column []) rows.old notes.old.moved.items notes.old.entries.items }
    requires column { column < length run.now.columns.now }
    requires row { row < length basis.old }
    ensures step { OnOk result (IsBehindStep run.now.columns.now run.now.limit rows.old basis.old notes.old.moved.items column row rows.new) }
    ensures basis { OnOk result (basis.new ≡ slice_set basis.old row column) }
    ensures moved { OnOk result (notes.new.moved.items ≡ slice_set notes.old.moved.items row true) }
    ensures order { OnOk result (AreMovedInOrder notes.new.moved.items (length basis.old) notes.new.order.items) }
    ensures entered { OnOk result (HaveEntered run.now.columns.now basis.new notes.new.moved.items) }
    ensures notes { HasRoom (length basis.old) notes.new }
{
    let moved = notes.moved.as_slice();
    let order = notes.order.as_slice();
    let room = notes.scratch.room.as_mut_slice();
    let moves = Moves {
        basis,
        moved,
        order,
    };
    if !bring_if_behind(rows, run, &moves, room, row) {
        return Err(GaveUp::TooLarge);
    }
    note_moved(notes.moved.as_mut_slice(), &mut notes.order, row)?;
    notes.entries[row] = entry_at(&run.columns[column], rows, row);
    if !is_above_zero(read(notes.entries.as_slice(), row)) {
        return Err(GaveUp::TooLarge);
    }
    if !pivot_moved(
        rows,
        run,
        notes.order.as_slice(),
        &mut notes.scratch,
        notes.entries.as_slice(),
        row,
    ) {
        return Err(GaveUp::TooLarge);
    }
    basis[row] = column;
    Ok(())
}

/// Makes at most `most` degenerate steps, as long as they can be made with rows that stay behind, and returns their number. It stops
/// when a sixth of the rows moved, since each step has to keep these up to date. If it gives up, nothing is known of the rows.
fn still_steps(
    rows: &mut [WholeRow],
    basis: &mut [usize],
    notes: &mut Notes,
    run: &Run<'_>,
    most: u32,
) -> Result<u32, GaveUp>
    requires engine { IsSafe run.now.columns.now run.now.limit rows.old basis.old }
    requires notes { HasRoom (length basis.old) notes.old }
    requires order { AreMovedInOrder notes.old.moved.items (length basis.old) notes.old.order.items }
    requires entered { HaveEntered run.now.columns.now basis.old notes.old.moved.items }
    requires norm { IsNorm run.now.columns.now run.now.norm }
    ensures steps { IfOk result (λ k. AreStillSteps run.now.columns.now run.now.limit rows.old basis.old notes.old.moved.items k rows.new basis.new notes.new.moved.items) }
    ensures most { IfOk result (λ k. k ≤ most) }
    ensures order { IfOk result (λ k. AreMovedInOrder notes.new.moved.items (length basis.new) notes.new.order.items) }
    ensures entered { IfOk result (λ k. HaveEntered run.now.columns.now basis.new notes.new.moved.items) }
    ensures notes { HasRoom (length basis.old) notes.new }
{
    let base = begin_base(run.alloc, rows, basis, notes.moved.as_slice())?;
    for k in 0..most {
        if notes.order.len() >= basis.len() / 6 {
            return Ok(k);
        }
        let block = Block {
            rows,
            basis,
            moved: notes.moved.as_slice(),
            order: notes.order.as_slice(),
        };
        let found = still_choice(
            &block,
            run,
            notes.entries.as_mut_slice(),
            &mut notes.combined,
            &base,
        )?;
        let Some((column, row)) = found else {
            return Ok(k);
        };
        make_step(rows, basis, notes, run, column, row)?;
    }
    Ok(most)
}

/// Makes at most `most` degenerate steps, and returns their number, which may be 0. Meanwhile most rows stay as they are, and at the
/// end all are up to date. If it gives up, nothing is known of the rows.
pub fn make_steps(
    rows: &mut [WholeRow],
    basis: &mut [usize],
    notes: &mut Notes,
    run: &Run<'_>,
    most: u32,
) -> Result<u32, GaveUp>
    requires engine { IsSafe run.now.columns.now run.now.limit rows.old basis.old }
    requires notes { HasRoom (length basis.old) notes.old }
    requires norm { IsNorm run.now.columns.now run.now.norm }
    ensures steps { IfOk result (λ k. AreEngineSteps run.now.columns.now run.now.limit rows.old basis.old k rows.new basis.new) }
    ensures most { IfOk result (λ k. k ≤ most) }
    ensures notes { HasRoom (length basis.old) notes.new }
{
    note_none_moved(notes.moved.as_mut_slice(), &mut notes.order, basis.len());
    let made = still_steps(rows, basis, notes, run, most)?;
    let moved = notes.moved.as_slice();
    let order = notes.order.as_slice();
    let room = notes.scratch.room.as_mut_slice();
    shorten_moved(rows, order, run.limit);
    let moves = Moves {
        basis,
        moved,
        order,
    };
    if bring_all(rows, run, &moves, room) {
        Ok(made)
    } else {
        Err(GaveUp::TooLarge)
    }
}
