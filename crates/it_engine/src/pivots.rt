//! The pivot.
ghost use Rattle.std.specs.Prelude.{◌≡◌, ◌≢◌, ℕ, ◌+◌, ◌<◌, ◌≤ℤ◌, pos, length, Some};
ghost use Rattle.std.specs.Bool.{OnTrue};
ghost use Rattle.std.specs.Option.{IfSome};
ghost use Rattle.it_engine.specs.Choosing.{best_row, entry_of};
ghost use Rattle.it_vectors.specs.Sizes.{AreShort, IsShort};
ghost use Rattle.it_vectors.specs.Places.{AreNextPlaces};
ghost use Rattle.it_whole.specs.WholeRows.{IsUsable};
ghost use Rattle.it_whole.specs.Updates.{IsLeaving, IsQuotient};
ghost use Rattle.it_engine.specs.Behind.{AreNullElsewhere};
ghost use Rattle.it_engine.specs.Engine.{HasSpace};
ghost use Rattle.it_engine.specs.Tables.{whole_row_at};
ghost use Rattle.it_engine.specs.PivotedRows.{AreWholeRowsPivoted, AreUsable, IsFitting, IsRowUpdated};
ghost use Rattle.it_space.specs.Sums.{number_at};
ghost use Rattle.it_number.specs.Limit.{signed_limit};

use crate::blocks::{Run, Scratch};
use crate::choice::{leaving_row, note_entries};
use it_vectors::read;
use it_whole::{Column, Leaving, WholeRow};
use std::alloc::Global;

/// Makes the column at which the rows have the given `entries` basic in row `r`; `false` if a number would be too large, and then
/// nothing is known of the rows.
pub fn pivot(
    rows: &mut [WholeRow],
    run: &Run<'_>,
    scratch: &mut Scratch,
    entries: &[i64],
    r: usize,
) -> bool
    requires row { r < length rows.old }
    requires rows { AreUsable (length rows.old) run.now.limit rows.old }
    requires scratch { HasSpace (length rows.old) scratch.old }
    requires entries { length entries.now ≡ length rows.old }
    requires short { AreShort entries.now }
    requires positive { pos 1 ≤ℤ number_at entries.now r }
    requires limit { run.now.limit < signed_limit }
    ensures pivoted { OnTrue result (AreWholeRowsPivoted (length rows.old) run.now.limit rows.old (number_at entries.now) r rows.new) }
    ensures scratch { HasSpace (length rows.old) scratch.new }
{
    let own = take_divided(run.alloc, rows, entries, r);
    let p = own.unit();
    let next = scratch.next.as_mut_slice();
    let room = scratch.room.as_mut_slice();
    let noted = own.note_places(next);
    let leaving = Leaving {
        row: &own,
        entry: p,
        next,
        noted,
    };
    // by index, since the invariant is about the rows before i and those from i on
    for i in 0..rows.len() {
        if i != r && !update_row(rows, &leaving, room, entries, i, run.limit) {
            return false;
        }
    }
    rows[r] = own;
    true
}

/// Takes out row `r`, which leaves, and divides it by its entry at the entering column. An empty row is left in its place.
#[inline(always)]
fn take_divided(alloc: Global, rows: &mut [WholeRow], entries: &[i64], r: usize) -> WholeRow
    requires row { r < length rows.old }
    requires entries { r < length entries.now }
    requires short { AreShort (whole_row_at rows.old r).numbers }
    requires positive { pos 1 ≤ℤ number_at entries.now r }
    ensures length { length rows.new ≡ length rows.old }
    ensures others { (k : ℕ) → k ≢ r → whole_row_at rows.new k ≡ whole_row_at rows.old k }
    ensures divided { IsQuotient (whole_row_at rows.old r) (number_at entries.now r) result }
{
    let taken = std::mem::replace(&mut rows[r], WholeRow::empty(alloc));
    // Divided first, so that it is in lowest terms: then the factors of most other rows are 1, and their numbers stay small.
    taken.divided_by(read(entries, r))
}

/// Updates row `i` in a step in which `leaving` leaves; `false` if a number would be too large, and then nothing is known of the row.
/// `entries` has the entries of all rows at the entering column, and `room` is space for a row.
#[inline(always)]
fn update_row(
    rows: &mut [WholeRow],
    leaving: &Leaving<'_>,
    room: &mut [i64],
    entries: &[i64],
    i: usize,
    limit: u64,
) -> bool
    requires i { i < length rows.old }
    requires entries { i < length entries.now }
    requires short { IsShort (number_at entries.now i) }
    requires row { IsUsable (length leaving.now.row.now.numbers) limit (whole_row_at rows.old i) }
    requires leaving { IsLeaving limit leaving.now.row.now leaving.now.entry }
    requires places { OnTrue leaving.now.noted (AreNextPlaces leaving.now.row.now.numbers leaving.now.next.now) }
    requires room { length room.old ≡ length leaving.now.row.now.numbers }
    ensures room { length room.new ≡ length room.old }
    ensures length { length rows.new ≡ length rows.old }
    ensures updated { OnTrue result (IsRowUpdated limit rows.old entries.now leaving.now.row.now leaving.now.entry i rows.new) }
    ensures others { (k : ℕ) → k ≢ i → whole_row_at rows.new k ≡ whole_row_at rows.old k }
{
    rows[i].update(leaving, read(entries, i), room, limit)
}

/// Like `pivot`, where all `entries` are 0 but those of the last row and of the rows listed, in ascending order, in `order`.
pub fn pivot_moved(
    rows: &mut [WholeRow],
    run: &Run<'_>,
    order: &[usize],
    scratch: &mut Scratch,
    entries: &[i64],
    r: usize,
) -> bool
    requires row { r + 1 < length rows.old }
    requires elsewhere { (height : ℕ) → length rows.old ≡ height + 1 → AreNullElsewhere entries.now height order.now }
    requires rows { AreUsable (length rows.old) run.now.limit rows.old }
    requires scratch { HasSpace (length rows.old) scratch.old }
    requires entries { length entries.now ≡ length rows.old }
    requires short { AreShort entries.now }
    requires positive { pos 1 ≤ℤ number_at entries.now r }
    requires limit { run.now.limit < signed_limit }
    ensures pivoted { OnTrue result (AreWholeRowsPivoted (length rows.old) run.now.limit rows.old (number_at entries.now) r rows.new) }
    ensures scratch { HasSpace (length rows.old) scratch.new }
{
    let own = take_divided(run.alloc, rows, entries, r);
    let p = own.unit();
    let next = scratch.next.as_mut_slice();
    let room = scratch.room.as_mut_slice();
    let noted = own.note_places(next);
    let leaving = Leaving {
        row: &own,
        entry: p,
        next,
        noted,
    };
    for k in 0..order.len() {
        let i = order[k];
        if i != r && !update_row(rows, &leaving, room, entries, i, run.limit) {
            return false;
        }
    }
    let last = rows.len() - 1;
    if !update_row(rows, &leaving, room, entries, last, run.limit) {
        return false;
    }
    rows[r] = own;
    true
}

/// Makes `column` basic in the leaving row, and returns that row; `None` if no row leaves, or if a number would be too large, and then
/// nothing is known of the rows. `entries` is space for a number for each row.
pub fn enter(
    rows: &mut [WholeRow],
    run: &Run<'_>,
    basis: &[usize],
    scratch: &mut Scratch,
    entries: &mut [i64],
    column: &Column,
) -> Option<usize>
    requires height { length rows.old ≡ length basis.now + 1 }
    requires rows { AreUsable (length rows.old) run.now.limit rows.old }
    requires scratch { HasSpace (length rows.old) scratch.old }
    requires entries { length entries.old ≡ length rows.old }
    requires column { IsFitting (length rows.old) run.now.limit column.now }
    requires limit { run.now.limit < signed_limit }
    ensures leaves { IfSome result (λ r. best_row column.now rows.old basis.now (length basis.now) ≡ Some r) }
    ensures within { IfSome result (λ r. r < length basis.now) }
    ensures pivoted { IfSome result (λ r. AreWholeRowsPivoted (length rows.old) run.now.limit rows.old (entry_of column.now rows.old) r rows.new) }
    ensures scratch { HasSpace (length rows.old) scratch.new }
    ensures entries { length entries.new ≡ length entries.old }
{
    note_entries(column, rows, entries);
    let row = leaving_row(entries, rows, basis)?;
    if pivot(rows, run, scratch, entries, row) {
        Some(row)
    } else {
        None
    }
}
