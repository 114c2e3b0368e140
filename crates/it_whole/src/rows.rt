//! Rows of whole numbers over one denominator, in 32 or in 64 bits.
ghost use Rattle.std.specs.Prelude.{◌≡◌, ◌+◌, ◌<◌, ◌^◌, ◌≤ℤ◌, [], unsigned_abs, length, pos, IfOk};
ghost use Rattle.std.specs.Bool.{OnTrue};
ghost use Rattle.std.specs.Option.{IfSome};
ghost use Rattle.it_space.specs.Sums.{number_at};
ghost use Rattle.it_vectors.specs.Sizes.{AreAtMost, AreShort};
ghost use Rattle.it_vectors.specs.Places.{AreNextPlaces};
ghost use Rattle.it_whole.specs.WholeRows.{IsUsable};
ghost use Rattle.it_whole.specs.Updates.{IsLeaving, IsQuotient, IsShortened, IsUpdated};
ghost use Rattle.it_whole.specs.Widths.{row_of};
ghost use Rattle.it_number.specs.Limit.{signed_limit};

use crate::narrow_rows::NarrowRow;
use crate::wide_rows::WideRow;
use it_vectors::is_zero;
use std::alloc::{AllocError, Global};
use std::marker::Model;

/// A row in either width.
#[derive(Drop)]
pub enum AnyRow {
    /// In 32 bits.
    Narrow(NarrowRow),
    /// In 64 bits.
    Wide(WideRow),
}

/// Whole numbers over one denominator, mostly not in lowest terms, in 32 bits or in 64. Contracts see the numbers and the denominator,
/// and not the width.
pub struct WholeRow {
    row: AnyRow,
}

impl Drop for WholeRow {
    fn drop(self) {
        let WholeRow { row: _ } = self;
    }
}

impl Model for WholeRow {
    ghost use Rattle.it_whole.specs.WholeRows.{WholeRowView};

    ghost Value = { WholeRowView };

    ghost use Rattle.it_whole.specs.Widths.{row_of};

    ghost view = { λ r. row_of r.row };
}

/// The row that leaves in a step.
#[derive(Drop)]
pub struct Leaving<'a> {
    /// The row, already divided by its entry at the entering column.
    pub row: &'a WholeRow,
    /// Its entry at the entering column.
    pub entry: i64,
    /// The next places where it isn't 0.
    pub next: &'a [usize],
    /// Whether `next` has these: only a row in 64 bits needs them.
    pub noted: bool,
}

impl WholeRow {
    /// The row of `numbers` in 64 bits, over the denominator 1. It allocates nothing.
    pub fn from_numbers(numbers: Vec<i64>) -> WholeRow
        ensures numbers { result.numbers ≡ numbers.items }
        ensures denominator { result.denominator ≡ 1 }
    {
        WholeRow {
            row: AnyRow::Wide(WideRow::from_numbers(numbers)),
        }
    }

    /// A row without numbers. It allocates nothing.
    pub fn empty(alloc: Global) -> WholeRow
        ensures numbers { result.numbers ≡ [] }
        ensures denominator { result.denominator ≡ 1 }
    {
        WholeRow {
            row: AnyRow::Wide(WideRow::empty(alloc)),
        }
    }

    /// A copy of the row in 32 bits. `None` if a number is above `limit` in absolute value, or if the row is in 32 bits already. `Err` if
    /// allocation fails.
    pub fn narrowed(&self, alloc: Global, limit: u64) -> Result<Option<WholeRow>, AllocError>
        requires { limit < 2 ^ 31 }
        ensures row { IfOk result (λ o. IfSome o (λ row. row ≡ self.now)) }
        ensures small { IfOk result (λ o. IfSome o (λ row. AreAtMost self.now.numbers limit)) }
    {
        match &self.row {
            AnyRow::Narrow(_) => Ok(None),
            AnyRow::Wide(row) => {
                match NarrowRow::from_numbers(alloc, row.numbers(), row.denominator(), limit)? {
                    Some(row) => Ok(Some(WholeRow {
                        row: AnyRow::Narrow(row),
                    })),
                    None => Ok(None),
                }
            }
        }
    }

    /// The row in its width.
    #[inline]
    pub(crate) fn any_width(&self) -> &AnyRow
        ensures { row_of result.now ≡ self.now }
    {
        &self.row
    }

    /// The number at place `k`, a numerator over the row's denominator.
    #[inline]
    pub fn number(&self, k: usize) -> i64
        requires { k < length self.now.numbers }
        ensures { result ≡ number_at self.now.numbers k }
    {
        match &self.row {
            AnyRow::Narrow(row) => row.number(k),
            AnyRow::Wide(row) => row.number(k),
        }
    }

    /// The denominator.
    pub fn denominator(&self) -> u64
        ensures { result ≡ self.now.denominator }
    {
        match &self.row {
            AnyRow::Narrow(row) => row.denominator(),
            AnyRow::Wide(row) => row.denominator(),
        }
    }

    /// The number that represents 1 in the row: its denominator.
    pub fn unit(&self) -> i64
        requires { self.now.denominator < signed_limit }
        ensures { result ≡ pos self.now.denominator }
    {
        self.denominator() as i64
    }

    /// Sets `next` to the next places where the row isn't 0, and returns `true`; for a row in 32 bits, which keeps its stretches itself,
    /// does nothing and returns `false`.
    pub fn note_places(&self, next: &mut [usize]) -> bool
        requires { length next.old ≡ length self.now.numbers + 1 }
        ensures places { OnTrue result (AreNextPlaces self.now.numbers next.new) }
        ensures room { length next.new ≡ length next.old }
    {
        match &self.row {
            AnyRow::Narrow(_) => false,
            AnyRow::Wide(row) => {
                row.note_places(next);
                true
            }
        }
    }

    /// A bound on the absolute values of the numbers. It is stored with the row, and mostly isn't the least one.
    pub fn most(&self) -> u64
        ensures { AreAtMost self.now.numbers result }
    {
        match &self.row {
            AnyRow::Narrow(row) => row.most(),
            AnyRow::Wide(row) => row.most(),
        }
    }

    /// A bound on the absolute values of the numbers, mostly closer than the stored one where that is large: for rows in 32 bits it then
    /// takes a pass over the numbers.
    pub fn closer_most(&self) -> u64
        ensures { AreAtMost self.now.numbers result }
    {
        match &self.row {
            AnyRow::Narrow(row) => row.closer_most(),
            AnyRow::Wide(row) => row.most(),
        }
    }

    /// Whether the row is in 32 bits. It has no contract: contracts don't see the width, and callers ask only for the sake of speed.
    pub fn is_narrow(&self) -> bool {
        match &self.row {
            AnyRow::Narrow(_) => true,
            AnyRow::Wide(_) => false,
        }
    }

    /// Updates the row in a step in which `leaving` leaves; `entry` is this row's entry at the entering column, and `room` is space for a
    /// row. `false` if a number would be above `limit`, if the two rows have different widths, or if the next places of a leaving row in
    /// 64 bits aren't noted; then nothing is known of the row.
    #[inline(always)]
    pub fn update(
        &mut self,
        leaving: &Leaving<'_>,
        entry: i64,
        room: &mut [i64],
        limit: u64,
    ) -> bool
        requires row { IsUsable (length leaving.now.row.now.numbers) limit self.old }
        requires leaving { IsLeaving limit leaving.now.row.now leaving.now.entry }
        requires places { OnTrue leaving.now.noted (AreNextPlaces leaving.now.row.now.numbers leaving.now.next.now) }
        requires room { length room.old ≡ length leaving.now.row.now.numbers }
        requires entry { unsigned_abs entry < signed_limit }
        ensures room { length room.new ≡ length room.old }
        ensures updated { OnTrue result (IsUpdated (length leaving.now.row.now.numbers) limit self.old leaving.now.row.now entry leaving.now.entry self.new) }
    {
        if is_zero(entry) {
            return true;
        }
        self.update_other(leaving, entry, room, limit)
    }

    /// Like `update`, where `entry` isn't 0.
    #[inline(always)]
    fn update_other(
        &mut self,
        leaving: &Leaving<'_>,
        entry: i64,
        room: &mut [i64],
        limit: u64,
    ) -> bool
        requires row { IsUsable (length leaving.now.row.now.numbers) limit self.old }
        requires leaving { IsLeaving limit leaving.now.row.now leaving.now.entry }
        requires places { OnTrue leaving.now.noted (AreNextPlaces leaving.now.row.now.numbers leaving.now.next.now) }
        requires room { length room.old ≡ length leaving.now.row.now.numbers }
        requires entry { unsigned_abs entry < signed_limit }
        requires some { ¬ (entry ≡ pos 0) }
        ensures room { length room.new ≡ length room.old }
        ensures updated { OnTrue result (IsUpdated (length leaving.now.row.now.numbers) limit self.old leaving.now.row.now entry leaving.now.entry self.new) }
    {
        let leaving_row = leaving.row;
        let pivot = leaving.entry;
        match &leaving_row.row {
            AnyRow::Narrow(own) => match &mut self.row {
                AnyRow::Narrow(row) => {
                    limit < 1 << 31 && row.update(own, room, entry, pivot, limit)
                }
                AnyRow::Wide(_) => false,
            },
            AnyRow::Wide(own) => match &mut self.row {
                AnyRow::Narrow(_) => false,
                AnyRow::Wide(row) => {
                    leaving.noted && row.update(own, leaving.next, entry, pivot, limit)
                }
            },
        }
    }

    /// Puts the row over its least denominator.
    pub fn shorten(&mut self)
        requires some { 0 < self.old.denominator }
        requires short { AreShort self.old.numbers }
        ensures { IsShortened self.old self.new }
    {
        match &mut self.row {
            AnyRow::Narrow(row) => row.shorten(),
            AnyRow::Wide(row) => row.shorten(),
        }
    }

    /// The leaving row after a step: divided by `pivot`, its entry at the entering column, and put over its least denominator. It keeps
    /// its width.
    pub fn divided_by(self, pivot: i64) -> WholeRow
        requires pivot { pos 1 ≤ℤ pivot }
        requires short { AreShort self.numbers }
        ensures { IsQuotient self pivot result }
    {
        let WholeRow { row } = self;
        match row {
            AnyRow::Narrow(row) => WholeRow {
                row: AnyRow::Narrow(row.divided_by(pivot)),
            },
            AnyRow::Wide(row) => WholeRow {
                row: AnyRow::Wide(row.divided_by(pivot)),
            },
        }
    }
}
