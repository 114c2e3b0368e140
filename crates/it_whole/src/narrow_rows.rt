//! Rows of numbers in 32 bits.
ghost use Rattle.std.specs.Prelude.{◌≡◌, ◌+◌, ◌*◌, ◌<◌, ◌^◌, ◌≤ℤ◌, unsigned_abs, length, pos, IfOk};
ghost use Rattle.std.specs.Bool.{OnFalse, OnTrue};
ghost use Rattle.std.specs.Option.{IfSome};
ghost use Rattle.it_space.specs.Sums.{number_at};
ghost use Rattle.it_vectors.specs.Sizes.{AreAtMost, AreShort};
ghost use Rattle.it_vectors.specs.Combinations.{IsCombined};
ghost use Rattle.it_vectors.specs.Stretches.{AreStretches};
ghost use Rattle.it_whole.specs.WholeRows.{IsUsable};
ghost use Rattle.it_whole.specs.Updates.{IsWholeRowReduced, IsQuotient, IsShortened, IsUpdated};
ghost use Rattle.it_number.specs.Limit.{signed_limit};

use crate::room::{combine_to, shorten_to};
use it_vectors::narrow_numbers::{
    STRETCH, Subtrahend, combine, divide, divide_at_once, divisor, greatest_size, narrow_number,
    note_stretches, read, subtract_multiple,
};
use it_vectors::{lowest_terms, short_product};
use std::alloc::{AllocError, Global};
use std::marker::Model;

/// Whole numbers in 32 bits over one denominator, not necessarily in lowest terms.
#[derive(Drop)]
pub struct NarrowRow {
    numbers: Vec<i32>,
    denominator: u64,
    // a bound on the absolute values of the numbers; kept so that a step mostly needs no pass over them
    most: u64,
    // where the stretches begin outside of which the row is 0, and whether that is known: it is for a leaving row and a shortened one
    starts: Vec<usize>,
    noted: bool,
}

impl Model for NarrowRow {
    ghost use Rattle.std.specs.Bool.{OnTrue};
    ghost use Rattle.it_vectors.specs.Stretches.{AreStretches};
    ghost use Rattle.it_vectors.specs.Sizes.{AreAtMost};
    ghost use Rattle.it_whole.specs.WholeRows.{WholeRowView};

    ghost Value = { WholeRowView };

    ghost view = { λ r. record { numbers = r.numbers.items; denominator = r.denominator } };

    ghost invariant = { λ r. (AreAtMost r.numbers.items r.most) × (OnTrue r.noted (AreStretches r.numbers.items r.starts.items)) };
}

impl NarrowRow {
    /// The row of `numbers` over the denominator `denominator`; `None` if a number is above `limit` in absolute value.
    pub fn from_numbers(
        alloc: Global,
        numbers: &[i64],
        denominator: u64,
        limit: u64,
    ) -> Result<Option<NarrowRow>, AllocError>
        requires limit { limit < 2 ^ 31 }
        ensures row { IfOk result (λ o. IfSome o (λ row. row ≡ record { numbers = numbers.now; denominator = denominator })) }
        ensures small { IfOk result (λ o. IfSome o (λ row. AreAtMost numbers.now limit)) }
    {
        let mut short = Vec::with_capacity(alloc, numbers.len())?;
        for k in 0..numbers.len() {
            let Some(number) = narrow_number(numbers, k, limit) else {
                return Ok(None);
            };
            short.push(number)?;
        }
        let most = greatest_size(short.as_slice());
        // room for all stretches that are noted later
        let starts = Vec::with_capacity(alloc, numbers.len() / STRETCH + 1)?;
        Ok(Some(NarrowRow {
            numbers: short,
            denominator,
            most,
            starts,
            noted: false,
        }))
    }

    /// The number at place `k`, a numerator over the row's denominator.
    #[inline]
    pub fn number(&self, k: usize) -> i64
        requires { k < length self.now.numbers }
        ensures { result ≡ number_at self.now.numbers k }
    {
        i64::from(read(self.numbers.as_slice(), k))
    }

    /// The denominator.
    pub fn denominator(&self) -> u64
        ensures { result ≡ self.now.denominator }
    {
        self.denominator
    }

    /// A bound on the absolute values of the numbers.
    pub fn most(&self) -> u64
        ensures { AreAtMost self.now.numbers result }
    {
        self.most
    }

    /// A bound on the absolute values of the numbers: the stored one, or if that is large, the least one, which takes a pass over the
    /// numbers.
    pub fn closer_most(&self) -> u64
        ensures { AreAtMost self.now.numbers result }
    {
        if is_large(self.most) {
            greatest_size(self.numbers.as_slice())
        } else {
            self.most
        }
    }

    /// Computes the stretches outside of which the row is 0.
    fn note_stretches(&mut self)
        ensures { self.new ≡ self.old }
    {
        self.noted = note_stretches(self.numbers.as_slice(), &mut self.starts);
    }

    /// Computes the least bound on the numbers, and the stretches.
    fn note(&mut self)
        ensures { self.new ≡ self.old }
    {
        self.most = greatest_size(self.numbers.as_slice());
        self.note_stretches();
    }

    /// Puts the row over the denominator 1, if the denominator is found to divide all numbers; else `false`, and the row is unchanged.
    fn divide_out(&mut self) -> bool
        requires some { 0 < self.old.denominator }
        ensures shortened { OnTrue result (IsShortened self.old self.new) }
        ensures kept { OnFalse result (self.new ≡ self.old) }
    {
        if self.denominator >= 1 << 31 {
            return false;
        }
        self.noted = false;
        if !divide_at_once(self.numbers.as_mut_slice(), self.denominator as i32) {
            return false;
        }
        self.denominator = 1;
        self.most = greatest_size(self.numbers.as_slice());
        true
    }

    /// Puts the row over its least denominator.
    #[inline(never)]
    fn put_in_lowest_terms(&mut self)
        requires some { 0 < self.old.denominator }
        ensures { IsShortened self.old self.new }
    {
        if self.denominator == 1 || self.divide_out() {
            return;
        }
        let shared = divisor(self.numbers.as_slice(), self.denominator);
        if shared.is_one() {
            return;
        }
        self.noted = false;
        divide(self.numbers.as_mut_slice(), &shared);
        self.denominator = shared.size_quotient(self.denominator);
        self.most = greatest_size(self.numbers.as_slice());
    }

    /// Puts the row over its least denominator, and computes the stretches outside of which it is 0.
    pub fn shorten(&mut self)
        requires some { 0 < self.old.denominator }
        ensures { IsShortened self.old self.new }
    {
        self.put_in_lowest_terms();
        self.note_stretches();
    }

    /// The places where the stretches begin outside of which the row is 0, if they are known.
    #[inline]
    fn known_starts(&self) -> Option<&[usize]>
        ensures { IfSome result (λ starts. AreStretches self.now.numbers starts.now) }
    {
        if self.noted {
            Some(self.starts.as_slice())
        } else {
            None
        }
    }

    /// The row as one whose multiples are subtracted from others.
    #[inline]
    fn as_subtrahend(&self) -> Subtrahend<'_>
        ensures { result ≡ self.now.numbers }
    {
        Subtrahend::new(self.numbers.as_slice(), self.known_starts(), self.most)
    }

    /// Multiplies the numbers by `a`, subtracts `b` times those of the leaving row `own`, and puts them over `denominator`. `false` if the
    /// bounds of the two rows don't show that all results stay within `limit`: then the row is unchanged.
    fn combine(&mut self, own: &NarrowRow, a: i64, b: i64, denominator: u64, limit: u64) -> bool
        requires even { length self.old.numbers ≡ length own.now.numbers }
        requires limit { limit < 2 ^ 31 }
        ensures combined { OnTrue result (IsCombined (length own.now.numbers) limit self.old.numbers own.now.numbers a b self.new.numbers) }
        ensures denominator { OnTrue result (self.new.denominator ≡ denominator) }
        ensures kept { OnFalse result (self.new ≡ self.old) }
    {
        let by = own.as_subtrahend();
        self.noted = false;
        match combine(self.numbers.as_mut_slice(), &by, a, b, self.most, limit) {
            Some(most) => {
                self.denominator = denominator;
                self.most = most;
                true
            }
            None => false,
        }
    }

    /// Like `combine`, over the same denominator, in the usual case that `a` is 1 and the stored bounds show that all results stay within
    /// `limit`. Else `false`, and the row is unchanged.
    #[inline]
    fn subtract_multiple(&mut self, own: &NarrowRow, a: i64, b: i64, limit: u64) -> bool
        requires even { length self.old.numbers ≡ length own.now.numbers }
        requires limit { limit < 2 ^ 31 }
        ensures one { OnTrue result (a ≡ pos 1) }
        ensures combined { OnTrue result (IsCombined (length own.now.numbers) limit self.old.numbers own.now.numbers (pos 1) b self.new.numbers) }
        ensures denominator { OnTrue result (self.new.denominator ≡ self.old.denominator) }
        ensures kept { OnFalse result (self.new ≡ self.old) }
    {
        let by = own.as_subtrahend();
        self.noted = false;
        match subtract_multiple(self.numbers.as_mut_slice(), &by, a, b, self.most, limit) {
            Some(most) => {
                self.most = most;
                true
            }
            None => false,
        }
    }

    /// Writes to `room`, in 64 bits, the numbers times `a` less `b` times those of the leaving row `own`. `false` if one may be above
    /// 2^63 - 1 in absolute value: then `room` is unchanged.
    #[inline(never)]
    fn combine_to(&self, own: &NarrowRow, room: &mut [i64], a: i64, b: i64) -> bool
        requires even { length self.now.numbers ≡ length own.now.numbers }
        requires room { length room.old ≡ length own.now.numbers }
        ensures room { length room.new ≡ length room.old }
        ensures combined { OnTrue result (IsCombined (length own.now.numbers) 9223372036854775807 self.now.numbers own.now.numbers a b room.new) }
    {
        combine_to(
            room,
            self.numbers.as_slice(),
            own.numbers.as_slice(),
            own.most,
            a,
            b,
        )
    }

    /// Replaces the row by the numbers of `room` over the denominator `denominator`, divided by a common divisor. `false` if a number is
    /// above `limit`: then nothing is known of the row.
    #[inline(never)]
    fn take_shortened(&mut self, room: &mut [i64], denominator: u64, limit: u64) -> bool
        requires even { length self.old.numbers ≡ length room.old }
        requires short { AreShort room.old }
        requires some { 0 < denominator }
        requires limit { limit < 2 ^ 31 }
        ensures room { length room.new ≡ length room.old }
        ensures shortened { OnTrue result (IsShortened record { numbers = room.old; denominator = denominator } self.new) }
        ensures small { OnTrue result (AreAtMost self.new.numbers limit) }
    {
        self.noted = false;
        let left = shorten_to(self.numbers.as_mut_slice(), room, denominator, limit);
        self.most = greatest_size(self.numbers.as_slice());
        match left {
            Some(denominator) => {
                self.denominator = denominator;
                true
            }
            None => false,
        }
    }

    /// Subtracts the multiple of the leaving row `own` that makes this row's entry at the entering column 0. `entry` and `pivot` are the
    /// entries of this row and of `own` there, `room` is space for a row. `false` if a number would be above `limit`: then nothing is
    /// known of the row.
    fn reduce(
        &mut self,
        own: &NarrowRow,
        room: &mut [i64],
        entry: i64,
        pivot: i64,
        limit: u64,
    ) -> bool
        requires row { IsUsable (length own.now.numbers) limit self.old }
        requires own { IsUsable (length own.now.numbers) limit own.now }
        requires room { length room.old ≡ length own.now.numbers }
        requires entry { unsigned_abs entry < signed_limit }
        requires pivot { pos 1 ≤ℤ pivot }
        requires limit { limit < 2 ^ 31 }
        ensures room { length room.new ≡ length room.old }
        ensures less { OnTrue result (IsWholeRowReduced (length own.now.numbers) limit self.old own.now entry pivot self.new) }
        ensures usable { OnTrue result (IsUsable (length own.now.numbers) limit self.new) }
    {
        let (a, b) = lowest_terms(pivot, entry);
        if self.subtract_multiple(own, a, b, limit) {
            return true;
        }
        let Some(denominator) = short_product(self.denominator(), a.unsigned_abs()) else {
            return false;
        };
        if self.combine(own, a, b, denominator, limit) {
            return true;
        }
        // the numbers may pass the limit until they are put over the least denominator
        if !self.combine_to(own, room, a, b) {
            return false;
        }
        self.take_shortened(room, denominator, limit)
    }

    /// Updates the row in a step in which `own` leaves, whose entry at the entering column is `pivot`; this row's entry there is `entry`.
    /// `room` is space for a row. `false` if a number would be above `limit`: then nothing is known of the row.
    #[inline(never)]
    pub fn update(
        &mut self,
        own: &NarrowRow,
        room: &mut [i64],
        entry: i64,
        pivot: i64,
        limit: u64,
    ) -> bool
        requires row { IsUsable (length own.now.numbers) limit self.old }
        requires own { IsUsable (length own.now.numbers) limit own.now }
        requires room { length room.old ≡ length own.now.numbers }
        requires entry { unsigned_abs entry < signed_limit }
        requires some { ¬ (entry ≡ pos 0) }
        requires pivot { pos 1 ≤ℤ pivot }
        requires limit { limit < 2 ^ 31 }
        ensures room { length room.new ≡ length room.old }
        ensures updated { OnTrue result (IsUpdated (length own.now.numbers) limit self.old own.now entry pivot self.new) }
    {
        if !self.reduce(own, room, entry, pivot, limit) {
            return false;
        }
        if is_large(self.denominator()) {
            self.put_in_lowest_terms();
        }
        true
    }

    /// The leaving row after a step: divided by `pivot`, its entry at the entering column, and put over its least denominator.
    pub fn divided_by(self, pivot: i64) -> NarrowRow
        requires pivot { pos 1 ≤ℤ pivot }
        ensures { IsQuotient self pivot result }
    {
        let mut row = NarrowRow {
            numbers: self.numbers,
            denominator: pivot.unsigned_abs(),
            most: self.most,
            starts: self.starts,
            noted: false,
        };
        row.put_in_lowest_terms();
        row.note();
        row
    }
}

/// Whether a denominator or a bound is large. The least one takes a pass over the whole row, and so is found only then.
fn is_large(size: u64) -> bool {
    size > 1 << 12
}
