//! Rows of numbers in 64 bits.
ghost use Rattle.std.specs.Prelude.{◌≡◌, ◌+◌, ◌<◌, ◌≤ℤ◌, [], unsigned_abs, length, pos};
ghost use Rattle.std.specs.Bool.{OnTrue};
ghost use Rattle.it_space.specs.Sums.{number_at};
ghost use Rattle.it_vectors.specs.Sizes.{AreAtMost, AreShort};
ghost use Rattle.it_vectors.specs.Places.{AreNextPlaces};
ghost use Rattle.it_whole.specs.WholeRows.{IsUsable};
ghost use Rattle.it_whole.specs.Updates.{IsWholeRowReduced, IsQuotient, IsShortened, IsUpdated};
ghost use Rattle.it_number.specs.Limit.{signed_limit};

use it_vectors::numbers::{Subtrahend, combine, divide, divisor, greatest_size, note_places};
use it_vectors::{lowest_terms, short_product};
use std::alloc::Global;
use std::marker::Model;

/// Whole numbers in 64 bits over one denominator, not necessarily in lowest terms.
#[derive(Drop)]
pub struct WideRow {
    numbers: Vec<i64>,
    denominator: u64,
    // a bound on the absolute values of the numbers; kept so that a step mostly needs no pass over them
    most: u64,
}

impl Model for WideRow {
    ghost use Rattle.it_vectors.specs.Sizes.{AreAtMost};
    ghost use Rattle.it_whole.specs.WholeRows.{WholeRowView};

    ghost Value = { WholeRowView };

    ghost view = { λ r. record { numbers = r.numbers.items; denominator = r.denominator } };

    ghost invariant = { λ r. AreAtMost r.numbers.items r.most };
}

impl WideRow {
    /// The row of `numbers` over the denominator 1.
    pub fn from_numbers(numbers: Vec<i64>) -> WideRow
        ensures numbers { result.numbers ≡ numbers.items }
        ensures denominator { result.denominator ≡ 1 }
    {
        let most = greatest_size(numbers.as_slice());
        WideRow {
            numbers,
            denominator: 1,
            most,
        }
    }

    /// A row without numbers. It allocates nothing.
    pub fn empty(alloc: Global) -> WideRow
        ensures numbers { result.numbers ≡ [] }
        ensures denominator { result.denominator ≡ 1 }
    {
        WideRow {
            numbers: Vec::new(alloc),
            denominator: 1,
            most: 0,
        }
    }

    /// The number at place `k`, a numerator over the row's denominator.
    #[inline]
    pub fn number(&self, k: usize) -> i64
        requires { k < length self.now.numbers }
        ensures { result ≡ number_at self.now.numbers k }
    {
        self.numbers[k]
    }

    /// The denominator.
    pub fn denominator(&self) -> u64
        ensures { result ≡ self.now.denominator }
    {
        self.denominator
    }

    /// The numbers.
    pub fn numbers(&self) -> &[i64]
        ensures { result.now ≡ self.now.numbers }
    {
        self.numbers.as_slice()
    }

    /// A bound on the absolute values of the numbers.
    pub fn most(&self) -> u64
        ensures { AreAtMost self.now.numbers result }
    {
        self.most
    }

    /// Sets `next` to hold for each place the first place from there on where the row isn't 0.
    pub fn note_places(&self, next: &mut [usize])
        requires { length next.old ≡ length self.now.numbers + 1 }
        ensures { AreNextPlaces self.now.numbers next.new }
    {
        note_places(self.numbers.as_slice(), next);
    }

    /// The row, with the least bound on its numbers.
    fn with_exact_bound(self) -> WideRow
        ensures { result ≡ self }
    {
        let most = greatest_size(self.numbers.as_slice());
        WideRow {
            numbers: self.numbers,
            denominator: self.denominator,
            most,
        }
    }

    /// Puts the row over its least denominator.
    #[inline(never)]
    pub fn shorten(&mut self)
        requires some { 0 < self.old.denominator }
        requires short { AreShort self.old.numbers }
        ensures { IsShortened self.old self.new }
    {
        let shared = divisor(self.numbers.as_slice(), self.denominator);
        if shared.is_one() {
            return;
        }
        divide(self.numbers.as_mut_slice(), &shared);
        self.denominator = shared.size_quotient(self.denominator);
        self.most = greatest_size(self.numbers.as_slice());
    }

    /// The row as one whose multiples are subtracted from others; `next` has the next places where it isn't 0.
    #[inline]
    fn as_subtrahend<'a>(&'a self, next: &'a [usize]) -> Subtrahend<'a>
        requires { AreNextPlaces self.now.numbers next.now }
        ensures { result ≡ self.now.numbers }
    {
        Subtrahend::new(self.numbers.as_slice(), next, self.most)
    }

    /// Subtracts the multiple of the leaving row `own` that makes this row's entry at the entering column 0. `entry` and `pivot` are the
    /// entries of this row and of `own` there. `false` if a number would be above `limit`: then nothing is known of the row.
    fn reduce(&mut self, own: &WideRow, next: &[usize], entry: i64, pivot: i64, limit: u64) -> bool
        requires row { IsUsable (length own.now.numbers) limit self.old }
        requires own { IsUsable (length own.now.numbers) limit own.now }
        requires places { AreNextPlaces own.now.numbers next.now }
        requires entry { unsigned_abs entry < signed_limit }
        requires pivot { pos 1 ≤ℤ pivot }
        requires limit { limit < signed_limit }
        ensures less { OnTrue result (IsWholeRowReduced (length own.now.numbers) limit self.old own.now entry pivot self.new) }
        ensures usable { OnTrue result (IsUsable (length own.now.numbers) limit self.new) }
    {
        let (a, b) = lowest_terms(pivot, entry);
        let Some(denominator) = short_product(self.denominator, a.unsigned_abs()) else {
            return false;
        };
        let by = own.as_subtrahend(next);
        match combine(self.numbers.as_mut_slice(), &by, a, b, self.most, limit) {
            Some(most) => {
                self.denominator = denominator;
                self.most = most;
                true
            }
            None => {
                self.most = greatest_size(self.numbers.as_slice());
                false
            }
        }
    }

    /// Updates the row in a step in which `own` leaves, whose entry at the entering column is `pivot`; this row's entry there is `entry`.
    /// `next` has the next places where `own` isn't 0. `false` if a number would be above `limit`: then nothing is known of the row.
    #[inline(never)]
    pub fn update(
        &mut self,
        own: &WideRow,
        next: &[usize],
        entry: i64,
        pivot: i64,
        limit: u64,
    ) -> bool
        requires row { IsUsable (length own.now.numbers) limit self.old }
        requires own { IsUsable (length own.now.numbers) limit own.now }
        requires places { AreNextPlaces own.now.numbers next.now }
        requires entry { unsigned_abs entry < signed_limit }
        requires some { ¬ (entry ≡ pos 0) }
        requires pivot { pos 1 ≤ℤ pivot }
        requires limit { limit < signed_limit }
        ensures { OnTrue result (IsUpdated (length own.now.numbers) limit self.old own.now entry pivot self.new) }
    {
        if !self.reduce(own, next, entry, pivot, limit) {
            return false;
        }
        if is_large(self.denominator) {
            self.shorten();
        }
        true
    }

    /// The leaving row after a step: divided by `pivot`, its entry at the entering column, and put over its least denominator.
    pub fn divided_by(self, pivot: i64) -> WideRow
        requires pivot { pos 1 ≤ℤ pivot }
        requires short { AreShort self.numbers }
        ensures { IsQuotient self pivot result }
    {
        let mut row = WideRow {
            numbers: self.numbers,
            denominator: pivot.unsigned_abs(),
            most: self.most,
        };
        row.shorten();
        row.with_exact_bound()
    }
}

/// Whether a denominator is large. The least one takes a gcd over the whole row, and so is found only then.
fn is_large(denominator: u64) -> bool {
    denominator > 1 << 16
}
