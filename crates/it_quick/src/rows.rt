//! Rows of the inverse of a basis: whole numbers in 32 bits over one denominator.
//!
//! A row has a number at each place of the program: at place 0 the number 0, and at place `RIGHT` the row's value at the right side.
ghost use Rattle.std.specs.Prelude.{◌≡◌};
ghost use Rattle.std.specs.Option.{IfNone, IfSome};
ghost use Rattle.it_vectors.specs.Stretches.{AreStretches};

use crate::numbers::at;
use it_vectors::narrow_numbers::{
    STRETCH, Subtrahend, combine, divide, divisor, greatest_size, note_stretches,
};
use it_vectors::{lowest_terms, short_product};
use std::alloc::{AllocError, Global};
use std::marker::Model;

/// The place of the right side.
pub const RIGHT: usize = 1;

/// A bound on the numbers of rows.
const LIMIT: u64 = (1 << 31) - 1;

/// A row is put in lowest terms only if its denominator or its numbers are above these bounds, as that takes a pass over the row.
const LARGE_DENOMINATOR: u64 = 1 << 12;

const LARGE: u64 = 1 << 20;

/// The sum of the squares of `numbers`, modulo 2^64.
fn sum_of_squares(numbers: &[i32]) -> u64 {
    let mut sum: u64 = 0;
    for k in 0..numbers.len() {
        let size = u64::from(numbers[k].unsigned_abs());
        sum = sum.wrapping_add(size.wrapping_mul(size));
    }
    sum
}

/// The value of a row's `numbers` at the right side `right`. `None` if it is large.
fn value_at(numbers: &[i32], right: &[i32]) -> Option<i32> {
    let mut sum: i128 = 0;
    for k in RIGHT + 1..right.len() {
        let product = i64::from(at(numbers, k, 0)).wrapping_mul(i64::from(at(right, k, 0)));
        sum = sum.wrapping_add(i128::from(product));
    }
    i32::try_from(sum).ok()
}

/// Divides `numbers` and their denominator `denominator` by their greatest common divisor, and returns the new denominator. `None` if the
/// divisor is 1, and then the numbers are unchanged.
fn shorten(numbers: &mut [i32], denominator: u64) -> Option<u64>
    ensures { IfNone result (numbers.new ≡ numbers.old) }
{
    if denominator <= 1 {
        return None;
    }
    let shared = divisor(numbers, denominator);
    if shared.is_one() {
        return None;
    }
    divide(numbers, &shared);
    Some(shared.size_quotient(denominator))
}

/// A row of the inverse of a basis.
#[derive(Drop)]
pub struct InverseRow {
    numbers: Vec<i32>,
    denominator: u64,
    // a bound on the absolute values of the numbers
    most: u64,
    // the sum of the squares of the numbers, which only the choice of a row uses
    squares: u64,
    basic: Option<usize>,
}

impl Model for InverseRow {
    ghost use Rattle.std.specs.Prelude.{List, ℤ};
    ghost use Rattle.it_vectors.specs.Sizes.{AreAtMost};

    ghost Value = { List ℤ };

    ghost view = { λ r. r.numbers.items };

    ghost invariant = { λ r. AreAtMost r.numbers.items r.most };
}

impl InverseRow {
    /// The row of the identity matrix with its 1 at `place`, of `width` places, with right side `right`.
    pub fn unit(
        alloc: Global,
        width: usize,
        place: usize,
        right: i32,
    ) -> Result<InverseRow, AllocError> {
        let mut numbers = Vec::from_elem(alloc, 0i32, width)?;
        if place < numbers.len() {
            numbers[place] = 1;
        }
        if RIGHT < numbers.len() {
            numbers[RIGHT] = right;
        }
        let most = greatest_size(numbers.as_slice());
        let squares = sum_of_squares(numbers.as_slice());
        Ok(InverseRow {
            numbers,
            denominator: 1,
            most,
            squares,
            basic: None,
        })
    }

    /// The numbers, which are numerators over the denominator.
    pub fn numbers(&self) -> &[i32] {
        self.numbers.as_slice()
    }

    /// The denominator.
    pub fn denominator(&self) -> u64 {
        self.denominator
    }

    /// The column that is basic in this row; `None` if that is an artificial one.
    pub fn basic(&self) -> Option<usize> {
        self.basic
    }

    /// The right side, a numerator over the denominator.
    pub fn right(&self) -> i32 {
        at(self.numbers.as_slice(), RIGHT, 0)
    }

    /// The infeasibility of the row: its right side, if that is below 0, or if an artificial column is basic; else 0.
    pub fn fault(&self) -> i32 {
        let right = self.right();
        if right > 0 && self.basic.is_some() {
            0
        } else {
            right
        }
    }

    /// Replaces the basic column by `column`; if that is `None`, the basic column has to leave, like an artificial one.
    pub fn rename(&mut self, column: Option<usize>) {
        self.basic = column;
    }

    /// Replaces the row's right side by its value at the right side `right`. `false` if that is too large: then the row is unchanged.
    pub fn put_right(&mut self, right: &[i32]) -> bool {
        let Some(value) = value_at(self.numbers.as_slice(), right) else {
            return false;
        };
        if RIGHT < self.numbers.len() {
            self.numbers[RIGHT] = value;
        }
        self.most = greatest_size(self.numbers.as_slice());
        self.squares = sum_of_squares(self.numbers.as_slice());
        true
    }

    /// The sum of the squares of the numbers, modulo 2^64.
    pub fn squares(&self) -> u64 {
        self.squares
    }

    /// Updates the row in a step in which `leaving` leaves, where this row has `entry` in the entering column. `false` if a number would
    /// be too large: then the row is unchanged.
    pub fn update(&mut self, leaving: &LeavingRow, entry: i64) -> bool {
        if leaving.pivot < 1 || entry == i64::MIN || self.numbers.len() != leaving.numbers.len() {
            return false;
        }
        let (a, b) = lowest_terms(leaving.pivot, entry);
        let Some(denominator) = short_product(self.denominator, a.unsigned_abs()) else {
            return false;
        };
        let Some(most) = combine(
            self.numbers.as_mut_slice(),
            &leaving.as_subtrahend(),
            a,
            b,
            self.most,
            LIMIT,
        ) else {
            return false;
        };
        self.most = most;
        self.denominator = denominator;
        if denominator > LARGE_DENOMINATOR || most > LARGE {
            self.put_in_lowest_terms();
        }
        self.squares = sum_of_squares(self.numbers.as_slice());
        true
    }

    /// Divides the numbers and the denominator by their greatest common divisor. `false` if that is 1.
    pub fn put_in_lowest_terms(&mut self) -> bool {
        match shorten(self.numbers.as_mut_slice(), self.denominator) {
            Some(smaller) => {
                self.denominator = smaller;
                self.most = greatest_size(self.numbers.as_slice());
                true
            }
            None => false,
        }
    }

    /// Replaces the row by `leaving`, the row that has left, in which `column` is now basic.
    pub fn leave(&mut self, leaving: LeavingRow, column: usize) {
        let LeavingRow {
            numbers,
            pivot,
            most,
            starts: _,
            noted: _,
        } = leaving;
        self.squares = sum_of_squares(numbers.as_slice());
        self.numbers = numbers;
        self.denominator = pivot.unsigned_abs();
        self.most = most;
        self.basic = Some(column);
    }
}

/// The leaving row, negated if needed so that its right side is above 0.
#[derive(Drop)]
pub struct LeavingRow {
    numbers: Vec<i32>,
    // its entry in the entering column, and its denominator once it has left
    pivot: i64,
    most: u64,
    // where the stretches begin outside of which the row is 0, and whether that is known
    starts: Vec<usize>,
    noted: bool,
}

impl Model for LeavingRow {
    ghost use Rattle.std.specs.Prelude.{List, ℤ};
    ghost use Rattle.std.specs.Bool.{OnTrue};
    ghost use Rattle.it_vectors.specs.Sizes.{AreAtMost};
    ghost use Rattle.it_vectors.specs.Stretches.{AreStretches};

    ghost Value = { List ℤ };

    ghost view = { λ r. r.numbers.items };

    ghost invariant = { λ r. (AreAtMost r.numbers.items r.most) × (OnTrue r.noted (AreStretches r.numbers.items r.starts.items)) };
}

impl LeavingRow {
    /// The leaving row `row`, before an entering column is chosen.
    pub fn new(alloc: Global, row: &InverseRow) -> Result<LeavingRow, AllocError> {
        let mut numbers = Vec::from_slice(alloc, row.numbers())?;
        if row.right() < 0 {
            negate(numbers.as_mut_slice());
        }
        let most = greatest_size(numbers.as_slice());
        let starts = Vec::with_capacity(alloc, numbers.len() / STRETCH + 1)?;
        Ok(LeavingRow {
            numbers,
            pivot: 1,
            most,
            starts,
            noted: false,
        })
    }

    /// The numbers.
    pub fn numbers(&self) -> &[i32] {
        self.numbers.as_slice()
    }

    /// The places where the stretches begin outside of which the row is 0, if they are known.
    fn known_starts(&self) -> Option<&[usize]>
        ensures { IfSome result (λ starts. AreStretches self.now starts.now) }
    {
        if self.noted {
            Some(self.starts.as_slice())
        } else {
            None
        }
    }

    /// The row as one whose multiples are subtracted from others.
    fn as_subtrahend(&self) -> Subtrahend<'_>
        ensures { result ≡ self.now }
    {
        Subtrahend::new(self.numbers.as_slice(), self.known_starts(), self.most)
    }

    /// Divides the row by `entry`, its entry in the entering column, which is above 0.
    pub fn divide_by(&mut self, entry: i64) {
        self.noted = false;
        let denominator = entry.unsigned_abs();
        let smaller = shorten(self.numbers.as_mut_slice(), denominator).unwrap_or(denominator);
        self.pivot = i64::try_from(smaller).unwrap_or(0);
        self.most = greatest_size(self.numbers.as_slice());
        self.noted = note_stretches(self.numbers.as_slice(), &mut self.starts);
    }

    /// If no column can enter, the point at which no column is below 0 and the right side is: the negated numbers, divided by a common
    /// divisor.
    pub fn point(self) -> Vec<i32> {
        let mut numbers = self.numbers;
        let right = at(numbers.as_slice(), RIGHT, 0);
        shorten(numbers.as_mut_slice(), u64::from(right.unsigned_abs()));
        negate(numbers.as_mut_slice());
        numbers
    }
}

/// Negates `numbers`.
fn negate(numbers: &mut [i32]) {
    for k in 0..numbers.len() {
        numbers[k] = numbers[k].wrapping_neg();
    }
}
