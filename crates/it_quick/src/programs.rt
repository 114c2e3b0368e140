//! The linear program of a run: which weights of its columns, none of them below 0, sum to its right side at least cost?
//! Its rows are the places from 2 on. Place 0 is that of sets without entropy, and has the number 0; place 1 is the right side.

use crate::numbers::{at, number_at};
use it_orbits::Submodular;
use std::alloc::{AllocError, Global};

/// The column h(plus) + h(other_plus) - h(minus) - h(other_minus) of an inequality, each set by its place.
#[derive(Clone, Copy)]
pub struct Inequality {
    pub plus: u16,
    pub other_plus: u16,
    pub minus: u16,
    pub other_minus: u16,
    pub cost: i64,
}

impl Inequality {
    /// The places of its sets.
    pub fn places(&self) -> (u16, u16, u16, u16) {
        (self.plus, self.other_plus, self.minus, self.other_minus)
    }

    /// The entries of the negated column, those at one place apart from each other.
    pub fn negated(&self, alloc: Global) -> Result<Vec<Entry>, AllocError> {
        let mut entries = Vec::new(alloc);
        for (place, number) in [
            (self.plus, -1i32),
            (self.other_plus, -1),
            (self.minus, 1),
            (self.other_minus, 1),
        ] {
            if place != 0 {
                entries.push(Entry { place, number })?;
            }
        }
        Ok(entries)
    }

    /// The column's entry in `row`, a row of the inverse.
    #[inline]
    pub fn value(&self, row: &[i32]) -> i64 {
        let plus = number_at(row, self.plus).wrapping_add(number_at(row, self.other_plus));
        let minus = number_at(row, self.minus).wrapping_add(number_at(row, self.other_minus));
        plus.wrapping_sub(minus)
    }

    /// The column's value at `prices`.
    #[inline]
    pub fn price(&self, prices: &[i64]) -> i64 {
        let plus = price_at(prices, self.plus).wrapping_add(price_at(prices, self.other_plus));
        let minus = price_at(prices, self.minus).wrapping_add(price_at(prices, self.other_minus));
        plus.wrapping_sub(minus)
    }
}

/// The price at `place`.
#[inline]
fn price_at(prices: &[i64], place: u16) -> i64 {
    at(prices, usize::from(place), 0)
}

/// A nonzero number of a column, and its place.
#[derive(Clone, Copy, PartialEq, Eq)]
pub struct Entry {
    pub place: u16,
    pub number: i32,
}

/// The column of a constraint, or the sum of it and of an inequality.
#[derive(Drop)]
pub struct Column {
    pub entries: Vec<Entry>,
    pub cost: i64,
    /// The number of the constraint among the generators of the problem.
    pub generator: u32,
    /// Whether it is the constraint, negated.
    pub negated: bool,
    /// The inequality that is added.
    pub rest: Option<Submodular>,
}

impl Column {
    /// Whether the column has the same entries as `other`.
    pub fn is_alike(&self, other: &Column) -> bool {
        self.entries.as_slice() == other.entries.as_slice()
    }

    /// The column's entry in `row`, a row of the inverse.
    pub fn value(&self, row: &[i32]) -> i64 {
        let mut sum: i64 = 0;
        for entry in self.entries.as_slice() {
            let product = i64::from(entry.number).wrapping_mul(number_at(row, entry.place));
            sum = sum.wrapping_add(product);
        }
        sum
    }

    /// The column's value at `prices`.
    pub fn price(&self, prices: &[i64]) -> i64 {
        let mut sum: i64 = 0;
        for entry in self.entries.as_slice() {
            let product = i64::from(entry.number).wrapping_mul(price_at(prices, entry.place));
            sum = sum.wrapping_add(product);
        }
        sum
    }
}

/// A linear program. Its columns are the inequalities and then the others, numbered from 0 on.
#[derive(Drop)]
pub struct Program {
    pub inequalities: Vec<Inequality>,
    pub others: Vec<Column>,
    /// The right side at each place.
    pub right: Vec<i32>,
    // columns that have cost 0 for now, each with its own cost
    waived: Vec<(usize, i64)>,
}

impl Program {
    /// The program of `width` places without columns, whose right side is 0.
    pub fn new(alloc: Global, width: usize) -> Result<Program, AllocError> {
        Ok(Program {
            inequalities: Vec::new(alloc),
            others: Vec::new(alloc),
            right: Vec::from_elem(alloc, 0i32, width)?,
            waived: Vec::new(alloc),
        })
    }

    /// The number of places.
    pub fn width(&self) -> usize {
        self.right.len()
    }

    /// Adds `entry` to the right side.
    pub fn add_right(&mut self, entry: &Entry) {
        let place = usize::from(entry.place);
        if place < self.right.len() {
            self.right[place] = self.right[place].wrapping_add(entry.number);
        }
    }

    /// The number of columns.
    pub fn columns(&self) -> usize {
        self.inequalities.len().saturating_add(self.others.len())
    }

    /// Column `column`, if it isn't an inequality's.
    pub fn other(&self, column: usize) -> Option<&Column> {
        self.others
            .get(column.wrapping_sub(self.inequalities.len()))
    }

    /// The entry of column `column` in `row`.
    #[inline]
    pub fn entry(&self, column: usize, row: &[i32]) -> i64 {
        if column < self.inequalities.len() {
            return self.inequalities[column].value(row);
        }
        match self.other(column) {
            Some(other) => other.value(row),
            None => 0,
        }
    }

    /// The reduced cost of a column at `prices` over the denominator `denominator`, times `denominator`.
    #[inline]
    pub fn reduced_cost(&self, column: usize, prices: &[i64], denominator: i64) -> i64 {
        let (cost, price) = self.cost_and_price(column, prices);
        denominator.wrapping_mul(cost).wrapping_sub(price)
    }

    /// Sets the cost of a column to 0, until `put_costs_back` is called.
    pub fn waive_cost(&mut self, column: usize) -> Result<(), AllocError> {
        let cost = self.replace_cost(column, 0);
        if cost != 0 {
            self.waived.push((column, cost))?;
        }
        Ok(())
    }

    /// Sets the cost of each column to its own again.
    pub fn put_costs_back(&mut self) {
        for k in 0..self.waived.len() {
            if let Some(waived) = self.waived.get(k) {
                let (column, cost) = *waived;
                self.replace_cost(column, cost);
            }
        }
        self.waived.clear();
    }

    /// Sets the cost of a column to `cost`, and returns the old one; 0 if there is no such column.
    fn replace_cost(&mut self, column: usize, cost: i64) -> i64 {
        let first = self.inequalities.len();
        let place = column.wrapping_sub(first);
        if column < first {
            std::mem::replace(&mut self.inequalities[column].cost, cost)
        } else if place < self.others.len() {
            std::mem::replace(&mut self.others[place].cost, cost)
        } else {
            0
        }
    }

    /// A column's cost, and its value at `prices`.
    #[inline]
    fn cost_and_price(&self, column: usize, prices: &[i64]) -> (i64, i64) {
        if column < self.inequalities.len() {
            let inequality = &self.inequalities[column];
            return (inequality.cost, inequality.price(prices));
        }
        match self.other(column) {
            Some(other) => (other.cost, other.price(prices)),
            None => (0, 0),
        }
    }
}
