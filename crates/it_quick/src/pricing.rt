//! Prices of the rows, at which no column has a negative reduced cost, and the entering column.
ghost use Rattle.std.specs.Prelude.{◌≡◌, ◌<◌, ◌≤◌, ◌^◌, unsigned_abs};

use crate::numbers::at;
use crate::programs::Program;
use crate::rows::RIGHT;
use it_vectors::numbers::greatest_size;
use it_vectors::{Divisor, lowest_terms, narrow, product, short_product};
use std::alloc::{AllocError, Global};

/// Bounds on prices: in lowest terms, and before they are put in lowest terms.
const MOST_PRICE: u64 = 1 << 52;

const MOST_ON_THE_WAY: u64 = 1 << 62;

/// A bound on the denominator of prices.
const MOST_DENOMINATOR: u64 = 1 << 40;

/// A column that may enter: its entry in the leaving row, which is above 0, and its reduced cost.
#[derive(Clone, Copy)]
pub struct Entering {
    pub column: usize,
    pub entry: i64,
    pub cost: i64,
}

impl Entering {
    /// Whether the column costs less than `other`, for each unit of its entry.
    #[inline]
    fn is_cheaper(&self, other: &Entering) -> bool {
        let own = i128::from(self.cost).wrapping_mul(i128::from(other.entry));
        own < i128::from(other.cost).wrapping_mul(i128::from(self.entry))
    }
}

/// The cheaper of `best`, the best so far, and `other`; `best` if they cost the same.
#[inline]
fn cheaper(best: Option<Entering>, other: Entering) -> Option<Entering> {
    match best {
        Some(entering) if !other.is_cheaper(&entering) => best,
        _ => Some(other),
    }
}

/// `price` times `factor` plus `number` times `times`. `None` if it is large.
fn raised(price: i64, factor: i64, number: i32, times: i64) -> Option<i64> {
    let sum = product(price, factor).checked_add(product(i64::from(number), times))?;
    narrow(sum, MOST_ON_THE_WAY)
}

/// Prices by place: whole numbers over one denominator.
#[derive(Drop)]
pub struct Prices {
    numbers: Vec<i64>,
    denominator: u64,
}

impl Prices {
    /// Prices of 0 at `width` places.
    pub fn start(alloc: Global, width: usize) -> Result<Prices, AllocError> {
        Ok(Prices {
            numbers: Vec::from_elem(alloc, 0i64, width)?,
            denominator: 1,
        })
    }

    /// The denominator as a signed number.
    fn signed_denominator(&self) -> i64 {
        i64::try_from(self.denominator).unwrap_or(i64::MAX)
    }

    /// The entering column for the leaving row `row`: of the columns with an entry above 0, the first that costs least for each unit of
    /// its entry. `None` if there is no such column.
    pub fn cheapest(&self, program: &Program, row: &[i32]) -> Option<Entering> {
        let prices = self.numbers.as_slice();
        let denominator = self.signed_denominator();
        let mut best: Option<Entering> = None;
        for column in 0..program.columns() {
            let entry = program.entry(column, row);
            if entry > 0 {
                let cost = program.reduced_cost(column, prices, denominator);
                best = cheaper(
                    best,
                    Entering {
                        column,
                        entry,
                        cost,
                    },
                );
            }
        }
        best
    }

    /// Raises the prices along `row` until the entering column has reduced cost 0. `false` if a number becomes too large.
    pub fn raise(&mut self, row: &[i32], entering: Entering) -> bool {
        if entering.entry < 1 || entering.cost == i64::MIN {
            return false;
        }
        let (factor, times) = lowest_terms(entering.entry, entering.cost);
        let Some(denominator) = short_product(self.denominator, factor.unsigned_abs()) else {
            return false;
        };
        for k in 0..self.numbers.len() {
            if k != RIGHT {
                let Some(price) = raised(self.numbers[k], factor, at(row, k, 0), times) else {
                    return false;
                };
                self.numbers[k] = price;
            }
        }
        self.put_over(denominator);
        self.denominator <= MOST_DENOMINATOR && greatest_size(self.numbers.as_slice()) <= MOST_PRICE
    }

    /// Puts the prices over the denominator `denominator`, in lowest terms.
    fn put_over(&mut self, denominator: u64) {
        self.denominator = denominator;
        if denominator <= 1 {
            return;
        }
        let shared = it_vectors::numbers::divisor(self.numbers.as_slice(), denominator);
        if shared.is_one() {
            return;
        }
        for k in 0..self.numbers.len() {
            self.numbers[k] = quotient(self.numbers[k], &shared);
        }
        self.denominator = shared.size_quotient(denominator);
    }
}

/// The quotient of `price` by `shared`.
fn quotient(price: i64, shared: &Divisor) -> i64
    requires { 0 < shared.now.value }
{
    if price == i64::MIN {
        price
    } else {
        shared.quotient(price)
    }
}
