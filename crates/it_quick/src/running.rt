//! The dual simplex method: at prices for which no column has a negative reduced cost, an infeasible row leaves in each step.

use crate::numbers::at;
use crate::pricing::{Entering, Prices};
use crate::programs::Program;
use crate::rows::{InverseRow, LeavingRow, RIGHT};
use it_vectors::lowest_terms;
use it_vectors::narrow_numbers::STRETCH;
use std::alloc::{AllocError, Global};

/// The end of a run.
#[derive(Drop)]
pub enum End {
    /// Weights of columns that sum to the right side.
    Weights(Vec<ColumnWeight>),
    /// Values at the places, at which no column is below 0 and the right side is.
    Point(Vec<i32>),
    /// A number was too large, or there were too many steps.
    GaveUp,
}

/// The weight of a column: `number` over the denominator `denominator`.
#[derive(Clone, Copy)]
pub struct ColumnWeight {
    pub column: usize,
    pub number: i64,
    pub denominator: u64,
}

/// The state of a run.
#[derive(Drop)]
pub struct State {
    rows: Vec<InverseRow>,
    prices: Prices,
}

/// An infeasible row.
#[derive(Clone, Copy)]
struct Faulty {
    index: usize,
    fault: i32,
    squares: u64,
}

/// The square of `x`.
fn square(x: i32) -> u128 {
    let size = u128::from(x.unsigned_abs());
    size.wrapping_mul(size)
}

impl Faulty {
    /// Whether the row is steeper than `other`: the square of its fault over the sum of its squares is greater.
    fn is_steeper(&self, other: &Faulty) -> bool {
        let own = square(self.fault).wrapping_mul(u128::from(other.squares));
        square(other.fault).wrapping_mul(u128::from(self.squares)) < own
    }
}

/// The steeper of `best`, the best so far, and `other`; `best` if they are equally steep.
fn steeper(best: Option<Faulty>, other: Faulty) -> Option<Faulty> {
    match best {
        Some(faulty) => {
            if other.is_steeper(&faulty) {
                Some(other)
            } else {
                best
            }
        }
        None => Some(other),
    }
}

/// The first of the steepest infeasible rows; `None` if all rows are feasible.
fn steepest(rows: &[InverseRow]) -> Option<Faulty> {
    let mut best: Option<Faulty> = None;
    for index in 0..rows.len() {
        let fault = rows[index].fault();
        if fault != 0 {
            let squares = rows[index].squares();
            best = steeper(
                best,
                Faulty {
                    index,
                    fault,
                    squares,
                },
            );
        }
    }
    best
}

/// The weight of the column that is basic in `row`, in lowest terms. `None` if an artificial column is, or the weight is 0.
fn weight(row: &InverseRow) -> Option<ColumnWeight> {
    let column = row.basic()?;
    let denominator = i64::try_from(row.denominator()).ok()?;
    if denominator < 1 || row.right() == 0 {
        return None;
    }
    let (denominator, number) = lowest_terms(denominator, i64::from(row.right()));
    Some(ColumnWeight {
        column,
        number,
        denominator: denominator.unsigned_abs(),
    })
}

/// The end by weights: those of the basic columns.
fn weights(alloc: Global, rows: &[InverseRow]) -> Result<End, AllocError> {
    let mut weights = Vec::new(alloc);
    for row in rows {
        if let Some(weight) = weight(row) {
            weights.push(weight)?;
        }
    }
    Ok(End::Weights(weights))
}

impl State {
    /// The start: the artificial columns are basic, and all prices are 0.
    pub fn start(alloc: Global, program: &Program) -> Result<State, AllocError> {
        let width = program.width();
        // whole stretches
        let room = (width / STRETCH).saturating_add(1).saturating_mul(STRETCH);
        let mut rows = Vec::with_capacity(alloc, width)?;
        for place in RIGHT + 1..width {
            let right = at(program.right.as_slice(), place, 0);
            rows.push(InverseRow::unit(alloc, room, place, right)?)?;
        }
        State::at_basis(alloc, program, rows)
    }

    /// The state at the basis of `rows`, with all prices 0.
    pub fn at_basis(
        alloc: Global,
        program: &Program,
        rows: Vec<InverseRow>,
    ) -> Result<State, AllocError> {
        let prices = Prices::start(alloc, program.width())?;
        Ok(State { rows, prices })
    }

    /// Consumes the state and returns the rows of the inverse of its basis.
    pub fn into_rows(self) -> Vec<InverseRow> {
        self.rows
    }

    /// The end of the run within `steps` steps.
    pub fn run(&mut self, alloc: Global, program: &Program, steps: u32) -> Result<End, AllocError> {
        for _ in 0..steps {
            if let Some(end) = self.step(alloc, program)? {
                return Ok(end);
            }
        }
        Ok(End::GaveUp)
    }

    /// Makes `column` basic in row `index`, which becomes `leaving`, and updates the other rows. `false` if a number becomes too large.
    fn pivot(
        &mut self,
        program: &Program,
        index: usize,
        leaving: LeavingRow,
        column: usize,
    ) -> bool {
        for i in 0..self.rows.len() {
            if i != index && !update(&mut self.rows, i, program, &leaving, column) {
                return false;
            }
        }
        match self.rows.get_mut(index) {
            Some(row) => {
                row.leave(leaving, column);
                true
            }
            None => false,
        }
    }

    /// Makes the step in which row `index` leaves and `entering` enters. `false` if a number becomes too large.
    fn exchange(
        &mut self,
        program: &Program,
        index: usize,
        mut leaving: LeavingRow,
        entering: Entering,
    ) -> bool {
        if !self.prices.raise(leaving.numbers(), entering) {
            return false;
        }
        leaving.divide_by(entering.entry);
        self.pivot(program, index, leaving, entering.column)
    }

    /// Makes one step, or returns the end of the run, if this is it.
    fn step(&mut self, alloc: Global, program: &Program) -> Result<Option<End>, AllocError> {
        let Some(Faulty { index, .. }) = steepest(self.rows.as_slice()) else {
            return Ok(Some(weights(alloc, self.rows.as_slice())?));
        };
        let Some(row) = self.rows.get(index) else {
            return Ok(Some(End::GaveUp));
        };
        let leaving = LeavingRow::new(alloc, row)?;
        let Some(entering) = self.prices.cheapest(program, leaving.numbers()) else {
            return Ok(Some(End::Point(leaving.point())));
        };
        if self.exchange(program, index, leaving, entering) {
            Ok(None)
        } else {
            Ok(Some(End::GaveUp))
        }
    }
}

/// Updates row `i` in a step in which `leaving` leaves and `column` enters. `false` if a number becomes too large.
fn update(
    rows: &mut Vec<InverseRow>,
    i: usize,
    program: &Program,
    leaving: &LeavingRow,
    column: usize,
) -> bool {
    let Some(row) = rows.get_mut(i) else {
        return false;
    };
    let entry = program.entry(column, row.numbers());
    if entry == 0 || row.update(leaving, entry) {
        return true;
    }
    row.put_in_lowest_terms() && row.update(leaving, program.entry(column, row.numbers()))
}
