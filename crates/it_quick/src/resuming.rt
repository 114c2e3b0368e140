//! The state in which a run begins at the basis of an earlier one, with another right side and other columns.
//!
//! Inequalities keep their numbers, and the column of a constraint is found by its entries. A basic column that no longer exists stays
//! basic, as an artificial one that has to leave. Costs may be chosen freely: all prices are 0 at first, and as the basic columns are
//! given cost 0, no column has a negative reduced cost.

use crate::programs::{Column, Program};
use crate::rows::InverseRow;
use crate::running::State;
use std::alloc::{AllocError, Global};

/// A column that has moved has mostly moved by at most this many places.
const NEAR: usize = 2;

/// The place, in the range from `from` up to `to`, `to` excluded, of a column with the same entries as `column`.
fn found(columns: &[Column], column: &Column, from: usize, to: usize) -> Option<usize> {
    for place in from..to {
        if columns.get(place)?.is_alike(column) {
            return Some(place);
        }
    }
    None
}

/// The present place of `column`, which was at `place`.
fn place_now(columns: &[Column], column: &Column, place: usize) -> Option<usize> {
    let near = place.saturating_sub(NEAR);
    match found(columns, column, near, columns.len()) {
        Some(now) => Some(now),
        None => found(columns, column, 0, near),
    }
}

/// The present number of the column that had the number `number`. `None` if it no longer exists.
fn number_now(program: &Program, before: &[Column], number: usize) -> Option<usize> {
    let first = program.inequalities.len();
    if number < first {
        return Some(number);
    }
    let place = number.wrapping_sub(first);
    let now = place_now(program.others.as_slice(), before.get(place)?, place)?;
    Some(first.wrapping_add(now))
}

/// Updates a row to the numbers of columns and the right side of `program`. `false` if its right side is too large.
fn put_row(row: &mut InverseRow, before: &[Column], program: &Program) -> bool {
    if let Some(number) = row.basic() {
        row.rename(number_now(program, before, number));
    }
    row.put_right(program.right.as_slice())
}

/// The state of `program` at the basis of an earlier one, which had the same inequalities and the other columns `before`. `None` if a
/// number is too large.
pub fn resumed(
    alloc: Global,
    mut rows: Vec<InverseRow>,
    before: &[Column],
    program: &mut Program,
) -> Result<Option<State>, AllocError> {
    for i in 0..rows.len() {
        if !put_row(&mut rows[i], before, program) {
            return Ok(None);
        }
        if let Some(column) = rows[i].basic() {
            program.waive_cost(column)?;
        }
    }
    Ok(Some(State::at_basis(alloc, program, rows)?))
}
