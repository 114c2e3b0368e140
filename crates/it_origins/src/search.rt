//! The search for constraints whose sum is a given row. The checker judges the result, so the functions here have no contracts about it.

use crate::columns::{Column, all_columns, rows_of, used_coordinates};
use crate::sums::{ColumnSum, column_sum};
use it_problems::Problem;
use it_space::Row;
use std::alloc::{AllocError, Global};

/// Shorter sums are searched for if there are at most this many columns: constraints, and negated equations.
const MOST_COLUMNS: usize = 80;

/// The most times that a sum is shortened.
const MOST_ROUNDS: u32 = 16;

/// Columns, and weights of some of them, by their places, that sum to a row.
pub struct Choice {
    pub columns: Vec<Column>,
    pub sum: ColumnSum,
}

impl Drop for Choice {
    fn drop(self) {
        let Choice { columns: _, sum: _ } = self;
    }
}

/// A sum of some of `columns` that equals `row`, up to a positive factor.
fn sum_of(
    alloc: Global,
    problem: &Problem,
    row: &Row,
    columns: Vec<Column>,
) -> Result<Option<Choice>, AllocError> {
    let rows = rows_of(alloc, problem.constraints(), columns.as_slice())?;
    let coordinates = used_coordinates(alloc, problem.space(), rows.as_slice(), row)?;
    match column_sum(alloc, coordinates.as_slice(), rows.as_slice(), row)? {
        Some(sum) => Ok(Some(Choice { columns, sum })),
        None => Ok(None),
    }
}

/// `columns` without the one at `place`.
fn without(alloc: Global, columns: &[Column], place: usize) -> Result<Vec<Column>, AllocError> {
    let mut others = Vec::new(alloc);
    for (i, column) in columns.iter().enumerate() {
        if i != place {
            others.push(*column)?;
        }
    }
    Ok(others)
}

/// A sum of fewer columns than those of `found`, if one is found without one of them.
fn shorter(
    alloc: Global,
    problem: &Problem,
    row: &Row,
    found: &Choice,
) -> Result<Option<Choice>, AllocError> {
    for weight in found.sum.weights.as_slice() {
        let others = without(alloc, found.columns.as_slice(), weight.0)?;
        if let Some(choice) = sum_of(alloc, problem, row, others)? {
            if choice.sum.weights.len() < found.sum.weights.len() {
                return Ok(Some(choice));
            }
        }
    }
    Ok(None)
}

/// A single column of which `row` is a multiple, if there is one.
fn single(
    alloc: Global,
    problem: &Problem,
    row: &Row,
    columns: &[Column],
) -> Result<Option<Choice>, AllocError> {
    for column in columns {
        let only = Vec::from_slice(alloc, &[*column])?;
        if let Some(choice) = sum_of(alloc, problem, row, only)? {
            return Ok(Some(choice));
        }
    }
    Ok(None)
}

/// A sum of constraints that equals `row`, up to a positive factor: a single one if there is one; else, if there are few, one without
/// columns that could be left out.
pub fn short_sum(
    alloc: Global,
    problem: &Problem,
    row: &Row,
) -> Result<Option<Choice>, AllocError> {
    let columns = all_columns(alloc, problem.constraints())?;
    if let Some(choice) = single(alloc, problem, row, columns.as_slice())? {
        return Ok(Some(choice));
    }
    let is_few = columns.len() <= MOST_COLUMNS;
    let Some(mut best) = sum_of(alloc, problem, row, columns)? else {
        return Ok(None);
    };
    for _ in 0..MOST_ROUNDS {
        if !is_few {
            return Ok(Some(best));
        }
        match shorter(alloc, problem, row, &best)? {
            Some(choice) => best = choice,
            None => return Ok(Some(best)),
        }
    }
    Ok(Some(best))
}
