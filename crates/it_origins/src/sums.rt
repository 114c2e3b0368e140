//! Sums of columns that equal a row, up to a positive factor. The users of the result judge it, so the functions here have no contracts
//! about it.
use it_columns::common_scale;
use it_fraction::{Fraction, signed_product};
use it_simplex::{Budget, Solved, solve};
use it_space::Row;
use std::alloc::{AllocError, Global};

/// The most steps of a run that searches for weights of columns.
const STEPS: u32 = 20000;

/// Whole weights of columns, by their places, and the scale by which their sum is a multiple of a row.
pub struct ColumnSum {
    pub scale: i128,
    pub weights: Vec<(usize, i128)>,
}

impl Drop for ColumnSum {
    fn drop(self) {
        let ColumnSum {
            scale: _,
            weights: _,
        } = self;
    }
}

/// The least common multiple of the denominators of `weights`; `None` if it is too large.
pub fn multiple_of_denominators(
    alloc: Global,
    weights: &[(usize, Fraction)],
) -> Result<Option<i128>, AllocError> {
    let mut numbers = Vec::new(alloc);
    for weight in weights {
        numbers.push(weight.1)?;
    }
    match common_scale(numbers.as_slice()) {
        Ok(scale) => Ok(Some(scale as i128)),
        Err(_) => Ok(None),
    }
}

/// `weights` times the least common multiple of their denominators; `None` if a number is too large.
fn whole_sum(
    alloc: Global,
    weights: &[(usize, Fraction)],
) -> Result<Option<ColumnSum>, AllocError> {
    let Some(scale) = multiple_of_denominators(alloc, weights)? else {
        return Ok(None);
    };
    let mut whole = Vec::new(alloc);
    for weight in weights {
        let Ok(number) = signed_product(weight.1.num(), scale / weight.1.den()) else {
            return Ok(None);
        };
        whole.push((weight.0, number))?;
    }
    Ok(Some(ColumnSum {
        scale,
        weights: whole,
    }))
}

/// Nonzero weights by which `columns` add up to `row` at `coordinates`, by ascending place. `None` if there are none, if the run makes
/// too many steps, or if a number is too large.
pub fn column_weights(
    alloc: Global,
    coordinates: &[u32],
    columns: &[Row],
    row: &Row,
) -> Result<Option<Vec<(usize, Fraction)>>, AllocError> {
    match solve(alloc, coordinates, columns, row, Budget::at_most(STEPS))? {
        Solved::Weights(weights) => Ok(Some(weights)),
        _ => Ok(None),
    }
}

/// Like `column_weights`, with the weights made whole.
pub fn column_sum(
    alloc: Global,
    coordinates: &[u32],
    columns: &[Row],
    row: &Row,
) -> Result<Option<ColumnSum>, AllocError> {
    match column_weights(alloc, coordinates, columns, row)? {
        Some(weights) => whole_sum(alloc, weights.as_slice()),
        None => Ok(None),
    }
}
