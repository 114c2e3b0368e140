//! Constraints as columns of a run.
ghost use Rattle.std.specs.Prelude.{◌≤◌, ◌^◌, length};
ghost use Rattle.it_space.specs.Spaces.{IsSpace};

use it_columns::opposite_row;
use it_problems::{Constraint, Kind};
use it_space::{Row, Space};
use std::alloc::{AllocError, Global};

/// A constraint by its number among a problem's, with its row negated or not.
#[derive(Clone, Copy)]
pub struct Column {
    pub number: u32,
    pub is_negated: bool,
}

/// The columns of `constraints`: each constraint, and after each equation its negation.
pub fn all_columns(alloc: Global, constraints: &[Constraint]) -> Result<Vec<Column>, AllocError>
    requires { length constraints.now ≤ 2 ^ 20 }
{
    let mut columns = Vec::new(alloc);
    for (i, constraint) in constraints.iter().enumerate() {
        let number = i as u32;
        columns.push(Column {
            number,
            is_negated: false,
        })?;
        if constraint.kind == Kind::Equation {
            columns.push(Column {
                number,
                is_negated: true,
            })?;
        }
    }
    Ok(columns)
}

/// The rows of `columns`.
pub fn rows_of(
    alloc: Global,
    constraints: &[Constraint],
    columns: &[Column],
) -> Result<Vec<Row>, AllocError> {
    let mut rows = Vec::new(alloc);
    for column in columns {
        let index = column.number as usize;
        if index < constraints.len() {
            let row = &constraints[index].row;
            rows.push(if column.is_negated {
                opposite_row(alloc, row)?
            } else {
                row.copy(alloc)?
            })?;
        }
    }
    Ok(rows)
}

/// Whether one of `rows` has a coefficient at `coordinate`.
fn is_used(rows: &[Row], coordinate: u32) -> bool {
    for row in rows {
        if row.coefficient(coordinate) != 0 {
            return true;
        }
    }
    false
}

/// The coordinates of `space` at which `row` or one of `rows` has a coefficient, in ascending order.
pub fn used_coordinates(
    alloc: Global,
    space: Space,
    rows: &[Row],
    row: &Row,
) -> Result<Vec<u32>, AllocError>
    requires { IsSpace space }
{
    let mut coordinates = Vec::new(alloc);
    for coordinate in 1..space.size() + 1 {
        if row.coefficient(coordinate) != 0 || is_used(rows, coordinate) {
            coordinates.push(coordinate)?;
        }
    }
    Ok(coordinates)
}
