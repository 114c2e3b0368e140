//! The columns of a generator: one for an inequality, two for an equation.
ghost use Rattle.std.specs.Prelude.{◌≡◌, ◌++◌, OnOk};
ghost use Rattle.it_columns.specs.Columns.{columns_by};

use crate::rows::opposite_row;
use it_problems::Kind;
use it_space::Row;
use std::alloc::{AllocError, Global};

/// Appends the columns of a generator of this kind with `row`: for an inequality the row, for an equation also the negated row.
pub fn push_row(
    columns: &mut Vec<Row>,
    alloc: Global,
    kind: Kind,
    row: Row,
) -> Result<(), AllocError>
    ensures { OnOk result (columns.new.items ≡ columns.old.items ++ columns_by kind row) }
{
    match kind {
        Kind::Inequality => {
            columns.push(row)?;
            Ok(())
        }
        Kind::Equation => {
            let other = opposite_row(alloc, &row)?;
            columns.push(row)?;
            columns.push(other)?;
            Ok(())
        }
    }
}
