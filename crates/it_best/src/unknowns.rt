//! The unknowns of systems of equations, each with its coefficients and its columns.
ghost use Rattle.std.specs.Prelude.{◌≡◌, ◌<◌, ◌^◌, IfOk};
ghost use Rattle.it_polymatroid.specs.Elementals.{span};
ghost use Rattle.it_columns.specs.Columns.{columns};
ghost use Rattle.it_best.specs.Phases.{unknown_views};

use it_columns::push_row;
use it_fraction::Fraction;
use it_problems::Kind;
use it_space::Row;
use std::alloc::{AllocError, Global};

/// An unknown number: its coefficient in each equation, by the number of the equation, and its kind: at least 0 (`Inequality`), or any
/// number, like the weight of an equation (`Equation`).
pub struct Unknown {
    pub kind: Kind,
    pub row: Row,
}

impl Drop for Unknown {
    fn drop(self) {
        let Unknown { kind: _, row: _ } = self;
    }
}

/// Unknowns with weights of their columns, each above 0 and after the number of its column: a weighted sum of the columns.
#[derive(Drop)]
pub struct Sum<'a> {
    pub unknowns: &'a [Unknown],
    pub weights: &'a [(usize, Fraction)],
}

/// The columns of `unknowns`, in order: the row of an unknown that is at least 0, and of any other its row and the negated row.
pub fn columns(alloc: Global, unknowns: &[Unknown]) -> Result<Vec<Row>, AllocError>
    ensures { IfOk result (λ v. v.items ≡ columns (unknown_views unknowns.now)) }
{
    let mut columns = Vec::new(alloc);
    for unknown in unknowns {
        let row = unknown.row.copy(alloc)?;
        push_row(&mut columns, alloc, unknown.kind, row)?;
    }
    Ok(columns)
}

/// The numbers of `count` equations, from 1 on.
pub fn equations(alloc: Global, count: u32) -> Result<Vec<u32>, AllocError>
    requires { count < 2 ^ 31 }
    ensures { IfOk result (λ v. v.items ≡ span 1 count) }
{
    let mut numbers = Vec::new(alloc);
    for number in 1..count + 1 {
        numbers.push(number)?;
    }
    Ok(numbers)
}
