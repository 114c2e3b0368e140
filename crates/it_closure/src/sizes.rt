//! The size of the table with which the run about a problem begins.
ghost use Rattle.std.specs.Prelude.{◌≡◌, ◌≤◌, ◌*◌, length, IfOk};
ghost use Rattle.it_closure.specs.Sizes.{column_count, constraint_columns, table_size};
ghost use Rattle.it_problems.specs.Problems.{most_constraints};

use crate::dependences::Dependences;
use it_elemental::count;
use it_problems::{Constraint, Kind, Problem};
use std::alloc::{AllocError, Global};

/// With at most this many variables the defined run about a problem is in reach, if its table isn't too large.
pub const MOST_VARIABLES_IN_REACH: u8 = 10;

/// The most entries of a table that is in reach.
pub const MOST_ENTRIES: u64 = 4000000;

/// The number of entries, rows times columns, of the table with which the run about `problem` begins. Each closed set other than the
/// closure of the empty set and each rate has a row. Each elemental inequality has a column, each inequality among the constraints one
/// and each equation two, and each row an artificial one.
#[tactic(auto, unfolding(crate::specs::Sizes::table_size))]
pub fn size(alloc: Global, problem: &Problem) -> Result<u64, AllocError>
    ensures { IfOk result (λ k. k ≡ table_size problem.now) }
{
    problem.facts();
    let dependences = Dependences::read(alloc, problem)?;
    let coordinates = dependences.closed(alloc, problem.space())?;
    let rows = coordinates.len() as u64;
    let constraints = constraint_columns(problem.constraints());
    let columns = count(problem.space().variables) as u64 + constraints + rows;
    Ok(rows * columns)
}

/// The number of columns of `constraints`.
fn constraint_columns(constraints: &[Constraint]) -> u64
    requires few { length constraints.now ≤ most_constraints }
    ensures value { result ≡ constraint_columns constraints.now }
    ensures few { result ≤ 2 * length constraints.now }
{
    let mut columns = 0;
    for constraint in constraints {
        columns += column_count(constraint.kind) as u64;
    }
    columns
}

/// The number of columns of a constraint, or a generator, of this kind.
pub fn column_count(kind: Kind) -> u32
    ensures value { result ≡ column_count kind }
    ensures few { result ≤ 2 }
{
    match kind {
        Kind::Inequality => 1,
        Kind::Equation => 2,
    }
}
