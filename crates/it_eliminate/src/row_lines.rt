//! Rows as constraints of `row` lines, appended to a problem.
ghost use Rattle.std.specs.Prelude.{◌≡◌, [], ◌∷◌, ◌++◌, ◌≤◌, length, All, OnOk, IfOk};
ghost use Rattle.it_space.specs.Rows.{IsOver, most_system_rows};
ghost use Rattle.it_space.specs.Spaces.{size_of};
ghost use Rattle.it_eliminate.specs.RowLines.{row_constraints, with_rows};

use it_problems::{Constraint, Kind, Origin, Problem};
use it_space::Row;
use std::alloc::{AllocError, Global};

/// `row` as the constraint of the `row` line number `line`, counted from 1.
fn row_constraint(alloc: Global, line: usize, row: &Row) -> Result<Constraint, AllocError>
    requires { line ≤ most_system_rows }
    ensures { IfOk result (λ c. c ∷ [] ≡ row_constraints line (row.now ∷ [])) }
{
    Ok(Constraint {
        row: row.copy(alloc)?,
        kind: Kind::Inequality,
        origin: Origin::Rate { line: line as u16 },
    })
}

/// Copies of `constraints`.
fn copies(alloc: Global, constraints: &[Constraint]) -> Result<Vec<Constraint>, AllocError>
    ensures { IfOk result (λ v. v.items ≡ constraints.now) }
{
    let mut copies = Vec::new(alloc);
    for constraint in constraints {
        copies.push(constraint.copy(alloc)?)?;
    }
    Ok(copies)
}

/// Appends `rows` to `constraints`, as those of `row` lines counted from 1.
fn push_rows(
    alloc: Global,
    constraints: &mut Vec<Constraint>,
    rows: &[Row],
) -> Result<(), AllocError>
    requires { length rows.now ≤ most_system_rows }
    ensures { OnOk result (constraints.new.items ≡ constraints.old.items ++ row_constraints 1 rows.now) }
{
    for (i, row) in rows.iter().enumerate() {
        constraints.push(row_constraint(alloc, i + 1, row)?)?;
    }
    Ok(())
}

/// The problem `givens`, with `rows` appended as constraints of `row` lines counted from 1.
pub fn problem_with(alloc: Global, givens: &Problem, rows: &[Row]) -> Result<Problem, AllocError>
    requires few_givens { length givens.now.constraints ≤ most_system_rows }
    requires few_rows { length rows.now ≤ most_system_rows }
    requires rows { All (IsOver (size_of givens.now.space)) rows.now }
    ensures { IfOk result (λ p. p ≡ with_rows givens.now rows.now) }
{
    givens.facts();
    let mut constraints = copies(alloc, givens.constraints())?;
    push_rows(alloc, &mut constraints, rows)?;
    Ok(Problem {
        space: givens.space(),
        constraints,
    })
}
