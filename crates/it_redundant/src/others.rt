//! The problem under which a row is judged, from one row to the next: the givens, and all other rows that are still in the list.
ghost use Rattle.std.specs.Prelude.{◌≡◌, ◌++◌, ◌+◌, ◌<◌, ◌≤◌, drop, get_or, length, take, OnErr, OnOk};
ghost use Rattle.it_problems.specs.declared.problems.Kind.TheVariants.{Inequality};
ghost use Rattle.it_redundant.specs.ReductionSteps.{IsInserted, IsRemoved, numbered};
ghost use Rattle.it_space.specs.Rows.{most_system_rows};

use it_problems::{Constraint, Origin};
use std::alloc::AllocError;

/// Numbers the constraints from `place` on as `row` lines, from number `line` on.
fn number_from(constraints: &mut Vec<Constraint>, place: usize, line: usize)
    requires place { place ≤ length constraints.old.items }
    requires few { line + length constraints.old.items ≤ most_system_rows + 1 + place }
    ensures { constraints.new.items ≡ take place constraints.old.items ++ numbered line (drop place constraints.old.items) }
{
    for i in place..constraints.len() {
        constraints[i].origin = Origin::Rate {
            line: (line + (i - place)) as u16,
        };
    }
}

/// Removes the row at `place`, which is `row` line number `line`, and returns its constraint; the numbers of those after it go down by
/// one.
pub fn remove_row(constraints: &mut Vec<Constraint>, place: usize, line: usize) -> Constraint
    requires place { place < length constraints.old.items }
    requires few { line + length constraints.old.items ≤ most_system_rows + 1 + place }
    ensures row { result ≡ get_or constraints.old.items place result }
    ensures rest { IsRemoved place line constraints.old.items constraints.new.items }
{
    let constraint = constraints.remove(place);
    number_from(constraints, place, line);
    constraint
}

/// Inserts the row of `constraint` at `place`, as `row` line number `line`; the numbers of those from there on go up by one.
pub fn insert_row(
    constraints: &mut Vec<Constraint>,
    place: usize,
    line: usize,
    constraint: Constraint,
) -> Result<(), AllocError>
    requires place { place ≤ length constraints.old.items }
    requires few { line + length constraints.old.items ≤ most_system_rows + place }
    requires kind { constraint.kind ≡ Inequality }
    ensures put { OnOk result (IsInserted place line constraint.row constraints.old.items constraints.new.items) }
    ensures stays { OnErr result (constraints.new.items ≡ constraints.old.items) }
{
    constraints.insert(place, constraint)?;
    number_from(constraints, place, line);
    Ok(())
}
