//! The marks of rows: whether a row follows from the others.
ghost use Rattle.std.specs.Prelude.{◌≡◌, ◌≤◌, All, IfOk, length, map};
ghost use Rattle.it_space.specs.declared.answers.Mark.TheVariants.{Unsettled};
ghost use Rattle.it_space.specs.Rows.{IsOver, most_system_rows};
ghost use Rattle.it_space.specs.Spaces.{IsSpace, size_of};
ghost use Rattle.it_bounds.specs.RowReplies.{AreMarked};

use it_answer::marked_rows;
use it_eliminate::copied_rows;
use it_hull::constants;
use it_problems::System;
use it_prove::Effort;
use it_redundant::reduce;
use it_space::{Mark, Row, Space};
use std::alloc::{AllocError, Global};

/// The rows in order, each with its mark before it, by a reduction where all variables are constant, so that rates alone count. If the
/// reduction drops a row after all, each row is unsettled.
pub fn with_marks(
    alloc: Global,
    space: Space,
    rows: &[Row],
    effort: Effort,
) -> Result<Vec<(Mark, Row)>, AllocError>
    requires space { IsSpace space }
    requires rows { All (IsOver (size_of space)) rows.now }
    requires few { length rows.now ≤ most_system_rows }
    ensures { IfOk result (λ v. AreMarked space effort rows.now v.items) }
{
    let constants = constants(alloc, space)?;
    let own = copied_rows(alloc, rows)?;
    let system = System { space, rows: own };
    let reduced = reduce(alloc, &system, &constants, effort)?;
    if reduced.dropped.is_empty() {
        let marked = marked_rows(alloc, reduced.kept)?;
        Ok(marked)
    } else {
        let marked = unsettled_rows(alloc, rows)?;
        Ok(marked)
    }
}

/// The rows, each unsettled.
fn unsettled_rows(alloc: Global, rows: &[Row]) -> Result<Vec<(Mark, Row)>, AllocError>
    ensures { IfOk result (λ v. v.items ≡ map (λ row. (Unsettled, row)) rows.now) }
{
    let mut marked = Vec::new(alloc);
    for row in rows {
        let copy = row.copy(alloc)?;
        marked.push((Mark::Unsettled, copy))?;
    }
    Ok(marked)
}
