//! Drops of rows from the list of a hull.
ghost use Rattle.std.specs.Prelude.{◌≡◌, ◌<◌, ◌≤◌, length, map, All, IfOk, IfNone, OnOk};
ghost use Rattle.std.specs.List.{remove};
ghost use Rattle.it_space.specs.Rows.{IsOver, most_system_rows};
ghost use Rattle.it_space.specs.Spaces.{size_of};
ghost use Rattle.it_hull.specs.Constants.{constants};
ghost use Rattle.it_spans.specs.Drops.{after_drops, drop_fault, drop_verdict, drop_view, fault_or, verdict_fault};

use crate::types::{Fault, RowDrop};
use it_check::{Verdict, check_yes};
use it_eliminate::problem_with;
use it_problems::Problem;
use it_space::Row;
use std::alloc::{AllocError, Global};

/// Removes the row of `drop` from `rows`, and returns the verdict on its certificate that the row follows from those that are left.
fn take_row(
    alloc: Global,
    givens: &Problem,
    rows: &mut Vec<Row>,
    drop: &RowDrop,
) -> Result<Verdict, AllocError>
    requires givens { givens.now ≡ constants givens.now.space }
    requires over { All (IsOver (size_of givens.now.space)) rows.old.items }
    requires few { length rows.old.items ≤ most_system_rows }
    requires listed { drop.now.row < length rows.old.items }
    ensures verdict { IfOk result (λ v. v ≡ drop_verdict givens.now.space rows.old.items (drop_view drop.now)) }
    ensures rows { rows.new.items ≡ remove rows.old.items drop.now.row }
{
    givens.facts();
    let row = rows.remove(drop.row);
    let problem = problem_with(alloc, givens, rows.as_slice())?;
    Ok(check_yes(&problem, &row, &drop.proof))
}

/// The fault that `verdict` means for the drop of this number after the ray of that one; `None` if it is `Valid`.
fn verdict_fault(ray: usize, number: usize, verdict: Verdict) -> Option<Fault>
    ensures { result ≡ verdict_fault ray number verdict }
{
    match verdict {
        Verdict::Valid => None,
        verdict => Some(Fault::Refused {
            ray,
            drop: number,
            verdict,
        }),
    }
}

/// The fault of `drop`; `None` if it has none, and then its row is removed.
fn drop_row(
    alloc: Global,
    givens: &Problem,
    rows: &mut Vec<Row>,
    drop: &RowDrop,
    ray: usize,
    number: usize,
) -> Result<Option<Fault>, AllocError>
    requires givens { givens.now ≡ constants givens.now.space }
    requires over { All (IsOver (size_of givens.now.space)) rows.old.items }
    requires few { length rows.old.items ≤ most_system_rows }
    ensures fault { IfOk result (λ f. f ≡ drop_fault givens.now.space ray number rows.old.items (drop_view drop.now)) }
    ensures rows { IfOk result (λ f. IfNone f (rows.new.items ≡ remove rows.old.items drop.now.row)) }
{
    if drop.row >= rows.len() {
        return Ok(Some(Fault::NoRow { ray, drop: number }));
    }
    let verdict = take_row(alloc, givens, rows, drop)?;
    Ok(verdict_fault(ray, number, verdict))
}

/// The first fault of the drops after a ray; `None` if there is none, and then their rows are removed.
pub fn drop_rows(
    alloc: Global,
    givens: &Problem,
    rows: &mut Vec<Row>,
    drops: &[RowDrop],
    ray: usize,
) -> Result<Option<Fault>, AllocError>
    requires givens { givens.now ≡ constants givens.now.space }
    requires over { All (IsOver (size_of givens.now.space)) rows.old.items }
    requires few { length rows.old.items ≤ most_system_rows }
    ensures { IfOk result (λ f. after_drops givens.now.space ray 0 rows.old.items (map drop_view drops.now) ≡ fault_or f (Ok rows.new.items)) }
{
    for (number, drop) in drops.iter().enumerate() {
        let fault = drop_row(alloc, givens, rows, drop, ray, number)?;
        if fault.is_some() {
            return Ok(fault);
        }
    }
    Ok(None)
}
