//! The verdict on rows that are claimed to be the hull of rays.
ghost use Rattle.std.specs.Prelude.{◌≡◌, drop, IfOk};
ghost use Rattle.it_eliminate.specs.Elimination.{is_same};
ghost use Rattle.it_hull.specs.Hulls.{IsHull};
ghost use Rattle.it_spans.specs.HullRows.{same_first};
ghost use Rattle.it_spans.specs.Spans.{rays_of, spanned_view, step_views};
ghost use Rattle.it_spans.specs.Theorems.{AreKept, AreSteps, IsFrame};
ghost use Rattle.it_spans.specs.Verdicts.{VerdictIs, first_difference, rows_verdict};
ghost use Rattle.it_spans.specs.declared.types.HullVerdict.TheVariants.{Valid as IsValid};

use crate::spans::hull;
use crate::types::{Frame, HullVerdict, Spanned, Step};
use it_space::Row;
use std::alloc::{AllocError, Global};

/// Whether two rows are equal.
fn is_same(row: &Row, other: &Row) -> bool
    ensures { result ≡ is_same row.now other.now }
{
    row.terms() == other.terms()
}

/// Whether two lists of rows have equal rows at `place`.
fn is_same_at(rows: &[Row], others: &[Row], place: usize) -> bool
    ensures { result ≡ same_first (drop place rows.now) (drop place others.now) }
{
    place < rows.len() && place < others.len() && is_same(&rows[place], &others[place])
}

/// The first place at which two lists of rows differ, or one of them ends; `None` if they are equal.
fn first_difference(rows: &[Row], others: &[Row]) -> Option<usize>
    ensures { result ≡ first_difference 0 rows.now others.now }
{
    for place in 0..rows.len() {
        if !is_same_at(rows, others, place) {
            return Some(place);
        }
    }
    if rows.len() < others.len() {
        Some(rows.len())
    } else {
        None
    }
}

/// The verdict on `rows` by `end`, the result of the steps.
fn rows_verdict(end: &Spanned, rows: &[Row]) -> HullVerdict
    ensures { result ≡ rows_verdict rows.now (spanned_view end.now) }
{
    match end {
        Spanned::Hull(hull) => match first_difference(hull.as_slice(), rows) {
            Some(place) => HullVerdict::OtherRow { place },
            None => HullVerdict::Valid,
        },
        Spanned::Faulty(fault) => HullVerdict::Faulty(*fault),
    }
}

/// Whether the hull of the rays of `steps` has exactly `rows`, in this order: `Valid`, or the first fault of the steps, or the first
/// place at which the hull has another row.
pub fn check_hull(
    alloc: Global,
    frame: Frame,
    kept: &[u32],
    steps: &[Step],
    rows: &[Row],
) -> Result<HullVerdict, AllocError>
    requires frame { IsFrame frame }
    requires kept { AreKept frame kept.now }
    requires steps { AreSteps frame steps.now }
    ensures verdict { IfOk result (VerdictIs frame kept.now (step_views steps.now) rows.now) }
    ensures hull { IfOk result (λ v. v ≡ IsValid → IsHull kept.now rows.now (rays_of (step_views steps.now))) }
{
    let end = hull(alloc, frame, kept, steps)?;
    Ok(rows_verdict(&end, rows))
}
