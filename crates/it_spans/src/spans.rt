//! The hull of rays, one step after the other.
ghost use Rattle.std.specs.Prelude.{◌≡◌, ◌≤◌, length, map, All, IfOk};
ghost use Rattle.it_space.specs.Rows.{IsOver, most_system_rows};
ghost use Rattle.it_space.specs.Spaces.{size_of};
ghost use Rattle.it_hull.specs.Constants.{constants};
ghost use Rattle.it_spans.specs.Drops.{after_drops, drop_view};
ghost use Rattle.it_spans.specs.HullRows.{AreHullRows};
ghost use Rattle.it_spans.specs.Spans.{SpanEnds, StepEnds, rays_of, spanned_view, step_view, step_views};
ghost use Rattle.it_spans.specs.Theorems.{AreKept, AreSteps, IsFrame, IsRightSpan};

use crate::drops::drop_rows;
use crate::types::{Fault, Frame, RowDrop, Spanned, Step};
use it_eliminate::Eliminated;
use it_hull::{constants, first_rows, with_ray};
use it_problems::{Problem, System};
use it_space::Row;
use std::alloc::{AllocError, Global};

/// Consumes the system and returns its rows.
fn rows_of(alloc: Global, system: System) -> Vec<Row>
    ensures { result.items ≡ system.rows.items }
{
    let mut system = system;
    std::mem::replace(&mut system.rows, Vec::new(alloc))
}

/// The rows of `system` that `drops` leave, or the first fault of the drops.
fn after_drops(
    alloc: Global,
    givens: &Problem,
    system: System,
    drops: &[RowDrop],
    ray: usize,
) -> Result<Spanned, AllocError>
    requires givens { givens.now ≡ constants givens.now.space }
    requires over { All (IsOver (size_of givens.now.space)) system.rows.items }
    requires few { length system.rows.items ≤ most_system_rows }
    ensures { IfOk result (λ s. spanned_view s ≡ after_drops givens.now.space ray 0 system.rows.items (map drop_view drops.now)) }
{
    let mut system = system;
    match drop_rows(alloc, givens, &mut system.rows, drops, ray)? {
        Some(fault) => Ok(Spanned::Faulty(fault)),
        None => Ok(Spanned::Hull(rows_of(alloc, system))),
    }
}

/// The rows of a hull after `step`, whose ray has the number `ray`, or the step's first fault.
fn after_step(
    alloc: Global,
    frame: Frame,
    givens: &Problem,
    rows: Vec<Row>,
    step: &Step,
    ray: usize,
) -> Result<Spanned, AllocError>
    requires frame { IsFrame frame }
    requires givens { givens.now ≡ constants frame.space }
    requires rows { AreHullRows frame rows.items }
    requires ray { length step.now.ray ≡ size_of frame.space }
    ensures { IfOk result (λ s. StepEnds frame ray rows.items (step_view step.now) (spanned_view s)) }
{
    let hull = System {
        space: frame.space,
        rows,
    };
    let left = with_ray(alloc, &hull, &step.ray, frame.spare, frame.rows)?;
    match left {
        Eliminated::Region(next) => {
            let end = after_drops(alloc, givens, next, step.drops.as_slice(), ray)?;
            Ok(end)
        }
        Eliminated::Rows { rate: _ } => Ok(Spanned::Faulty(Fault::TooMany { ray })),
        Eliminated::Wide { rate: _ } => Ok(Spanned::Faulty(Fault::TooWide { ray })),
    }
}

/// The rows of the hull of no rays after `steps`, or the first fault.
fn after_steps(
    alloc: Global,
    frame: Frame,
    kept: &[u32],
    steps: &[Step],
) -> Result<Spanned, AllocError>
    requires frame { IsFrame frame }
    requires kept { AreKept frame kept.now }
    requires steps { AreSteps frame steps.now }
    ensures { IfOk result (λ s. SpanEnds frame kept.now (step_views steps.now) (spanned_view s)) }
{
    let givens = constants(alloc, frame.space)?;
    let mut rows = first_rows(alloc, kept)?;
    for (ray, step) in steps.iter().enumerate() {
        match after_step(alloc, frame, &givens, rows, step, ray)? {
            Spanned::Hull(next) => rows = next,
            Spanned::Faulty(fault) => return Ok(Spanned::Faulty(fault)),
        }
    }
    Ok(Spanned::Hull(rows))
}

/// The hull of the rays of `steps`, made from the rows of no rays by one step after the other: each adds its ray by elimination, and
/// then removes the rows of its drops. The first fault, in the order of the steps and of their drops, is the end.
pub fn hull(
    alloc: Global,
    frame: Frame,
    kept: &[u32],
    steps: &[Step],
) -> Result<Spanned, AllocError>
    requires frame { IsFrame frame }
    requires kept { AreKept frame kept.now }
    requires steps { AreSteps frame steps.now }
    ensures ends { IfOk result (λ s. SpanEnds frame kept.now (step_views steps.now) (spanned_view s)) }
    ensures hull { IfOk result (λ s. IsRightSpan kept.now (rays_of (step_views steps.now)) (spanned_view s)) }
{
    // named before it is returned, so that the contract of the call is available at the return
    let end = after_steps(alloc, frame, kept, steps)?;
    Ok(end)
}
