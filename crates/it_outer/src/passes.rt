//! One pass of the search: while a row of the hull is refuted, its point is added as a ray.
ghost use Rattle.std.specs.Prelude.{◌≡◌, ◌-◌, zero, length, IfOk, OnOk};
ghost use Rattle.it_space.specs.Spaces.{size_of};
ghost use Rattle.it_outer.specs.Outer.{outer_view};
ghost use Rattle.it_outer.specs.Rounds.{AreOfSpace, AreOutcomes, IsAfterRound, IsFrame, IsHullSystem, IsRound, IsWithPoint, search_of};
ghost use Rattle.it_outer.specs.Search.{PassEnds, PassWithEnds};

use crate::hulls::{hull_of, next_hull};
use crate::outcomes::Outcomes;
use crate::types::{Bounds, Frame, Next, Outer, OuterCause, Round, Visit};
use crate::visits::visit;
use it_problems::System;
use it_space::Point;
use std::alloc::{AllocError, Global};

/// Adds `point` as a ray to `hull` and `rays`.
fn with_point(
    alloc: Global,
    frame: &Frame<'_>,
    hull: &System,
    rays: Vec<Point>,
    point: Point,
) -> Result<Round, AllocError>
    requires frame { IsFrame frame.now }
    requires hull { IsHullSystem (search_of frame.now) hull.now }
    requires rays { AreOfSpace (search_of frame.now) rays.items }
    requires point { length point ≡ size_of frame.now.problem.now.space }
    ensures ends { IfOk result (IsWithPoint (search_of frame.now) hull.now.rows.items rays.items point) }
    ensures round { IfOk result (IsRound (search_of frame.now)) }
{
    match next_hull(alloc, frame, hull, &point)? {
        Next::Hull(next) => {
            let mut found = rays;
            found.push(point)?;
            Ok(Round::Goes(next, found))
        }
        Next::TooMany => Ok(Round::Ends(Outer::Undecided(OuterCause::Rows))),
        Next::TooWide => Ok(Round::Ends(Outer::Undecided(OuterCause::Width))),
    }
}

/// One round of a pass that may still add a ray.
fn round(
    alloc: Global,
    frame: &Frame<'_>,
    outcomes: &mut Outcomes,
    hull: System,
    rays: Vec<Point>,
) -> Result<Round, AllocError>
    requires frame { IsFrame frame.now }
    requires outcomes { AreOutcomes (search_of frame.now).problem frame.now.limits.effort outcomes.old }
    requires hull { IsHullSystem (search_of frame.now) hull }
    requires rays { AreOfSpace (search_of frame.now) rays.items }
    ensures ends { IfOk result (IsAfterRound (search_of frame.now) hull.rows.items rays.items) }
    ensures round { IfOk result (IsRound (search_of frame.now)) }
    ensures outcomes { OnOk result (AreOutcomes (search_of frame.now).problem frame.now.limits.effort outcomes.new) }
{
    match visit(
        alloc,
        frame.problem,
        hull.rows.as_slice(),
        frame.limits.effort,
        outcomes,
    )? {
        Visit::Proved(proofs) => Ok(Round::Ends(Outer::Bounds(Bounds { hull, proofs, rays }))),
        Visit::Refuted(point) => with_point(alloc, frame, &hull, rays, point),
        Visit::Left(row, cause) => Ok(Round::Ends(Outer::Undecided(OuterCause::Run(row, cause)))),
    }
}

/// The end of a pass that may add no further ray.
fn last_round(
    alloc: Global,
    frame: &Frame<'_>,
    outcomes: &mut Outcomes,
    hull: System,
    rays: Vec<Point>,
) -> Result<Outer, AllocError>
    requires frame { IsFrame frame.now }
    requires outcomes { AreOutcomes (search_of frame.now).problem frame.now.limits.effort outcomes.old }
    requires hull { IsHullSystem (search_of frame.now) hull }
    ensures ends { IfOk result (λ o. PassEnds (search_of frame.now) zero hull.rows.items rays.items (outer_view o)) }
    ensures outcomes { OnOk result (AreOutcomes (search_of frame.now).problem frame.now.limits.effort outcomes.new) }
{
    match visit(
        alloc,
        frame.problem,
        hull.rows.as_slice(),
        frame.limits.effort,
        outcomes,
    )? {
        Visit::Proved(proofs) => Ok(Outer::Bounds(Bounds { hull, proofs, rays })),
        Visit::Refuted(_) => Ok(Outer::Undecided(OuterCause::Rays)),
        Visit::Left(row, cause) => Ok(Outer::Undecided(OuterCause::Run(row, cause))),
    }
}

/// The end of a pass from `hull` and its `rays`.
fn rounds(
    alloc: Global,
    frame: &Frame<'_>,
    outcomes: &mut Outcomes,
    mut hull: System,
    mut rays: Vec<Point>,
) -> Result<Outer, AllocError>
    requires frame { IsFrame frame.now }
    requires outcomes { AreOutcomes (search_of frame.now).problem frame.now.limits.effort outcomes.old }
    requires hull { IsHullSystem (search_of frame.now) hull }
    requires rays { AreOfSpace (search_of frame.now) rays.items }
    ensures ends { IfOk result (λ o. PassEnds (search_of frame.now) (frame.now.limits.rays - length rays.items) hull.rows.items rays.items (outer_view o)) }
    ensures outcomes { OnOk result (AreOutcomes (search_of frame.now).problem frame.now.limits.effort outcomes.new) }
{
    for count in rays.len()..frame.limits.rays {
        match round(alloc, frame, outcomes, hull, rays)? {
            Round::Goes(next, found) => {
                hull = next;
                rays = found;
            }
            Round::Ends(end) => return Ok(end),
        }
    }
    last_round(alloc, frame, outcomes, hull, rays)
}

/// The end of a pass that begins with `rays`.
pub fn pass(
    alloc: Global,
    frame: &Frame<'_>,
    outcomes: &mut Outcomes,
    rays: Vec<Point>,
) -> Result<Outer, AllocError>
    requires frame { IsFrame frame.now }
    requires outcomes { AreOutcomes (search_of frame.now).problem frame.now.limits.effort outcomes.old }
    requires rays { AreOfSpace (search_of frame.now) rays.items }
    ensures ends { IfOk result (λ o. PassWithEnds (search_of frame.now) rays.items (outer_view o)) }
    ensures outcomes { OnOk result (AreOutcomes (search_of frame.now).problem frame.now.limits.effort outcomes.new) }
{
    match hull_of(alloc, frame, rays.as_slice())? {
        Next::Hull(hull) => rounds(alloc, frame, outcomes, hull, rays),
        Next::TooMany => Ok(Outer::Undecided(OuterCause::Rows)),
        Next::TooWide => Ok(Outer::Undecided(OuterCause::Width)),
    }
}
