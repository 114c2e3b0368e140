//! The hull of rays, one ray after the other.
ghost use Rattle.std.specs.Prelude.{◌≡◌, length, IfOk};
ghost use Rattle.it_space.specs.Spaces.{size_of};
ghost use Rattle.it_hull.specs.Hulls.{first_rows};
ghost use Rattle.it_outer.specs.Rounds.{AreOfSpace, IsAfterRay, IsFrame, IsHullSystem, IsNext, next_view, search_of};
ghost use Rattle.it_outer.specs.Search.{HullEnds, NextHull};

use crate::types::{Frame, Next};
use it_eliminate::Eliminated;
use it_hull::{first_rows, with_ray};
use it_problems::System;
use it_redundant::{kept_system, reduce};
use it_space::Point;
use std::alloc::{AllocError, Global};

/// The hull of no rays: each kept coordinate is 0.
fn first_hull(alloc: Global, frame: &Frame<'_>) -> Result<System, AllocError>
    requires { IsFrame frame.now }
    ensures rows { IfOk result (λ s. s.rows.items ≡ first_rows frame.now.kept.items) }
    ensures hull { IfOk result (IsHullSystem (search_of frame.now)) }
{
    let rows = first_rows(alloc, frame.kept.as_slice())?;
    Ok(System {
        space: frame.problem.space(),
        rows,
    })
}

/// The hull of the rays of `hull` and of `ray`, reduced: without rows that follow from the others.
pub fn next_hull(
    alloc: Global,
    frame: &Frame<'_>,
    hull: &System,
    ray: &Point,
) -> Result<Next, AllocError>
    requires frame { IsFrame frame.now }
    requires hull { IsHullSystem (search_of frame.now) hull.now }
    requires ray { length ray.now ≡ size_of frame.now.problem.now.space }
    ensures ends { IfOk result (λ n. NextHull (search_of frame.now) hull.now.rows.items ray.now (next_view n)) }
    ensures hull { IfOk result (IsNext (search_of frame.now)) }
{
    match with_ray(alloc, hull, ray, frame.spare, frame.limits.rows)? {
        Eliminated::Region(next) => {
            let reduced = reduce(alloc, &next, &frame.constants, frame.limits.effort)?;
            let system = kept_system(alloc, next.space, &reduced)?;
            Ok(Next::Hull(system))
        }
        Eliminated::Rows { rate: _ } => Ok(Next::TooMany),
        Eliminated::Wide { rate: _ } => Ok(Next::TooWide),
    }
}

/// The hull `next` with `ray` added, if there is a hull.
fn after_ray(alloc: Global, frame: &Frame<'_>, next: Next, ray: &Point) -> Result<Next, AllocError>
    requires frame { IsFrame frame.now }
    requires next { IsNext (search_of frame.now) next }
    requires ray { length ray.now ≡ size_of frame.now.problem.now.space }
    ensures ends { IfOk result (λ n. IsAfterRay (search_of frame.now) (next_view next) ray.now (next_view n)) }
    ensures hull { IfOk result (IsNext (search_of frame.now)) }
{
    match next {
        Next::Hull(hull) => next_hull(alloc, frame, &hull, ray),
        Next::TooMany => Ok(Next::TooMany),
        Next::TooWide => Ok(Next::TooWide),
    }
}

/// The hull of `rays`.
pub fn hull_of(alloc: Global, frame: &Frame<'_>, rays: &[Point]) -> Result<Next, AllocError>
    requires frame { IsFrame frame.now }
    requires rays { AreOfSpace (search_of frame.now) rays.now }
    ensures ends { IfOk result (λ n. HullEnds (search_of frame.now) (first_rows frame.now.kept.items) rays.now (next_view n)) }
    ensures hull { IfOk result (IsNext (search_of frame.now)) }
{
    let first = first_hull(alloc, frame)?;
    let mut next = Next::Hull(first);
    for ray in rays {
        next = after_ray(alloc, frame, next, ray)?;
    }
    Ok(next)
}
