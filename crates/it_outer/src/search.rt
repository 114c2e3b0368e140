//! The search for outer bounds.
ghost use Rattle.std.specs.Prelude.{◌≡◌, ◌<◌, ◌≤◌, [], length, All, IfOk};
ghost use Rattle.it_space.specs.Rows.{IsOver, most_system_rows};
ghost use Rattle.it_space.specs.Spaces.{size_of};
ghost use Rattle.it_outer.specs.Bounds.{IsRightOuter};
ghost use Rattle.it_hull.specs.KeptRates.{kept_coordinates};
ghost use Rattle.it_outer.specs.Outer.{outer_view, search_without};
ghost use Rattle.it_outer.specs.Rounds.{AreOfSpace, AreOutcomes, IsFrame, search_of};
ghost use Rattle.it_outer.specs.Search.{PassWithEnds, SearchEnds, SecondEnds};
ghost use Rattle.it_outer.specs.declared.types.Outer.TheVariants as OuterEnds;

use crate::extremes::extreme_rays;
use crate::outcomes::Outcomes;
use crate::passes::pass;
use crate::types::{Bounds, Frame, Limits, Outer, OuterCause};
use it_hull::{constants, kept_coordinates};
use it_problems::Problem;
use it_space::RowFault;
use std::alloc::{AllocError, Global};

/// The frame of the search for bounds of `problem` without the rates in `gone`.
fn frame<'a>(
    alloc: Global,
    problem: &'a Problem,
    gone: &[u8],
    limits: Limits,
) -> Result<Frame<'a>, AllocError>
    requires gone { All (λ r. r < problem.now.space.rates) gone.now }
    requires some { 1 ≤ length gone.now }
    requires few_rows { limits.rows ≤ most_system_rows }
    ensures frame { IfOk result IsFrame }
    ensures search { IfOk result (λ f. search_of f ≡ search_without problem.now gone.now limits) }
{
    problem.facts();
    let constants = constants(alloc, problem.space())?;
    let kept = kept_coordinates(alloc, problem.space(), gone)?;
    Ok(Frame {
        problem,
        constants,
        kept,
        spare: gone[0],
        limits,
    })
}

/// The second pass, from the extreme rays of the first. `Width` if the value of a row at a ray passes the limit.
fn second_pass(
    alloc: Global,
    frame: &Frame<'_>,
    outcomes: &mut Outcomes,
    first: &Bounds,
) -> Result<Outer, AllocError>
    requires frame { IsFrame frame.now }
    requires outcomes { AreOutcomes (search_of frame.now).problem frame.now.limits.effort outcomes.old }
    requires rows { All (IsOver (size_of frame.now.problem.now.space)) first.now.hull.rows.items }
    requires rays { AreOfSpace (search_of frame.now) first.now.rays.items }
    ensures { IfOk result (λ o. SecondEnds (search_of frame.now) (outer_view (OuterEnds.Bounds first.now)) (outer_view o)) }
{
    match extreme_rays(
        alloc,
        frame.problem.space(),
        frame.kept.as_slice(),
        first.hull.rows.as_slice(),
        first.rays.as_slice(),
    ) {
        Ok(rays) => pass(alloc, frame, outcomes, rays),
        Err(RowFault::Wide) => Ok(Outer::Undecided(OuterCause::Width)),
        Err(RowFault::Memory) => Err(AllocError),
    }
}

/// The second pass after the first one, unless that left the bounds undecided.
fn second(
    alloc: Global,
    frame: &Frame<'_>,
    outcomes: &mut Outcomes,
    first: Outer,
) -> Result<Outer, AllocError>
    requires frame { IsFrame frame.now }
    requires outcomes { AreOutcomes (search_of frame.now).problem frame.now.limits.effort outcomes.old }
    requires first { PassWithEnds (search_of frame.now) [] (outer_view first) }
    ensures { IfOk result (λ o. SecondEnds (search_of frame.now) (outer_view first) (outer_view o)) }
{
    match first {
        Outer::Bounds(bounds) => second_pass(alloc, frame, outcomes, &bounds),
        Outer::Undecided(cause) => Ok(Outer::Undecided(cause)),
    }
}

/// Both passes.
fn both_passes(alloc: Global, frame: &Frame<'_>) -> Result<Outer, AllocError>
    requires { IsFrame frame.now }
    ensures { IfOk result (λ o. SearchEnds (search_of frame.now) (outer_view o)) }
{
    let mut outcomes = Outcomes::new(alloc, frame.problem, frame.limits.effort)?;
    let first = pass(alloc, frame, &mut outcomes, Vec::new(alloc))?;
    let end = second(alloc, frame, &mut outcomes, first)?;
    Ok(end)
}

/// The bounds of `problem` on its rates but those in `gone`, counted from 0: rows with certificates, which are the hull of rays, each of
/// which meets the problem. The search goes on while a row of the hull of the rays so far is refuted: that point is added as a ray. It
/// is made twice, the second time from the extreme rays that it found first, so that the bounds depend neither on rays that aren't
/// extreme nor on the order in which rays were found.
pub fn outer(
    alloc: Global,
    problem: &Problem,
    gone: &[u8],
    limits: Limits,
) -> Result<Outer, AllocError>
    requires gone { All (λ r. r < problem.now.space.rates) gone.now }
    requires some { 1 ≤ length gone.now }
    requires few_rows { limits.rows ≤ most_system_rows }
    ensures ends { IfOk result (λ o. SearchEnds (search_without problem.now gone.now limits) (outer_view o)) }
    ensures right { IfOk result (λ o. IsRightOuter problem.now (kept_coordinates problem.now.space gone.now) (outer_view o)) }
{
    problem.facts();
    let frame = frame(alloc, problem, gone, limits)?;
    let end = both_passes(alloc, &frame)?;
    Ok(end)
}
