//! The steps by which the hull of rays is made again, for whoever judges it.
ghost use Rattle.std.specs.Prelude.{◌≡◌, ◌≤◌, All, IfOk, drop, length, map, option_map};
ghost use Rattle.it_space.specs.Answers.{certificate_view};
ghost use Rattle.it_space.specs.Spaces.{IsSpace, size_of};
ghost use Rattle.it_redundant.specs.Reduction.{IsSystemUnder};
ghost use Rattle.it_hull.specs.Constants.{constants};
ghost use Rattle.it_hull.specs.Hulls.{first_rows};
ghost use Rattle.it_spans.specs.Drops.{drop_view};
ghost use Rattle.it_spans.specs.HullRows.{AreHullRows};
ghost use Rattle.it_spans.specs.Spans.{step_views};
ghost use Rattle.it_spans.specs.Theorems.{AreKept, IsFrame};
ghost use Rattle.it_bounds.specs.HullSteps.{AreMade, numbered_drops};
ghost use Rattle.it_bounds.specs.StepViews.{IsMadeStep, IsReducedStep, goes_first};
ghost use Rattle.it_space.specs.Rows.{most_system_rows};

use it_eliminate::Eliminated;
use it_hull::{constants, first_rows, with_ray};
use it_problems::{Problem, System};
use it_prove::Effort;
use it_redundant::{kept_system, reduce};
use it_space::{Certificate, Point, Row, Space};
use it_spans::{Frame, RowDrop, Step};
use std::alloc::{AllocError, Global};

/// A step, and the rows that stay after it.
struct Made {
    step: Step,
    rows: Vec<Row>,
}

/// Whether `row` is number `next` of the rows that are dropped, counted from 0.
fn goes_next(row: &Row, dropped: &[(Row, Certificate)], next: usize) -> bool
    ensures { result ≡ goes_first row.now (drop next dropped.now) }
{
    next < dropped.len() && row.terms() == dropped[next].0.terms()
}

/// The dropped rows, each by its number in the list as it stands then: the number of the rows before it that weren't dropped.
fn numbered_drops(
    alloc: Global,
    rows: &[Row],
    dropped: &[(Row, Certificate)],
) -> Result<Vec<RowDrop>, AllocError>
    ensures { IfOk result (λ v. map drop_view v.items ≡ numbered_drops 0 rows.now (map (λ d. (d.0, certificate_view d.1)) dropped.now)) }
{
    let mut drops: Vec<RowDrop> = Vec::new(alloc);
    for (i, row) in rows.iter().enumerate() {
        let next = drops.len();
        if goes_next(row, dropped, next) {
            let proof = dropped[next].1.copy(alloc)?;
            drops.push(RowDrop {
                row: i - next,
                proof,
            })?;
        }
    }
    Ok(drops)
}

/// A copy of `ray`.
fn copied_ray(alloc: Global, space: Space, ray: &Point) -> Result<Point, AllocError>
    requires space { IsSpace space }
    requires ray { length ray.now ≡ size_of space }
    ensures { IfOk result (λ p. p ≡ ray.now) }
{
    let values = ray.values().iter().copied().collect(alloc)?;
    Ok(Point::new(space, values))
}

/// The step of `ray`: it and the rows of `left` that a reduction drops; with the rows that stay.
fn reduced_step(
    alloc: Global,
    left: &System,
    givens: &Problem,
    effort: Effort,
    ray: &Point,
) -> Result<Made, AllocError>
    requires left { IsSystemUnder givens.now left.now }
    requires few_rows { length left.now.rows.items ≤ most_system_rows }
    requires ray { length ray.now ≡ size_of left.now.space }
    ensures { IfOk result (IsReducedStep givens.now effort left.now.rows.items ray.now) }
{
    let reduced = reduce(alloc, left, givens, effort)?;
    let drops = numbered_drops(alloc, left.rows.as_slice(), reduced.dropped.as_slice())?;
    let mut kept = kept_system(alloc, left.space, &reduced)?;
    let rows = std::mem::replace(&mut kept.rows, Vec::new(alloc));
    let ray = copied_ray(alloc, left.space, ray)?;
    Ok(Made {
        step: Step { ray, drops },
        rows,
    })
}

/// The step of `ray` after the rows `rows`, with the rows that stay; None where it leaves too many rows, or a number passes the limit.
fn made_step(
    alloc: Global,
    frame: Frame,
    givens: &Problem,
    effort: Effort,
    rows: Vec<Row>,
    ray: &Point,
) -> Result<Option<Made>, AllocError>
    requires frame { IsFrame frame }
    requires givens { givens.now ≡ constants frame.space }
    requires rows { AreHullRows frame rows.items }
    requires ray { length ray.now ≡ size_of frame.space }
    ensures { IfOk result (IsMadeStep frame effort rows.items ray.now) }
{
    let hull = System {
        space: frame.space,
        rows,
    };
    let left = with_ray(alloc, &hull, ray, frame.spare, frame.rows)?;
    match left {
        Eliminated::Region(next) => {
            let made = reduced_step(alloc, &next, givens, effort, ray)?;
            Ok(Some(made))
        }
        Eliminated::Rows { rate: _ } => Ok(None),
        Eliminated::Wide { rate: _ } => Ok(None),
    }
}

/// The steps by which the hull of these rays is made, each with the rows that a reduction drops after it; none where one more ray leaves
/// more rows than the frame allows, or a number passes the limit.
pub fn hull_steps(
    alloc: Global,
    frame: Frame,
    kept: &[u32],
    effort: Effort,
    rays: &[Point],
) -> Result<Option<Vec<Step>>, AllocError>
    requires frame { IsFrame frame }
    requires kept { AreKept frame kept.now }
    requires rays { All (λ ray. length ray ≡ size_of frame.space) rays.now }
    ensures { IfOk result (λ s. AreMade frame effort (first_rows kept.now) rays.now (option_map (λ v. step_views v.items) s)) }
{
    let givens = constants(alloc, frame.space)?;
    let mut rows = first_rows(alloc, kept)?;
    let mut steps = Vec::new(alloc);
    for ray in rays {
        match made_step(alloc, frame, &givens, effort, rows, ray)? {
            Some(made) => {
                let Made { step, rows: next } = made;
                steps.push(step)?;
                rows = next;
            }
            None => return Ok(None),
        }
    }
    Ok(Some(steps))
}
