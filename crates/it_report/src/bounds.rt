//! The line about an outer bound.
ghost use Rattle.std.specs.Prelude.{◌≡◌, ◌+◌, IfOk, length, All};
ghost use Rattle.it_space.specs.Rows.{IsOver};
ghost use Rattle.it_space.specs.Spaces.{size_of};
ghost use Rattle.it_certificate.specs.Bounds.{HasBoundsShape, bounds_view};
ghost use Rattle.it_report.specs.BoundsVerdicts.{HullVerdictIs, parts_verdict};
ghost use Rattle.it_report.specs.Steps.{IsJudgedBounds, IsVerdictOver};

use crate::lines::{JudgedLine, hull_line, verdict_line};
use crate::rows::{is_valid, proofs_verdict, rays_verdict};
use it_certificate::ReportedBounds;
use it_check::Verdict;
use it_hull::kept_coordinates;
use it_problems::Problem;
use it_question::types::Question;
use it_rates::{gone_rates, problem_of_lines};
use it_spans::{Frame, HullVerdict, check_hull};
use std::alloc::{AllocError, Global};

/// The most rows that one more ray may leave while the hull is made.
const MOST_ROWS: usize = 4096;

/// The verdict on the certificates of the rows and on the points of the rays, in this order.
fn parts_verdict(problem: &Problem, bounds: &ReportedBounds) -> Verdict
    requires rows { All (IsOver (size_of problem.now.space)) bounds.now.rows.items }
    requires rays { All (λ s. length s.ray ≡ size_of problem.now.space) bounds.now.steps.items }
    ensures verdict { result ≡ parts_verdict problem.now (bounds_view bounds.now) }
    ensures over { IsVerdictOver (size_of problem.now.space + 1) result }
{
    let verdict = proofs_verdict(problem, bounds.rows.as_slice(), bounds.proofs.as_slice());
    if is_valid(&verdict) {
        rays_verdict(problem, bounds.steps.as_slice())
    } else {
        verdict
    }
}

/// The verdict on the rows as the hull of the rays. Multipliers stand at the first rate that is eliminated.
fn hull_verdict(
    alloc: Global,
    question: &Question,
    bounds: &ReportedBounds,
) -> Result<HullVerdict, AllocError>
    requires fits { HasBoundsShape question.now.body (bounds_view bounds.now) }
    ensures { IfOk result (HullVerdictIs question.now.body (bounds_view bounds.now)) }
{
    question.facts();
    let space = question.space();
    let gone = gone_rates(question.verb());
    let kept = kept_coordinates(alloc, space, gone)?;
    let frame = Frame {
        space,
        spare: gone[0],
        rows: MOST_ROWS,
    };
    let verdict = check_hull(
        alloc,
        frame,
        kept.as_slice(),
        bounds.steps.as_slice(),
        bounds.rows.as_slice(),
    )?;
    Ok(verdict)
}

/// The line about an outer bound: the first thing wrong with a certificate of a row or with a point of a ray; if nothing is,
/// whether the rows are the hull of the rays. All lines of the question are constraints, `row` lines too.
pub fn bounds_line(
    alloc: Global,
    k: usize,
    question: &Question,
    bounds: &ReportedBounds,
) -> Result<JudgedLine, AllocError>
    requires fits { HasBoundsShape question.now.body (bounds_view bounds.now) }
    ensures { IfOk result (λ j. IsJudgedBounds k question.now.body (bounds_view bounds.now) j.text.items j.invalid) }
{
    let problem = problem_of_lines(alloc, question)?;
    let verdict = parts_verdict(&problem, bounds);
    if !is_valid(&verdict) {
        return verdict_line(alloc, k, question.names(), &verdict);
    }
    let hull = hull_verdict(alloc, question, bounds)?;
    hull_line(alloc, k, &hull)
}
