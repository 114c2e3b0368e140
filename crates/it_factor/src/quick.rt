//! The factor by quick runs, with Dinkelbach's method (W. Dinkelbach, "On nonlinear fractional programming", 1967). A run about a number
//! times the left side less the right one proves that the number is a factor, or it refutes it by a point, at which the ratio of the
//! sides is the next number: a factor that holds there with equality. So the first number that is proved is the least factor. Where the
//! left side is at most 0 the numbers fall, and there is no least factor; where it is above 0 at one point and below it at another that
//! refutes the number, both together show that no factor holds. All that is answered comes from certificates and points that the check
//! finds valid.
ghost use Rattle.std.specs.Prelude.{◌≡◌, ◌≢◌, ◌*ℤ◌, pos, IfOk};
ghost use Rattle.std.specs.Option.{IfSome};
ghost use Rattle.it_space.specs.Answers.{certificate_view};
ghost use Rattle.it_space.specs.Spaces.{size_of};
ghost use Rattle.it_ratio.specs.BestViews.{best_view};
ghost use Rattle.it_best.specs.Ends.{factor_row};
ghost use Rattle.it_best.specs.Factors.{IsPoint, ground_of};
ghost use Rattle.it_best.specs.PhaseSteps.{AreSides};
ghost use Rattle.it_factor.specs.QuickSteps.{IsQuickBest, IsStep, IsTrial, answer_view};

use crate::joining::joined;
use crate::types::Sides;
use it_best::factor_row;
use it_columns::opposite_row;
use it_fraction::Fraction;
use it_problems::Problem;
use it_prove::{Proof, QUICK_STEPS, settle};
use it_quick::QuickProblem;
use it_ratio::types::Best;
use it_space::{Certificate, Point, Row, RowFault, value};
use std::alloc::{AllocError, Global};

/// The most numbers that are tried.
const ROUNDS: u32 = 64;

/// The reason why a factor is the answer.
#[derive(Drop)]
pub enum Reason {
    /// A point at which it holds with equality, the left side being above 0 there, so that no smaller one holds.
    Tight(Point),
    /// A certificate that the left side is at most 0, so that each smaller one holds.
    Below(Certificate),
}

/// A number that may be a factor, and the reason why it is the answer if it is one.
#[derive(Drop)]
pub struct Trial {
    factor: Fraction,
    reason: Reason,
}

/// The outcome of a run.
#[derive(Drop)]
pub enum Step {
    /// The answer.
    Found(Best),
    /// The next number.
    Next(Trial),
    /// Neither an answer nor a next number.
    Open,
}

/// The fraction `below` / `above` in lowest terms; None where it is no fraction, or where a number passes the limit.
fn ratio(above: i128, below: i128) -> Option<Fraction>
    ensures { IfSome result (λ x. pos x.den *ℤ below ≡ x.num *ℤ above) }
{
    if above == 0 || above == i128::MIN || below == i128::MIN {
        return None;
    }
    Some(Fraction::lowest(below, above))
}

/// The answer of a trial whose number has the certificate `proof`.
fn answer(trial: Trial, proof: Certificate) -> Best
    ensures { best_view result ≡ answer_view trial (certificate_view proof) }
{
    let Trial { factor, reason } = trial;
    match reason {
        Reason::Tight(point) => {
            Best::Least {
                num: factor.num(),
                den: factor.den(),
                proof,
                point,
            }
        }
        Reason::Below(below) => {
            Best::Unbounded {
                num: factor.num(),
                den: factor.den(),
                proof,
                below,
            }
        }
    }
}

/// The outcome after a point at which the left side is below 0 and `factor` would hold with equality, after the trial `trial`. If the
/// left side was above 0 at a point too, no factor holds.
fn after_fall(
    alloc: Global,
    sides: &Sides<'_>,
    trial: Trial,
    factor: Fraction,
    point: &Point,
) -> Result<Step, AllocError>
    requires sides { AreSides sides.now.problem.now sides.now.left.now sides.now.right.now }
    requires trial { IsTrial sides.now.problem.now sides.now.left.now sides.now.right.now trial }
    requires point { IsPoint (ground_of sides.now.problem.now) point.now }
    ensures { IfOk result (IsStep sides.now.problem.now sides.now.left.now sides.now.right.now) }
{
    let Trial { factor: _, reason } = trial;
    match reason {
        Reason::Below(below) => {
            Ok(Step::Next(Trial {
                factor,
                reason: Reason::Below(below),
            }))
        }
        Reason::Tight(above) => {
            match joined(alloc, sides, &above, point)? {
                Some(point) => Ok(Step::Found(Best::Never(point))),
                None => Ok(Step::Open),
            }
        }
    }
}

/// The outcome after the point `point` and the last trial, if there was one.
fn by_point(
    alloc: Global,
    sides: &Sides<'_>,
    last: Option<Trial>,
    point: Point,
) -> Result<Step, AllocError>
    requires sides { AreSides sides.now.problem.now sides.now.left.now sides.now.right.now }
    requires last { IfSome last (IsTrial sides.now.problem.now sides.now.left.now sides.now.right.now) }
    requires point { IsPoint (ground_of sides.now.problem.now) point }
    ensures { IfOk result (IsStep sides.now.problem.now sides.now.left.now sides.now.right.now) }
{
    let Ok(above) = value(sides.left, &point) else {
        return Ok(Step::Open);
    };
    let Ok(under) = value(sides.right, &point) else {
        return Ok(Step::Open);
    };
    if above == 0 && under > 0 {
        return Ok(Step::Found(Best::Never(point)));
    }
    let Some(factor) = ratio(above, under) else {
        return Ok(Step::Open);
    };
    if above > 0 {
        return Ok(Step::Next(Trial {
            factor,
            reason: Reason::Tight(point),
        }));
    }
    match last {
        Some(trial) => after_fall(alloc, sides, trial, factor, &point),
        None => Ok(Step::Open),
    }
}

/// The outcome of the run about the row of `trial`.
fn by_row(
    alloc: Global,
    quick: &mut QuickProblem,
    sides: &Sides<'_>,
    trial: Trial,
    row: &Row,
) -> Result<Step, AllocError>
    requires sides { AreSides sides.now.problem.now sides.now.left.now sides.now.right.now }
    requires trial { IsTrial sides.now.problem.now sides.now.left.now sides.now.right.now trial }
    requires row { row.now ≡ factor_row (size_of sides.now.problem.now.space) sides.now.left.now sides.now.right.now trial.factor }
    ensures { IfOk result (IsStep sides.now.problem.now sides.now.left.now sides.now.right.now) }
{
    match settle(alloc, quick, sides.problem, row, QUICK_STEPS)? {
        Some(Proof::Yes(proof)) => Ok(Step::Found(answer(trial, proof))),
        Some(Proof::No(point)) => by_point(alloc, sides, Some(trial), point),
        _ => Ok(Step::Open),
    }
}

/// The outcome of the run about `trial`.
fn after(
    alloc: Global,
    quick: &mut QuickProblem,
    sides: &Sides<'_>,
    trial: Trial,
) -> Result<Step, AllocError>
    requires sides { AreSides sides.now.problem.now sides.now.left.now sides.now.right.now }
    requires trial { IsTrial sides.now.problem.now sides.now.left.now sides.now.right.now trial }
    ensures { IfOk result (IsStep sides.now.problem.now sides.now.left.now sides.now.right.now) }
{
    match factor_row(alloc, sides.problem, sides.left, sides.right, &trial.factor) {
        Ok(row) => by_row(alloc, quick, sides, trial, &row),
        Err(RowFault::Wide) => Ok(Step::Open),
        Err(RowFault::Memory) => Err(AllocError),
    }
}

/// The first number, as an outcome: the ratio at a point where the left side is above 0; where it never is, any number will do: 0.
fn first(alloc: Global, quick: &mut QuickProblem, sides: &Sides<'_>) -> Result<Step, AllocError>
    requires sides { AreSides sides.now.problem.now sides.now.left.now sides.now.right.now }
    ensures { IfOk result (IsStep sides.now.problem.now sides.now.left.now sides.now.right.now) }
{
    let row = opposite_row(alloc, sides.left)?;
    match settle(alloc, quick, sides.problem, &row, QUICK_STEPS)? {
        Some(Proof::Yes(below)) => Ok(Step::Next(Trial {
            factor: Fraction::whole(0),
            reason: Reason::Below(below),
        })),
        Some(Proof::No(point)) => by_point(alloc, sides, None, point),
        _ => Ok(Step::Open),
    }
}

/// What quick runs find of the factors by which the left side is at least the right one. None where a run gives up, or a number passes
/// the limit; that says nothing of the factors.
pub fn quick_factor(
    alloc: Global,
    problem: &Problem,
    left: &Row,
    right: &Row,
) -> Result<Option<Best>, AllocError>
    requires { AreSides problem.now left.now right.now }
    ensures { IfOk result (λ o. IfSome o (λ b. IsQuickBest problem.now left.now right.now (best_view b))) }
{
    let sides = Sides {
        problem,
        left,
        right,
    };
    let mut quick = QuickProblem::read(alloc, problem)?;
    let mut step = first(alloc, &mut quick, &sides)?;
    for _ in 0..ROUNDS {
        match step {
            Step::Found(best) => return Ok(Some(best)),
            Step::Next(trial) => step = after(alloc, &mut quick, &sides, trial)?,
            Step::Open => return Ok(None),
        }
    }
    Ok(None)
}
