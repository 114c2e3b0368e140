//! The best factor.
ghost use Rattle.std.specs.Prelude.{◌≡◌, ◌<◌, ◌^◌, ℕ, Option, IfErr, IfOk, OnOk};
ghost use Rattle.it_space.specs.Rows.{IsOver, value};
ghost use Rattle.it_space.specs.Spaces.{size_of};
ghost use Rattle.it_run.specs.Answers.{end_of_answer};
ghost use Rattle.it_run.specs.Runs.RunEndView.{Weights};
ghost use Rattle.it_elemental.specs.Generators.{generators};
ghost use Rattle.it_ratio.specs.BestViews.{best_view};
ghost use Rattle.it_best.specs.Ends.{EndsWith, PhaseEnds, ThirdFollows};
ghost use Rattle.it_best.specs.Factors.{IsRightBest, ground_of};
ghost use Rattle.it_best.specs.Phases.{unknown_views};
ghost use Rattle.it_best.specs.PhaseSteps.{FirstEnds, FirstIsRight, FirstSums, PhaseIsRight, SecondEnds, SecondIsRight, ThirdEnds, ThirdIsRight};
ghost use Rattle.it_best.specs.PhaseSteps.{FollowsFirst, FollowsPhases, FollowsSecond, FollowsThird, HasNoThirdPoint, HasSecondPoint};
ghost use Rattle.it_best.specs.PhaseSteps.{IsEndPoint, Settles, first_unknowns, third_unknowns};

use crate::answers::{least, never, unbounded};
use crate::sides::Sides;
use crate::sizes::is_large;
use crate::systems::{
    first_phase, left_equation, right_equation, second_phase, third_phase, with_term,
};
use crate::unknowns::{Sum, Unknown, columns, equations};
use it_columns::opposite_row;
use it_fraction::Fraction;
use it_problems::Problem;
use it_ratio::types::{Best, BestCause};
use it_simplex::{Budget, Solved, solve};
use it_space::Row;
use std::alloc::{AllocError, Global};

/// What ends the search before its last phase: memory runs out, or the answer is settled.
#[derive(Drop)]
pub enum Stop {
    Memory,
    Answer(Best),
}

impl From<AllocError> for Stop {
    ghost use Rattle.std.specs.Prelude.{◌≡◌};
    ghost use Rattle.it_best.specs.declared.finding.Stop.TheVariants.{Memory};

    ghost from_gives = { λ _ e. e ≡ Memory };

    fn from(_error: AllocError) -> Stop {
        Stop::Memory
    }
}

/// The end of the run of a phase with `count` equations.
fn phase_end(
    alloc: Global,
    unknowns: &[Unknown],
    count: u32,
    target: &Row,
    budget: Budget,
) -> Result<Solved, AllocError>
    requires { count < 2 ^ 31 }
    ensures ends { IfOk result (λ a. PhaseEnds count (unknown_views unknowns.now) target.now budget (end_of_answer a)) }
    ensures right { IfOk result (λ a. PhaseIsRight count (unknown_views unknowns.now) target.now a) }
{
    let coordinates = equations(alloc, count)?;
    let columns = columns(alloc, unknowns)?;
    solve(
        alloc,
        coordinates.as_slice(),
        columns.as_slice(),
        target,
        budget,
    )
}

/// The end of the run of the first phase.
fn first_end(
    alloc: Global,
    sides: &Sides<'_>,
    unknowns: &[Unknown],
    budget: Budget,
) -> Result<Solved, AllocError>
    ensures ends { IfOk result (λ a. FirstEnds sides.now (unknown_views unknowns.now) budget (end_of_answer a)) }
    ensures right { IfOk result (λ a. FirstIsRight sides.now (unknown_views unknowns.now) a) }
{
    sides.facts();
    phase_end(alloc, unknowns, sides.size(), sides.right(), budget)
}

/// The end of the run of the second phase.
fn second_end(
    alloc: Global,
    sides: &Sides<'_>,
    unknowns: &[Unknown],
    budget: Budget,
) -> Result<Solved, AllocError>
    ensures ends { IfOk result (λ a. SecondEnds sides.now (unknown_views unknowns.now) budget (end_of_answer a)) }
    ensures right { IfOk result (λ a. SecondIsRight sides.now (unknown_views unknowns.now) a) }
{
    sides.facts();
    let target = opposite_row(alloc, sides.left())?;
    phase_end(alloc, unknowns, sides.size(), &target, budget)
}

/// The end of the run of the third phase.
fn third_end(
    alloc: Global,
    sides: &Sides<'_>,
    unknowns: &[Unknown],
    budget: Budget,
) -> Result<Solved, AllocError>
    ensures ends { IfOk result (λ a. ThirdEnds sides.now (unknown_views unknowns.now) budget (end_of_answer a)) }
    ensures right { IfOk result (λ a. ThirdIsRight sides.now (unknown_views unknowns.now) a) }
{
    sides.facts();
    let target = with_term(alloc, sides.right(), left_equation(sides), 1)?;
    phase_end(alloc, unknowns, right_equation(sides), &target, budget)
}

/// The weights with which the first phase ends; any other end settles the answer.
fn first_weights<'a>(
    alloc: Global,
    sides: &Sides<'_>,
    end: &'a Solved,
) -> Result<&'a [(usize, Fraction)], Stop>
    requires { FirstIsRight sides.now (first_unknowns sides.now) end.now }
    ensures weights { IfOk result (λ ws. end_of_answer end.now ≡ Weights ws.now) }
    ensures sums { IfOk result (λ ws. FirstSums sides.now (first_unknowns sides.now) ws.now) }
    ensures settles { IfErr result (Settles (λ b. (budget : Option ℕ) → FollowsFirst sides.now budget (end_of_answer end.now) b)) }
{
    match end {
        Solved::Weights(weights) => Ok(weights.as_slice()),
        Solved::Point(point) => Err(Stop::Answer(never(alloc, sides, point.as_slice())?)),
        Solved::Pivots(steps) => Err(Stop::Answer(Best::Undecided(BestCause::Pivots {
            steps: *steps,
            part: 1,
        }))),
        Solved::Width(step) => Err(Stop::Answer(Best::Undecided(BestCause::Width {
            step: *step,
            part: 1,
        }))),
    }
}

/// Whether the second phase ended with a point, after weights of the first; any other end settles the answer.
fn second_point(
    alloc: Global,
    sides: &Sides<'_>,
    first: &Sum<'_>,
    unknowns: &[Unknown],
    end: &Solved,
) -> Result<(), Stop>
    requires first { FirstSums sides.now (unknown_views first.now.unknowns.now) first.now.weights.now }
    requires unknowns { unknown_views unknowns.now ≡ generators sides.now.problem }
    requires end { SecondIsRight sides.now (generators sides.now.problem) end.now }
    ensures point { OnOk result (IsEndPoint (end_of_answer end.now)) }
    ensures reached { OnOk result (HasNoThirdPoint sides.now) }
    ensures settles { IfErr result (Settles (λ b. (budget : Option ℕ) → FollowsSecond sides.now budget first.now.weights.now (end_of_answer end.now) b)) }
{
    sides.facts();
    match end {
        Solved::Weights(weights) => {
            let second = Sum {
                unknowns,
                weights: weights.as_slice(),
            };
            Err(Stop::Answer(unbounded(alloc, sides, first, &second)?))
        }
        Solved::Point(_) => Ok(()),
        Solved::Pivots(steps) => Err(Stop::Answer(Best::Undecided(BestCause::Pivots {
            steps: *steps,
            part: 2,
        }))),
        Solved::Width(step) => Err(Stop::Answer(Best::Undecided(BestCause::Width {
            step: *step,
            part: 2,
        }))),
    }
}

/// The answer by the end of the third phase, which isn't a point after weights of the first phase and a point of the second.
fn third_answer(
    alloc: Global,
    sides: &Sides<'_>,
    unknowns: &[Unknown],
    end: &Solved,
) -> Result<Best, AllocError>
    requires unknowns { unknown_views unknowns.now ≡ third_unknowns sides.now }
    requires end { ThirdIsRight sides.now (third_unknowns sides.now) end.now }
    requires reached { HasNoThirdPoint sides.now }
    ensures { IfOk result (λ b. ThirdFollows sides.now.problem sides.now.left sides.now.right (end_of_answer end.now) (best_view b)) }
{
    match end {
        Solved::Weights(weights) => {
            let third = Sum {
                unknowns,
                weights: weights.as_slice(),
            };
            least(alloc, sides, &third)
        }
        Solved::Point(_) => unreachable!(),
        Solved::Pivots(steps) => Ok(Best::Undecided(BestCause::Pivots {
            steps: *steps,
            part: 3,
        })),
        Solved::Width(step) => Ok(Best::Undecided(BestCause::Width {
            step: *step,
            part: 3,
        })),
    }
}

/// Runs the second phase, after weights of the first. It goes on where that ends with a point, as then there is a least factor.
fn pass_second_phase(
    alloc: Global,
    sides: &Sides<'_>,
    first: &Sum<'_>,
    budget: Budget,
) -> Result<(), Stop>
    requires { FirstSums sides.now (unknown_views first.now.unknowns.now) first.now.weights.now }
    ensures passes { OnOk result (HasSecondPoint sides.now budget) }
    ensures reached { OnOk result (HasNoThirdPoint sides.now) }
    ensures settles { IfErr result (Settles (FollowsFirst sides.now budget (Weights first.now.weights.now))) }
{
    let unknowns = second_phase(alloc, sides.problem())?;
    let end = second_end(alloc, sides, unknowns.as_slice(), budget)?;
    second_point(alloc, sides, first, unknowns.as_slice(), &end)
}

/// The answer by the third phase, which doesn't end with a point.
fn by_third_phase(alloc: Global, sides: &Sides<'_>, budget: Budget) -> Result<Best, AllocError>
    requires { HasNoThirdPoint sides.now }
    ensures { IfOk result (λ b. FollowsThird sides.now budget (best_view b)) }
{
    let unknowns = third_phase(alloc, sides)?;
    let end = third_end(alloc, sides, unknowns.as_slice(), budget)?;
    third_answer(alloc, sides, unknowns.as_slice(), &end)
}

/// The answer by all phases, one after the other.
fn by_phases(alloc: Global, sides: &Sides<'_>, budget: Budget) -> Result<Best, Stop>
    ensures value { IfOk result (λ b. FollowsPhases sides.now budget (best_view b)) }
    ensures settles { IfErr result (Settles (FollowsPhases sides.now budget)) }
{
    let unknowns = first_phase(alloc, sides)?;
    let end = first_end(alloc, sides, unknowns.as_slice(), budget)?;
    let first = Sum {
        unknowns: unknowns.as_slice(),
        weights: first_weights(alloc, sides, &end)?,
    };
    pass_second_phase(alloc, sides, &first, budget)?;
    let best = by_third_phase(alloc, sides, budget)?;
    Ok(best)
}

/// The answer by the size of the last phase's table or by the phases.
fn best_by_sides(alloc: Global, sides: &Sides<'_>, budget: Budget) -> Result<Best, AllocError>
    ensures { IfOk result (λ b. EndsWith sides.now.problem sides.now.left sides.now.right budget (best_view b)) }
{
    if is_large(sides.problem()) {
        return Ok(Best::Undecided(BestCause::Size));
    }
    match by_phases(alloc, sides, budget) {
        Ok(best) => Ok(best),
        Err(Stop::Answer(best)) => Ok(best),
        Err(Stop::Memory) => Err(AllocError),
    }
}

/// The numbers c for which c times `left` is at least `right` wherever a polymatroid and rates meet `problem`. The sides are rows over
/// the coordinates of the problem's space. Three runs of at most the budget's steps each search for them, over all sets: the first
/// decides whether there is such a number (else `Never`), the second whether there is a least one (else `Unbounded`), and the third
/// finds it (`Least`). `Size` means that the third run's table would have more than 4,000,000 entries, and is tested first; `Pivots` and
/// `Width` name the first run that has no end, and `Scale` means that a number of the answer passes the limit.
pub fn best(
    alloc: Global,
    problem: &Problem,
    left: &Row,
    right: &Row,
    budget: Budget,
) -> Result<Best, AllocError>
    requires left { IsOver (size_of problem.now.space) left.now }
    requires right { IsOver (size_of problem.now.space) right.now }
    ensures ends { IfOk result (λ b. EndsWith problem.now left.now right.now budget (best_view b)) }
    ensures right { IfOk result (λ b. IsRightBest (ground_of problem.now) (value left.now) (value right.now) (best_view b)) }
{
    problem.facts();
    let sides = Sides::new(problem, left, right);
    best_by_sides(alloc, &sides, budget)
}
