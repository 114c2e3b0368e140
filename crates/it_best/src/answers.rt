//! The answers by the numbers of the phases; `Scale` if one of these passes the limit.
ghost use Rattle.std.specs.Prelude.{◌≡◌, IfErr, IfOk, OnOk};
ghost use Rattle.it_run.specs.Runs.RunEndView.{Weights};
ghost use Rattle.it_ratio.specs.BestViews.{best_view};
ghost use Rattle.it_best.specs.Ends.{ThirdFollows};
ghost use Rattle.it_best.specs.Phases.{unknown_views};
ghost use Rattle.it_best.specs.PhaseSteps.{FirstSeparates, FirstSums, FitsLeast, FitsUnbounded, SecondSums, ThirdSums};
ghost use Rattle.it_best.specs.PhaseSteps.{FollowsPoint, FollowsWeights, least_by, unbounded_by};

use crate::judging::{below_proof, factor_proof, least_point, never_point};
use crate::numbers::{factor_of, numbers, values_of, weights_of};
use crate::sides::Sides;
use crate::unknowns::Sum;
use it_fraction::Fraction;
use it_ratio::types::{Best, BestCause};
use it_space::RowFault;
use std::alloc::{AllocError, Global};

/// The answer by the point of the first phase.
pub fn never(alloc: Global, sides: &Sides<'_>, values: &[Fraction]) -> Result<Best, AllocError>
    requires { FirstSeparates sides.now values.now }
    ensures { IfOk result (λ b. FollowsPoint sides.now values.now (best_view b)) }
{
    sides.facts();
    match never_point(alloc, sides, values) {
        Ok(point) => Ok(Best::Never(point)),
        Err(RowFault::Wide) => Ok(Best::Undecided(BestCause::Scale)),
        Err(RowFault::Memory) => Err(AllocError),
    }
}

/// The answer by the weights of the third phase; `Wide` if a number of it passes the limit.
fn least_answer(alloc: Global, sides: &Sides<'_>, third: &Sum<'_>) -> Result<Best, RowFault>
    requires { ThirdSums sides.now (unknown_views third.now.unknowns.now) third.now.weights.now }
    ensures value { IfOk result (λ b. best_view b ≡ least_by sides.now third.now.weights.now) }
    ensures fits { OnOk result (FitsLeast sides.now third.now.weights.now) }
    ensures wide { IfErr result (λ f. f ≡ RowFault.Wide → ¬ (FitsLeast sides.now third.now.weights.now)) }
{
    sides.facts();
    let numbers = numbers(alloc, third.unknowns, third.weights)?;
    let factor = factor_of(numbers.as_slice());
    let count = sides.generator_count() as usize;
    let proof = factor_proof(alloc, sides, &factor, weights_of(numbers.as_slice(), count))?;
    let point = least_point(
        alloc,
        sides,
        &factor,
        values_of(numbers.as_slice(), count, sides.size() as usize),
    )?;
    Ok(Best::Least {
        num: factor.num(),
        den: factor.den(),
        proof,
        point,
    })
}

/// The answer by the weights of the third phase.
pub fn least(alloc: Global, sides: &Sides<'_>, third: &Sum<'_>) -> Result<Best, AllocError>
    requires { ThirdSums sides.now (unknown_views third.now.unknowns.now) third.now.weights.now }
    ensures { IfOk result (λ b. ThirdFollows sides.now.problem sides.now.left sides.now.right (Weights third.now.weights.now) (best_view b)) }
{
    match least_answer(alloc, sides, third) {
        Ok(best) => Ok(best),
        Err(RowFault::Wide) => Ok(Best::Undecided(BestCause::Scale)),
        Err(RowFault::Memory) => Err(AllocError),
    }
}

/// The answer by the weights of the first phase and of the second; `Wide` if a number of it passes the limit.
fn unbounded_answer(
    alloc: Global,
    sides: &Sides<'_>,
    first: &Sum<'_>,
    second: &Sum<'_>,
) -> Result<Best, RowFault>
    requires first { FirstSums sides.now (unknown_views first.now.unknowns.now) first.now.weights.now }
    requires second { SecondSums sides.now (unknown_views second.now.unknowns.now) second.now.weights.now }
    ensures value { IfOk result (λ b. best_view b ≡ unbounded_by sides.now first.now.weights.now second.now.weights.now) }
    ensures fits { OnOk result (FitsUnbounded sides.now first.now.weights.now second.now.weights.now) }
    ensures wide { IfErr result (λ f. f ≡ RowFault.Wide → ¬ (FitsUnbounded sides.now first.now.weights.now second.now.weights.now)) }
{
    sides.facts();
    let first_numbers = numbers(alloc, first.unknowns, first.weights)?;
    let factor = factor_of(first_numbers.as_slice());
    let count = sides.generator_count() as usize;
    let proof = factor_proof(
        alloc,
        sides,
        &factor,
        weights_of(first_numbers.as_slice(), count),
    )?;
    let second_numbers = numbers(alloc, second.unknowns, second.weights)?;
    let below = below_proof(alloc, sides, second_numbers.as_slice())?;
    Ok(Best::Unbounded {
        num: factor.num(),
        den: factor.den(),
        proof,
        below,
    })
}

/// The answer by the weights of the first phase and of the second.
pub fn unbounded(
    alloc: Global,
    sides: &Sides<'_>,
    first: &Sum<'_>,
    second: &Sum<'_>,
) -> Result<Best, AllocError>
    requires first { FirstSums sides.now (unknown_views first.now.unknowns.now) first.now.weights.now }
    requires second { SecondSums sides.now (unknown_views second.now.unknowns.now) second.now.weights.now }
    ensures { IfOk result (λ b. FollowsWeights sides.now first.now.weights.now second.now.weights.now (best_view b)) }
{
    match unbounded_answer(alloc, sides, first, second) {
        Ok(best) => Ok(best),
        Err(RowFault::Wide) => Ok(Best::Undecided(BestCause::Scale)),
        Err(RowFault::Memory) => Err(AllocError),
    }
}
