//! The answer to a feasibility problem.
ghost use Rattle.std.specs.Prelude.{◌≢◌, ℕ, IfOk};
ghost use Rattle.std.specs.Option.{IfNone};
ghost use Rattle.it_run.specs.Answers.{end_of_answer};
ghost use Rattle.it_run.specs.Runs.RunEndView.{Pivots};
ghost use Rattle.it_simplex.specs.Answers.{IsRightSolved, Solves};

use crate::budget::Budget;
use it_engine::whole_run;
use it_run::{Solved, exact_run};
use it_space::{Row, RowFault};
use it_tableau::Tableau;
use std::alloc::{AllocError, Global};

/// The run from the start in fractions.
fn exact_answer(
    alloc: Global,
    coordinates: &[u32],
    columns: &[Row],
    target: &Row,
    budget: Budget,
) -> Result<Solved, AllocError>
    ensures { IfOk result (λ solved. Solves coordinates.now columns.now target.now budget (end_of_answer solved)) }
{
    match Tableau::start(alloc, coordinates, columns, target) {
        Ok(start) => exact_run(alloc, start, budget.steps()),
        Err(RowFault::Wide) => Ok(Solved::Width(0)),
        Err(RowFault::Memory) => Err(AllocError),
    }
}

/// The run in whole numbers, or if that gives up, from the start in fractions.
fn run_answer(
    alloc: Global,
    coordinates: &[u32],
    columns: &[Row],
    target: &Row,
    budget: Budget,
) -> Result<Solved, AllocError>
    ensures { IfOk result (λ solved. Solves coordinates.now columns.now target.now budget (end_of_answer solved)) }
{
    match whole_run(alloc, coordinates, columns, target, budget.steps())? {
        Some(solved) => Ok(solved),
        None => exact_answer(alloc, coordinates, columns, target, budget),
    }
}

/// Whether `target` is a sum of `columns` with weights of at least 0, by the simplex method with artificial columns and Bland's rule
/// (Bland 1977), in exact fractions. `coordinates` should ascend and include all at which the columns and the target have coefficients:
/// others are ignored. Without a budget the run goes on to its end, and never returns `Pivots`.
pub fn solve(
    alloc: Global,
    coordinates: &[u32],
    columns: &[Row],
    target: &Row,
    budget: Budget,
) -> Result<Solved, AllocError>
    ensures end { IfOk result (λ solved. Solves coordinates.now columns.now target.now budget (end_of_answer solved)) }
    ensures unbound { IfNone budget (IfOk result (λ solved. (k : ℕ) → end_of_answer solved ≢ Pivots k)) }
    ensures right { IfOk result (λ solved. IsRightSolved coordinates.now columns.now target.now solved) }
{
    // named before it is returned, so that the contract of the call is available at the return
    let solved = run_answer(alloc, coordinates, columns, target, budget)?;
    Ok(solved)
}
