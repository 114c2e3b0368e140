//! The run.
ghost use Rattle.std.specs.Prelude.{◌≡◌, ◌+◌, ◌<◌, false, IfErr, IfOk, Some, None};
ghost use Rattle.std.specs.Bool.{OnFalse, OnTrue};
ghost use Rattle.it_tableau.specs.Operations.{rationals};
ghost use Rattle.it_tableau.specs.TableauViews.{height, table};
ghost use Rattle.it_run.specs.Choice.{IsDone};
ghost use Rattle.it_run.specs.Runs.{clip_number};
ghost use Rattle.it_run.specs.Steps.{HasInvariantsForSome, IsReady, IsWide, LeavesTableau, RunsToTableau, IsStepOrStuck};

use crate::choice::{entering_column, leaving_row};
use it_space::RowFault;
use it_tableau::Tableau;
use std::alloc::AllocError;

/// How a run ended.
#[derive(Debug, Drop, Clone, Copy)]
pub enum RunEnd {
    Weights,
    Point,
    Pivots(u32),
    Width(u32),
}

/// Makes one step, if one is left, and returns whether it did. `Wide` if a number of the step passes the limit.
fn step(tableau: &mut Tableau) -> Result<bool, RowFault>
    requires usable { tableau.old.spent ≡ false }
    requires ready { IsReady (height tableau.old) tableau.old.generator_columns (table tableau.old) }
    ensures value { IfOk result (λ moved. IsStepOrStuck tableau.old tableau.new moved) }
    ensures wide { IfErr result (λ fault. fault ≡ RowFault.Wide → IsWide (height tableau.old) tableau.old.generator_columns (table tableau.old)) }
{
    let Some(column) = entering_column(tableau) else {
        return Ok(false);
    };
    match leaving_row(tableau, column) {
        Ok(Some(row)) => {
            tableau.pivot(row, column)?;
            Ok(true)
        }
        Ok(None) => Ok(false),
        Err(_) => Err(RowFault::Wide),
    }
}

/// Whether the target is reached: the cost row's right side is 0.
fn is_done(tableau: &Tableau) -> bool
    requires { tableau.now.spent ≡ false }
    ensures yes { OnTrue result (IsDone rationals (height tableau.now) tableau.now.generator_columns (table tableau.now)) }
    ensures no { OnFalse result (¬ (IsDone rationals (height tableau.now) tableau.now.generator_columns (table tableau.now))) }
{
    tableau.cost_rhs().is_zero()
}

/// Makes the run with `budget` as the most steps.
fn run_within(tableau: &mut Tableau, budget: u32) -> Result<RunEnd, AllocError>
    requires usable { tableau.old.spent ≡ false }
    requires holds { HasInvariantsForSome tableau.old }
    ensures end { IfOk result (λ ending. RunsToTableau tableau.old (Some budget) ending tableau.new) }
    ensures kept { IfOk result (λ ending. LeavesTableau ending tableau.old tableau.new) }
{
    for k in 0..budget {
        if is_done(tableau) {
            return Ok(RunEnd::Weights);
        }
        match step(tableau) {
            Ok(true) => {}
            Ok(false) => return Ok(RunEnd::Point),
            Err(RowFault::Wide) => return Ok(RunEnd::Width(k + 1)),
            Err(RowFault::Memory) => return Err(AllocError),
        }
    }
    if is_done(tableau) {
        return Ok(RunEnd::Weights);
    }
    match entering_column(tableau) {
        Some(_) => Ok(RunEnd::Pivots(budget)),
        None => Ok(RunEnd::Point),
    }
}

/// `number` + 1, or the greatest number of 32 bits if that is greater.
fn next_number(number: u32) -> u32
    ensures { result ≡ clip_number (number + 1) }
{
    if number < u32::MAX {
        number + 1
    } else {
        u32::MAX
    }
}

/// Makes the run without a budget. It terminates, since no set of basic columns recurs (Bland 1977).
fn run_on(tableau: &mut Tableau) -> Result<RunEnd, AllocError>
    requires usable { tableau.old.spent ≡ false }
    requires holds { HasInvariantsForSome tableau.old }
    ensures end { IfOk result (λ ending. RunsToTableau tableau.old None ending tableau.new) }
    ensures kept { IfOk result (λ ending. LeavesTableau ending tableau.old tableau.new) }
{
    let mut number: u32 = 1;
    'steps: loop {
        if is_done(tableau) {
            return Ok(RunEnd::Weights);
        }
        match step(tableau) {
            Ok(true) => {}
            Ok(false) => return Ok(RunEnd::Point),
            Err(RowFault::Wide) => return Ok(RunEnd::Width(number)),
            Err(RowFault::Memory) => return Err(AllocError),
        }
        number = next_number(number);
    }
}

/// Makes the run with `budget` as the most steps, or without a budget.
pub fn run(tableau: &mut Tableau, budget: Option<u32>) -> Result<RunEnd, AllocError>
    requires usable { tableau.old.spent ≡ false }
    requires holds { HasInvariantsForSome tableau.old }
    ensures end { IfOk result (λ ending. RunsToTableau tableau.old budget ending tableau.new) }
    ensures kept { IfOk result (λ ending. LeavesTableau ending tableau.old tableau.new) }
{
    match budget {
        Some(steps) => run_within(tableau, steps),
        None => run_on(tableau),
    }
}
