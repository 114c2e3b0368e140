//! The answer of a run.
ghost use Rattle.std.specs.Prelude.{◌≡◌, false, IfOk};
ghost use Rattle.it_run.specs.Answers.{HasProblem, RunsFrom};

use crate::readings::{point, weights};
use crate::run::{RunEnd, run};
use it_fraction::Fraction;
use it_tableau::Tableau;
use std::alloc::{AllocError, Global};

/// How a run ended.
#[derive(Debug, Drop)]
pub enum Solved {
    /// The target is the sum of these columns, each with its weight above 0, by ascending column.
    Weights(Vec<(usize, Fraction)>),
    /// At this point, a value for each coordinate in order, each column is at least 0 and the target is below 0.
    Point(Vec<Fraction>),
    /// The run made all steps of its budget, the number given here, without reaching its end.
    Pivots(u32),
    /// A number of this step is more than 2^127 - 1 in absolute value. Steps are counted from 1, the start is 0, and a step past number
    /// 2^32 - 1 is reported with that number.
    Width(u32),
}

/// Makes the run from `start`, with `budget` as the most steps or without a budget, and returns the answer read off its last table.
pub fn exact_run(alloc: Global, start: Tableau, budget: Option<u32>) -> Result<Solved, AllocError>
    requires usable { start.spent ≡ false }
    requires start { HasProblem start }
    ensures { IfOk result (λ solved. RunsFrom start budget solved) }
{
    let mut tableau = start;
    match run(&mut tableau, budget)? {
        RunEnd::Weights => Ok(Solved::Weights(weights(alloc, &tableau)?)),
        RunEnd::Point => Ok(Solved::Point(point(alloc, &tableau)?)),
        RunEnd::Pivots(steps) => Ok(Solved::Pivots(steps)),
        RunEnd::Width(step) => Ok(Solved::Width(step)),
    }
}
