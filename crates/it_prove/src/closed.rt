//! A problem over closed sets, made once for runs about many targets under it and under problems with further constraints.
ghost use Rattle.std.specs.Prelude.{◌≡◌, [], ◌++◌, IfErr, IfOk, OnOk};
ghost use Rattle.it_prove.specs.Closed.{closed_generators};
ghost use Rattle.it_prove.specs.ClosedProblems.{IsClosedProblem, SameRows};
ghost use Rattle.it_prove.specs.Steps.{GeneratorsFit};
ghost use Rattle.it_columns.specs.Columns.{columns};

use crate::columns::push_columns;
use crate::types::{Effort, Runs};
use it_closure::Dependences;
use it_elemental::generator_count;
use it_problems::Problem;
use it_quick::QuickProblem;
use it_space::{Row, RowFault};
use std::alloc::{AllocError, Global};

/// A problem over closed sets: its dependences, its coordinates, and the columns of its first `count` generators; and the state of quick
/// runs, if they come first. It serves each problem that has these dependences and begins with these generators.
pub struct ClosedProblem {
    pub(crate) dependences: Dependences,
    pub(crate) coordinates: Vec<u32>,
    pub(crate) columns: Vec<Row>,
    count: u32,
    pub(crate) quick: Option<QuickProblem>,
}

impl Drop for ClosedProblem {
    fn drop(self) {
        let ClosedProblem {
            dependences: _,
            coordinates: _,
            columns: _,
            count: _,
            quick: _,
        } = self;
    }
}

impl ClosedProblem {
    /// The closed problem of `problem`, for targets with this effort. If a quick run comes first or alone, no column is made before the
    /// defined run needs it; else those of all generators are made, or none if a partial sum of a coefficient passes the limit.
    pub fn read(
        alloc: Global,
        problem: &Problem,
        effort: Effort,
    ) -> Result<ClosedProblem, AllocError>
        ensures { IfOk result (IsClosedProblem problem.now) }
    {
        let mut closed = without_columns(alloc, problem)?;
        if effort.runs != Runs::Defined {
            closed.quick = Some(QuickProblem::read(alloc, problem)?);
            return Ok(closed);
        }
        match other_columns(alloc, problem, &closed) {
            Ok(others) => {
                closed.columns = others;
                closed.count = generator_count(problem);
                Ok(closed)
            }
            Err(RowFault::Wide) => Ok(closed),
            Err(RowFault::Memory) => Err(AllocError),
        }
    }
}

/// The closed problem of `problem`, before any column is made.
fn without_columns(alloc: Global, problem: &Problem) -> Result<ClosedProblem, AllocError>
    ensures closed { IfOk result (IsClosedProblem problem.now) }
    ensures none { IfOk result (λ c. c.columns.items ≡ []) }
{
    let dependences = Dependences::read(alloc, problem)?;
    let coordinates = dependences.closed(alloc, problem.space())?;
    Ok(ClosedProblem {
        dependences,
        coordinates,
        columns: Vec::new(alloc),
        count: 0,
        quick: None,
    })
}

/// The columns of the generators of `problem` that `closed` doesn't have, in order. `Wide` if a partial sum of a coefficient passes the
/// limit.
pub fn other_columns(
    alloc: Global,
    problem: &Problem,
    closed: &ClosedProblem,
) -> Result<Vec<Row>, RowFault>
    requires closed { IsClosedProblem problem.now closed.now }
    ensures same { IfOk result (λ v. SameRows (closed.now.columns.items ++ v.items) (columns (closed_generators problem.now))) }
    ensures fits { OnOk result (GeneratorsFit problem.now) }
    ensures wide { IfErr result (λ f. f ≡ RowFault.Wide → ¬ (GeneratorsFit problem.now)) }
{
    let mut columns = Vec::new(alloc);
    for index in closed.count..generator_count(problem) {
        push_columns(&mut columns, alloc, problem, &closed.dependences, index)?;
    }
    Ok(columns)
}
