//! Runs of the simplex method.

ghost use Rattle.std.specs.Prelude.{◌≤◌};
ghost use Rattle.it_space.specs.Spaces.{most_variables};

use crate::Task;
use crate::output::Output;
use crate::systems::{System, end as solved_end};
use it_canon::canon;
use it_elemental::{count, row};
use it_question::types::{Question, Verb};
use it_run::exact_run;
use it_simplex::Solved;
use it_space::{Row, RowFault};
use it_tableau::Tableau;
use std::alloc::{AllocError, Global};

/// The rows of the elemental inequalities.
fn elemental_rows(alloc: Global, variables: u8) -> Result<Vec<Row>, AllocError>
    requires some { 1 ≤ variables }
    requires few { variables ≤ most_variables }
{
    let mut rows = Vec::new(alloc);
    for index in 0..count(variables) {
        rows.push(row(alloc, variables, index)?)?;
    }
    Ok(rows)
}

/// The elemental inequalities and the form of a question that proves a relation, with a budget of steps.
fn system_of(alloc: Global, question: &Question, steps: u32) -> Result<Option<System>, AllocError> {
    let space = question.space();
    let Verb::Prove(relation) = question.verb() else {
        return Ok(None);
    };
    Ok(Some(System {
        steps: Some(steps),
        columns: elemental_rows(alloc, space.variables)?,
        coordinates: (1..1u32 << space.variables).collect(alloc)?,
        target: canon(alloc, relation, space)?,
    }))
}

/// The end of the run with a budget of steps, by the table of fractions alone.
fn exact_end(
    alloc: Global,
    coordinates: &[u32],
    columns: &[Row],
    target: &Row,
    steps: u32,
) -> Result<Solved, AllocError> {
    match Tableau::start(alloc, coordinates, columns, target) {
        Ok(start) => exact_run(alloc, start, Some(steps)),
        Err(RowFault::Wide) => Ok(Solved::Width(0)),
        Err(RowFault::Memory) => Err(AllocError),
    }
}

/// The end of the run in the task's way.
fn end(alloc: Global, system: &System, task: &Task<'_>) -> Result<Solved, AllocError> {
    if task.way != "exact" {
        return solved_end(alloc, system);
    }
    exact_end(
        alloc,
        system.coordinates.as_slice(),
        system.columns.as_slice(),
        &system.target,
        task.limit,
    )
}

/// Makes the run `task.turns` times, and says how it ends.
fn run(alloc: Global, system: &System, task: &Task<'_>) -> Result<&'static str, AllocError> {
    for _ in 1..task.turns {
        end(alloc, system, task)?;
    }
    let word = match end(alloc, system, task)? {
        Solved::Weights(_) => "weights\n",
        Solved::Point(_) => "point\n",
        Solved::Pivots(_) => "pivots\n",
        Solved::Width(_) => "width\n",
    };
    Ok(word)
}

/// Writes a row as a line of coordinates with their coefficients.
fn write_row(out: &mut Output, row: &Row) {
    for (coordinate, coefficient) in row.terms() {
        out.put(*coordinate);
        out.put(' ');
        out.put(*coefficient);
        out.put(' ');
    }
    out.put('\n');
}

/// Writes a system: the number of its rows, then the target and each column.
fn write(out: &mut Output, system: &System) {
    out.put(system.coordinates.len());
    out.put('\n');
    write_row(out, &system.target);
    for column in system.columns.as_slice() {
        write_row(out, column);
    }
}

/// Makes the run, and writes how it ends; or writes the system.
pub fn time(
    alloc: Global,
    out: &mut Output,
    question: &Question,
    task: &Task<'_>,
) -> Result<(), AllocError> {
    match system_of(alloc, question, task.limit)? {
        None => out.put("no relation\n"),
        Some(system) if task.way == "system" => write(out, &system),
        Some(system) => out.put(run(alloc, &system, task)?),
    }
    Ok(())
}
