//! The run from a start.
ghost use Rattle.std.specs.Prelude.{◌≡◌, ◌<◌, ◌≤◌, ◌^◌, length, IfOk};
ghost use Rattle.std.specs.Option.{IfSome};
ghost use Rattle.it_engine.specs.Answers.{RunsFromStart};
ghost use Rattle.it_engine.specs.Engine.{IsSafe, RepresentsSome};
ghost use Rattle.it_engine.specs.Ends.{AnswersFrom, IsStart};

use crate::engine::{Engine, EngineEnd};
use crate::loading::{columns, norm, rows};
use crate::reading::{point, weights};
use it_run::Solved;
use it_space::Row;
use it_tableau::{artificials, ascends};
use it_whole::{Column, GaveUp};
use std::alloc::{AllocError, Global};

/// The largest number of the engine, 2^63 - 1.
const LARGEST: u64 = i64::MAX as u64;

/// The largest signed number in 32 bits, 2^31 - 1.
const LARGEST_NARROW: u64 = i32::MAX as u64;

/// With fewer rows than this a run in 32 bits isn't faster.
const FEW_ROWS: usize = 64;

/// The most rows of a table, the cost row among them. All are full, so that a table with more of them would take more memory
/// than the sparse table of fractions.
const MOST_ROWS: usize = 1 << 12;

/// What a run is asked.
#[derive(Drop)]
struct Task<'a> {
    /// The coordinates of the question.
    coordinates: &'a [u32],
    /// The row that is to be shown at least 0.
    target: &'a Row,
    /// The columns of the start but the artificial ones.
    columns: &'a [Column],
    /// The most steps; `None` if there is no budget.
    budget: Option<u32>,
}

/// Makes the run of `engine`, and reads off its answer. `None` if a number would be above `limit`.
fn answer(
    alloc: Global,
    task: &Task<'_>,
    limit: u64,
    engine: Engine,
) -> Result<Option<Solved>, AllocError>
    requires height { length engine.basis ≡ length task.now.coordinates.now }
    requires engine { IsSafe task.now.columns.now limit engine.rows engine.basis }
    requires stands { RepresentsSome task.now.columns.now limit engine.rows engine.basis }
    ensures { IfOk result (λ o. IfSome o (λ solved. AnswersFrom
        task.now.coordinates.now task.now.target.now task.now.columns.now limit engine task.now.budget solved)) }
{
    let mut engine = engine;
    match engine.run(task.columns, limit, task.budget) {
        Ok(EngineEnd::Weights) => Ok(Some(Solved::Weights(weights(
            alloc,
            task.columns,
            engine.rows(),
            engine.basis(),
        )?))),
        Ok(EngineEnd::Point) => Ok(Some(Solved::Point(point(
            alloc,
            task.coordinates,
            task.target,
            engine.rows(),
            engine.basis(),
        )?))),
        Ok(EngineEnd::Pivots(steps)) => Ok(Some(Solved::Pivots(steps))),
        Err(GaveUp::TooLarge) => Ok(None),
        Err(GaveUp::Memory) => Err(AllocError),
    }
}

/// The lesser of `limit` and the largest signed number in 32 bits.
fn narrow_limit(limit: u64) -> u64
    ensures below { result ≤ limit }
    ensures narrow { result < 2 ^ 31 }
{
    if limit < LARGEST_NARROW {
        limit
    } else {
        LARGEST_NARROW
    }
}

/// The answer of the run in 32 bits. `None` if a number would be larger, or if the rows are so few that rows in 64 bits are as fast.
fn narrow_answer(
    alloc: Global,
    task: &Task<'_>,
    limit: u64,
    engine: &Engine,
) -> Result<Option<Solved>, AllocError>
    requires height { length engine.now.basis ≡ length task.now.coordinates.now }
    requires engine { IsSafe task.now.columns.now limit engine.now.rows engine.now.basis }
    requires stands { RepresentsSome task.now.columns.now limit engine.now.rows engine.now.basis }
    ensures { IfOk result (λ o. IfSome o (λ solved. AnswersFrom
        task.now.coordinates.now task.now.target.now task.now.columns.now limit engine.now task.now.budget solved)) }
{
    if engine.basis().len() < FEW_ROWS {
        return Ok(None);
    }
    let lower = narrow_limit(limit);
    match engine.narrowed(lower)? {
        Some(narrow) => answer(alloc, task, lower, narrow),
        None => Ok(None),
    }
}

/// The answer of the run in 32 bits, or where that gives up, of the run in 64. `None` if that gives up too.
fn answer_by_width(
    alloc: Global,
    task: &Task<'_>,
    limit: u64,
    engine: Engine,
) -> Result<Option<Solved>, AllocError>
    requires height { length engine.basis ≡ length task.now.coordinates.now }
    requires engine { IsSafe task.now.columns.now limit engine.rows engine.basis }
    requires stands { RepresentsSome task.now.columns.now limit engine.rows engine.basis }
    ensures { IfOk result (λ o. IfSome o (λ solved. AnswersFrom
        task.now.coordinates.now task.now.target.now task.now.columns.now limit engine task.now.budget solved)) }
{
    match narrow_answer(alloc, task, limit, &engine)? {
        Some(solved) => Ok(Some(solved)),
        None => answer(alloc, task, limit, engine),
    }
}

/// The start of a question: its columns but the artificial ones, the limit on the rows' numbers that the greatest weight of the columns
/// allows, and the engine.
#[derive(Drop)]
struct Start {
    columns: Vec<Column>,
    limit: u64,
    engine: Engine,
}

/// Reads the start off a question. `None` if a number is too large, the table has too many rows, or `coordinates` don't ascend.
fn read_start(
    alloc: Global,
    coordinates: &[u32],
    generators: &[Row],
    target: &Row,
) -> Result<Option<Start>, AllocError>
    ensures { IfOk result (λ o. IfSome o (λ start. IsStart coordinates.now generators.now target.now start.columns.items start.limit start.engine)) }
{
    if coordinates.len() >= MOST_ROWS || !ascends(coordinates) {
        return Ok(None);
    }
    let Some(columns) = columns(alloc, coordinates, generators, target)? else {
        return Ok(None);
    };
    let Some(norm) = norm(columns.as_slice()) else {
        return Ok(None);
    };
    let limit = LARGEST / norm;
    let Some(rows) = rows(alloc, coordinates, target, limit)? else {
        return Ok(None);
    };
    let basis = artificials(alloc, generators.len(), coordinates.len())?;
    let engine = Engine::new(alloc, rows, basis)?;
    Ok(Some(Start {
        columns,
        limit,
        engine,
    }))
}

/// Makes the run from the start of a question, with `budget` as the most steps or without a budget, and returns the answer read off its
/// last table. `None` if it can't be made on whole numbers below 2^63, since the start has a larger one or a step would form one; if
/// the table has too many rows; or if `coordinates` don't ascend.
pub fn whole_run(
    alloc: Global,
    coordinates: &[u32],
    generators: &[Row],
    target: &Row,
    budget: Option<u32>,
) -> Result<Option<Solved>, AllocError>
    ensures { IfOk result (λ o. IfSome o (RunsFromStart coordinates.now generators.now target.now budget)) }
{
    let Some(start) = read_start(alloc, coordinates, generators, target)? else {
        return Ok(None);
    };
    let Start {
        columns,
        limit,
        engine,
    } = start;
    let task = Task {
        coordinates,
        target,
        columns: columns.as_slice(),
        budget,
    };
    answer_by_width(alloc, &task, limit, engine)
}

/// Like `whole_run`, with rows in 32 bits only: `None` also if a number doesn't fit these, or if the rows are so few that rows in 64
/// bits are as fast.
pub fn narrow_run(
    alloc: Global,
    coordinates: &[u32],
    generators: &[Row],
    target: &Row,
    budget: Option<u32>,
) -> Result<Option<Solved>, AllocError>
    ensures { IfOk result (λ o. IfSome o (RunsFromStart coordinates.now generators.now target.now budget)) }
{
    let Some(start) = read_start(alloc, coordinates, generators, target)? else {
        return Ok(None);
    };
    let Start {
        columns,
        limit,
        engine,
    } = start;
    let task = Task {
        coordinates,
        target,
        columns: columns.as_slice(),
        budget,
    };
    narrow_answer(alloc, &task, limit, &engine)
}
