//! Systems of the simplex method, a line each, with which engine answers each and how its run ends.
//!
//! A line has the most steps, or `none`, then the number of coordinates, the target and the columns. A row is its terms with commas
//! between them, each a coordinate, `:` and a coefficient, or `-` where it has none.
ghost use Rattle.std.specs.Prelude.{◌≡◌, ◌≢◌, ◌≤◌, ◌+◌, ◌++◌, ◌∷◌, [], pos, OnOk, IfSome};
ghost use Rattle.std.specs.Bool.{OnTrue};
ghost use Rattle.it_number.specs.Limit.{IsWithin};

use crate::output::Output;
use it_engine::{narrow_run, whole_run};
use it_fraction::Fraction;
use it_simplex::{Budget, Solved, solve};
use it_space::Row;
use std::alloc::{AllocError, Global};
use std::str::SplitWhitespace;

/// The question whether the target is a sum of the columns, with a budget of steps, if there is one.
#[derive(Drop)]
pub struct System {
    pub steps: Option<u32>,
    pub coordinates: Vec<u32>,
    pub target: Row,
    pub columns: Vec<Row>,
}

/// Whether `number` may be a coefficient of a row.
fn is_coefficient(number: i128) -> bool
    ensures some { OnTrue result (number ≢ pos 0) }
    ensures within { OnTrue result (IsWithin number) }
{
    if number != 0 && number != i128::MIN {
        true
    } else {
        false
    }
}

/// The coordinate and the coefficient of a term, if it may stand after terms of coordinates below `least`.
fn term_of(text: &str, least: u32) -> Option<(u32, i128)>
    ensures order { IfSome result (λ t. least ≤ t.0) }
    ensures some { IfSome result (λ t. t.1 ≢ pos 0) }
    ensures within { IfSome result (λ t. IsWithin t.1) }
{
    let (coordinate, coefficient) = text.split_once(':')?;
    let coordinate = coordinate.parse::<u32>().ok()?;
    let coefficient = coefficient.parse::<i128>().ok()?;
    if coordinate < least || !is_coefficient(coefficient) {
        return None;
    }
    Some((coordinate, coefficient))
}

/// Appends a term.
fn append(terms: &mut Vec<(u32, i128)>, term: (u32, i128)) -> Result<(), AllocError>
    ensures { OnOk result (terms.new.items ≡ terms.old.items ++ term ∷ []) }
{
    terms.push(term)?;
    Ok(())
}

/// The row that a text says; None where it says none.
fn row_of(alloc: Global, text: &str) -> Result<Option<Row>, AllocError> {
    let mut terms = Vec::new(alloc);
    let mut least: u32 = 1;
    if text == "-" {
        return Ok(Some(Row::new(terms)));
    }
    for text in text.split(',') {
        let Some(term) = term_of(text, least) else {
            return Ok(None);
        };
        if term.0 == u32::MAX {
            return Ok(None);
        }
        append(&mut terms, term)?;
        least = term.0 + 1;
    }
    Ok(Some(Row::new(terms)))
}

/// The most steps that a text says: a number, or none.
fn steps_of(text: &str) -> Option<Option<u32>> {
    if text == "none" {
        Some(None)
    } else {
        text.parse::<u32>().ok().map(Some)
    }
}

/// The rows that words say; None where one of them says none.
fn rows_of(alloc: Global, words: SplitWhitespace<'_>) -> Result<Option<Vec<Row>>, AllocError> {
    let mut rows = Vec::new(alloc);
    for word in words {
        let Some(row) = row_of(alloc, word)? else {
            return Ok(None);
        };
        rows.push(row)?;
    }
    Ok(Some(rows))
}

/// The system that a line says; None where it says none.
fn system_of(alloc: Global, line: &str) -> Result<Option<System>, AllocError> {
    let mut words = line.split_whitespace();
    let (Some(steps), Some(count)) = (words.next(), words.next()) else {
        return Ok(None);
    };
    let (Some(steps), Ok(count)) = (steps_of(steps), count.parse::<u16>()) else {
        return Ok(None);
    };
    let Some(mut columns) = rows_of(alloc, words)? else {
        return Ok(None);
    };
    if columns.is_empty() {
        return Ok(None);
    }
    let target = columns.remove(0);
    Ok(Some(System {
        steps,
        coordinates: (1..u32::from(count) + 1).collect(alloc)?,
        target,
        columns,
    }))
}

/// How the run ends.
pub fn end(alloc: Global, system: &System) -> Result<Solved, AllocError> {
    let budget = match system.steps {
        Some(steps) => Budget::at_most(steps),
        None => Budget::none(),
    };
    solve(
        alloc,
        system.coordinates.as_slice(),
        system.columns.as_slice(),
        &system.target,
        budget,
    )
}

/// The engines that may answer: by rows in 32 bits, by rows in 64 bits, or by fractions.
#[derive(Drop, Clone, Copy)]
enum Engine {
    Narrow,
    Wide,
    Exact,
}

/// The engine that answers a system: the first that doesn't give up.
fn engine_of(alloc: Global, system: &System) -> Result<Engine, AllocError> {
    let coordinates = system.coordinates.as_slice();
    let columns = system.columns.as_slice();
    if narrow_run(alloc, coordinates, columns, &system.target, system.steps)?.is_some() {
        return Ok(Engine::Narrow);
    }
    if whole_run(alloc, coordinates, columns, &system.target, system.steps)?.is_some() {
        return Ok(Engine::Wide);
    }
    Ok(Engine::Exact)
}

/// The name of an engine.
fn word(engine: Engine) -> &'static str {
    match engine {
        Engine::Narrow => "narrow",
        Engine::Wide => "wide",
        Engine::Exact => "exact",
    }
}

/// Writes weights by their columns.
fn write_weights(out: &mut Output, weights: &[(usize, Fraction)]) {
    out.put(" weights");
    for (column, weight) in weights {
        out.put(' ');
        out.put(*column);
        out.put(':');
        out.put_fraction(weight);
    }
}

/// Writes a point's values by their coordinates.
fn write_point(out: &mut Output, values: &[Fraction]) {
    out.put(" point");
    for value in values {
        out.put(' ');
        out.put_fraction(value);
    }
}

/// Writes how a run ends, by weights, a point or the number of steps.
fn write_end(out: &mut Output, solved: &Solved) {
    match solved {
        Solved::Weights(weights) => write_weights(out, weights.as_slice()),
        Solved::Point(values) => write_point(out, values.as_slice()),
        Solved::Pivots(steps) => {
            out.put(" pivots ");
            out.put(*steps);
        }
        Solved::Width(step) => {
            out.put(" width ");
            out.put(*step);
        }
    }
    out.put('\n');
}

/// Writes how the run of a system ends, after which engine answers.
fn write_run(alloc: Global, out: &mut Output, system: &System) -> Result<(), AllocError> {
    out.put(word(engine_of(alloc, system)?));
    write_end(out, &end(alloc, system)?);
    Ok(())
}

/// Writes for each line which engine answers, and how its run ends.
pub fn write_ends(alloc: Global, out: &mut Output, text: &str) -> Result<(), AllocError> {
    for line in text.lines() {
        match system_of(alloc, line)? {
            Some(system) => write_run(alloc, out, &system)?,
            None => out.put("no system\n"),
        }
    }
    Ok(())
}
