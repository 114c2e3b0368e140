//! Elimination of rates that reduces the list after each.

ghost use Rattle.std.specs.Prelude.{◌≤◌, All, length};
ghost use Rattle.std.specs.Bool.{OnTrue};
ghost use Rattle.it_redundant.specs.Reduction.{IsSystemUnder};
ghost use Rattle.it_space.specs.Rows.{IsOver, most_system_rows};

use crate::Task;
use crate::output::Output;
use crate::targets::Asking;
use it_canon::{problem, system};
use it_eliminate::{Eliminated, step};
use it_problems::{Constraint, Kind, Origin, Problem, System};
use it_prove::{Effort, Runs};
use it_question::types::{Question, Verb};
use it_redundant::{kept_system, reduce};
use it_space::Row;
use std::alloc::{AllocError, Global};

/// The defined run, with as many steps as it takes.
const DEFINED: Effort = Effort {
    runs: Runs::Defined,
    pivots: None,
};

/// The most rows that a rate may leave.
const MOST: usize = 4096;

/// Whether a row uses coordinates up to `size` alone.
fn is_up_to(row: &Row, size: u32) -> bool
    ensures { OnTrue result (IsOver size row.now) }
{
    row.terms()
        .iter()
        .all(|(coordinate, _)| 1 <= *coordinate && *coordinate <= size)
}

/// Whether all rows use coordinates up to `size` alone.
fn are_up_to(rows: &[Row], size: u32) -> bool
    ensures { OnTrue result (All (IsOver size) rows.now) }
{
    rows.iter().all(|row| is_up_to(row, size))
}

/// Appends the constraint of a row.
fn push(
    alloc: Global,
    constraints: &mut Vec<Constraint>,
    row: &Row,
    kind: Kind,
    origin: Origin,
) -> Result<(), AllocError> {
    let row = row.copy(alloc)?;
    constraints.push(Constraint { row, kind, origin })?;
    Ok(())
}

/// Appends rows as constraints that are to be at least 0.
fn push_rows(
    alloc: Global,
    constraints: &mut Vec<Constraint>,
    rows: &[Row],
) -> Result<(), AllocError> {
    for row in rows {
        push(
            alloc,
            constraints,
            row,
            Kind::Inequality,
            Origin::Rate { line: 1 },
        )?;
    }
    Ok(())
}

/// Appends the givens.
fn push_givens(
    alloc: Global,
    constraints: &mut Vec<Constraint>,
    givens: &Problem,
) -> Result<(), AllocError> {
    for given in givens.constraints() {
        push(alloc, constraints, &given.row, given.kind, given.origin)?;
    }
    Ok(())
}

/// Whether there are at most 65,535 constraints, of `size` coordinates.
fn are_constraints(constraints: &[Constraint], size: u32) -> bool
    ensures few { OnTrue result (length constraints.now ≤ most_system_rows) }
    ensures rows { OnTrue result (All (λ c. IsOver size c.row) constraints.now) }
{
    constraints.len() <= 65535
        && constraints
            .iter()
            .all(|constraint| is_up_to(&constraint.row, size))
}

/// The problem of the givens with the rows `before` and `after`; `None` where these are too many, or not of the givens' space.
fn problem_around(
    alloc: Global,
    givens: &Problem,
    before: &[Row],
    after: &[Row],
) -> Result<Option<Problem>, AllocError> {
    let mut constraints = Vec::new(alloc);
    push_givens(alloc, &mut constraints, givens)?;
    push_rows(alloc, &mut constraints, before)?;
    push_rows(alloc, &mut constraints, after)?;
    let space = givens.space();
    if !are_constraints(constraints.as_slice(), space.size()) {
        return Ok(None);
    }
    Ok(Some(Problem { space, constraints }))
}

/// Whether a row is proved under the givens and the rows before and after it, by a call of its own.
fn follows(
    alloc: Global,
    givens: &Problem,
    before: &[Row],
    row: &Row,
    after: &[Row],
    asking: &mut Asking,
) -> Result<bool, AllocError> {
    let Some(problem) = problem_around(alloc, givens, before, after)? else {
        return Ok(false);
    };
    if !is_up_to(row, problem.size()) {
        return Ok(false);
    }
    asking.proves(alloc, &problem, row)
}

/// The list without the rows that follow from the others, each asked about by a call of its own.
fn reduction_anew(
    alloc: Global,
    list: &System,
    givens: &Problem,
    asking: &mut Asking,
) -> Result<System, AllocError> {
    let mut kept = Vec::new(alloc);
    let rows = list.rows.as_slice();
    for i in 0..rows.len() {
        let row = &rows[i];
        if !follows(alloc, givens, kept.as_slice(), row, &rows[i + 1..], asking)? {
            kept.push(row.copy(alloc)?)?;
        }
    }
    Ok(System {
        space: list.space,
        rows: kept,
    })
}

/// The list without the rows that follow from the others, in one of the ways.
fn reduction(
    alloc: Global,
    list: System,
    givens: &Problem,
    way: &str,
    asking: &mut Asking,
) -> Result<System, AllocError>
    requires under { IsSystemUnder givens.now list }
    requires few { length list.rows.items ≤ most_system_rows }
{
    match way {
        "shared" => {
            let reduced = reduce(alloc, &list, givens, DEFINED)?;
            kept_system(alloc, list.space, &reduced)
        }
        "anew" => reduction_anew(alloc, &list, givens, asking),
        _ => Ok(list),
    }
}

/// Whether the list has few rows of the givens' space.
fn is_under(list: &System, givens: &Problem) -> bool
    ensures under { OnTrue result (IsSystemUnder givens.now list.now) }
    ensures few { OnTrue result (length list.now.rows.items ≤ most_system_rows) }
{
    givens.facts();
    list.space == givens.space()
        && givens.constraints().len() <= 65535
        && list.rows.len() <= 65535
        && are_up_to(list.rows.as_slice(), givens.size())
}

/// The list after a rate, if there is one.
fn after(
    alloc: Global,
    list: &System,
    givens: &Problem,
    rate: u8,
) -> Result<Option<System>, AllocError> {
    if !is_under(list, givens) || rate >= list.space.rates {
        return Ok(None);
    }
    match step(alloc, list, rate, MOST)? {
        Eliminated::Region(after) => Ok(Some(after)),
        _ => Ok(None),
    }
}

/// The list after a rate without the rows that follow from the others, in one of the ways, and the number of rows that were asked
/// about; None where there is no such list.
fn reduced_after(
    alloc: Global,
    list: &System,
    givens: &Problem,
    rate: u8,
    way: &str,
    asking: &mut Asking,
) -> Result<Option<(System, usize)>, AllocError> {
    let Some(after) = after(alloc, list, givens, rate)? else {
        return Ok(None);
    };
    if !is_under(&after, givens) {
        return Ok(None);
    }
    let asked = if way == "plain" { 0 } else { after.rows.len() };
    Ok(Some((reduction(alloc, after, givens, way, asking)?, asked)))
}

/// The rows of a question, and the givens that they are under.
fn rows_and_givens(alloc: Global, question: &Question) -> Result<(System, Problem), AllocError> {
    let rows = system(alloc, question)?;
    Ok((rows, problem(alloc, question)?))
}

/// The numbers of rows that each rate leaves, up to a rate that has no list, and the number of calls of the solver.
pub fn elimination(
    alloc: Global,
    question: &Question,
    rates: &[u8],
    way: &str,
    asking: &mut Asking,
) -> Result<(Vec<usize>, usize), AllocError> {
    let (mut list, givens) = rows_and_givens(alloc, question)?;
    let (mut counts, mut calls) = (Vec::new(alloc), 0usize);
    for rate in rates {
        let Some((after, asked)) = reduced_after(alloc, &list, &givens, *rate, way, asking)? else {
            return Ok((counts, calls));
        };
        calls = calls.wrapping_add(asked);
        counts.push(after.rows.len())?;
        list = after;
    }
    Ok((counts, calls))
}

/// Writes the rows after each rate, and the calls.
fn write_counts(out: &mut Output, counts: &[usize], calls: usize) {
    out.put("rows");
    for rows in counts {
        out.put(' ');
        out.put(*rows);
    }
    out.put(" calls ");
    out.put(calls);
    out.put('\n');
}

/// Eliminates the rates `task.turns` times, and writes the rows after each and the calls.
fn eliminate(
    alloc: Global,
    out: &mut Output,
    question: &Question,
    rates: &[u8],
    task: &Task<'_>,
) -> Result<(), AllocError> {
    let mut asking = Asking::defined();
    for _ in 1..task.turns {
        elimination(alloc, question, rates, task.way, &mut asking)?;
    }
    let (counts, calls) = elimination(alloc, question, rates, task.way, &mut asking)?;
    write_counts(out, counts.as_slice(), calls);
    Ok(())
}

/// Eliminates the rates of a question, if it has such.
pub fn time(
    alloc: Global,
    out: &mut Output,
    question: &Question,
    task: &Task<'_>,
) -> Result<(), AllocError> {
    match question.verb() {
        Verb::Eliminate(rates) => eliminate(alloc, out, question, rates.as_slice(), task),
        _ => {
            out.put("no rates\n");
            Ok(())
        }
    }
}
