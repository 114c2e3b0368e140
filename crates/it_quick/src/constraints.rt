//! The columns of constraints, and the right side.

use crate::costs::constraint_cost;
use crate::places::Places;
use crate::programs::{Column, Entry, Program};
use it_elemental::count;
use it_problems::{Constraint, Kind, Problem};
use it_space::Row;
use std::alloc::{AllocError, Global};

/// A bound on the numbers of constraints and targets.
const MOST: u128 = 1 << 15;

/// `number` in 32 bits; `None` if it is above `MOST` in absolute value.
fn small(number: i128) -> Option<i32> {
    if number.unsigned_abs() <= MOST {
        i32::try_from(number).ok()
    } else {
        None
    }
}

/// The entries of `row` at its places. `None` if a number is large.
fn entries(alloc: Global, places: &Places, row: &Row) -> Result<Option<Vec<Entry>>, AllocError> {
    let mut entries = Vec::with_capacity(alloc, row.terms().len())?;
    for (coordinate, number) in row.terms() {
        let Some(number) = small(*number) else {
            return Ok(None);
        };
        let place = places.of(*coordinate);
        if place != 0 {
            entries.push(Entry { place, number })?;
        }
    }
    Ok(Some(entries))
}

/// `entries`, negated.
fn negated(alloc: Global, entries: &[Entry]) -> Result<Vec<Entry>, AllocError> {
    let mut negated = Vec::with_capacity(alloc, entries.len())?;
    for entry in entries {
        negated.push(Entry {
            place: entry.place,
            number: entry.number.wrapping_neg(),
        })?;
    }
    Ok(negated)
}

/// Appends one column of a constraint.
fn push_column(
    program: &mut Program,
    entries: Vec<Entry>,
    generator: u32,
    negated: bool,
) -> Result<(), AllocError> {
    let cost = constraint_cost(program.columns());
    program.others.push(Column {
        entries,
        cost,
        generator,
        negated,
        rest: None,
    })?;
    Ok(())
}

/// Appends the column of `constraint`, and for an equation also the negated column. `false` if a number is large.
fn push_constraint(
    alloc: Global,
    program: &mut Program,
    places: &Places,
    constraint: &Constraint,
    generator: u32,
) -> Result<bool, AllocError> {
    let Some(entries) = entries(alloc, places, &constraint.row)? else {
        return Ok(false);
    };
    if let Kind::Equation = constraint.kind {
        let turned = negated(alloc, entries.as_slice())?;
        push_column(program, entries, generator, false)?;
        push_column(program, turned, generator, true)?;
    } else {
        push_column(program, entries, generator, false)?;
    }
    Ok(true)
}

/// Appends the columns of the constraints of `problem`. `false` if a number is large.
pub fn push_constraints(
    alloc: Global,
    program: &mut Program,
    places: &Places,
    problem: &Problem,
) -> Result<bool, AllocError> {
    let mut generator = count(problem.space().variables);
    for constraint in problem.constraints() {
        if !push_constraint(alloc, program, places, constraint, generator)? {
            return Ok(false);
        }
        generator = generator.saturating_add(1);
    }
    Ok(true)
}

/// Replaces the right side by that of `target`. `false` if a number is large.
pub fn put_right(
    alloc: Global,
    program: &mut Program,
    places: &Places,
    target: &Row,
) -> Result<bool, AllocError> {
    let Some(entries) = entries(alloc, places, target)? else {
        return Ok(false);
    };
    program.right = Vec::from_elem(alloc, 0i32, places.width())?;
    for entry in entries.as_slice() {
        program.add_right(entry);
    }
    Ok(true)
}
