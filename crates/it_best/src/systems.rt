//! The unknowns of the three phases.
ghost use Rattle.std.specs.Prelude.{◌≡◌, ◌≢◌, ◌<◌, ◌≤◌, ◌+◌, ◌^◌, ◌++◌, ◌∷◌, [], pos, List, length, map, All, IfOk, OnOk};
ghost use Rattle.it_number.specs.Limit.{IsWithin};
ghost use Rattle.it_space.specs.Rows.{coefficient};
ghost use Rattle.it_space.specs.Spaces.{size_of};
ghost use Rattle.it_elemental.specs.Generators.{Generator, generators, generator_at};
ghost use Rattle.it_best.specs.PhaseSteps.{IsCoordinateKind, all_slacks, all_values, first_unknowns, most_equations, row_at, third_unknowns};
ghost use Rattle.it_best.specs.Phases.{coordinate_terms, counterweight, left_equation, right_equation, slack_by, unknown_view, unknown_views};

use crate::sides::Sides;
use crate::unknowns::Unknown;
use it_columns::{generator_row, opposite_row};
use it_elemental::{generator_count, kind_at};
use it_problems::{Kind, Problem};
use it_space::{Row, push_some};
use std::alloc::{AllocError, Global};

/// The weight of generator `index` as an unknown.
fn weight(alloc: Global, problem: &Problem, index: u32) -> Result<Unknown, AllocError>
    requires listed { index < length (generators problem.now) }
    ensures { IfOk result (λ u. unknown_view u ≡ generator_at (generators problem.now) index) }
{
    let row = generator_row(alloc, problem, index)?;
    Ok(Unknown {
        kind: kind_at(problem, index),
        row,
    })
}

/// The weight of generator `index` as an unknown that counts against the factor: with the generator's negated row.
fn counterweight(alloc: Global, problem: &Problem, index: u32) -> Result<Unknown, AllocError>
    requires listed { index < length (generators problem.now) }
    ensures { IfOk result (λ u. unknown_view u ≡ counterweight (generator_at (generators problem.now) index)) }
{
    let generator = weight(alloc, problem, index)?;
    let row = opposite_row(alloc, &generator.row)?;
    Ok(Unknown {
        kind: generator.kind,
        row,
    })
}

/// Appends the weights of all generators, with negated rows.
fn push_counterweights(
    unknowns: &mut Vec<Unknown>,
    alloc: Global,
    problem: &Problem,
) -> Result<(), AllocError>
    ensures { OnOk result (unknown_views unknowns.new.items ≡ unknown_views unknowns.old.items ++ map counterweight (generators problem.now)) }
{
    for index in 0..generator_count(problem) {
        let unknown = counterweight(alloc, problem, index)?;
        unknowns.push(unknown)?;
    }
    Ok(())
}

/// The unknowns of the first phase: the factor, and the weights of the generators. They should sum to the right side.
pub fn first_phase(alloc: Global, sides: &Sides<'_>) -> Result<Vec<Unknown>, AllocError>
    ensures { IfOk result (λ v. unknown_views v.items ≡ first_unknowns sides.now) }
{
    let mut unknowns = Vec::new(alloc);
    let row = sides.left().copy(alloc)?;
    unknowns.push(Unknown {
        kind: Kind::Equation,
        row,
    })?;
    push_counterweights(&mut unknowns, alloc, sides.problem())?;
    Ok(unknowns)
}

/// The unknowns of the second phase: the weights of the generators. They should sum to the negated left side.
pub fn second_phase(alloc: Global, problem: &Problem) -> Result<Vec<Unknown>, AllocError>
    ensures { IfOk result (λ v. unknown_views v.items ≡ generators problem.now) }
{
    let mut unknowns = Vec::new(alloc);
    for index in 0..generator_count(problem) {
        let unknown = weight(alloc, problem, index)?;
        unknowns.push(unknown)?;
    }
    Ok(unknowns)
}

/// The rows of the generators, in order.
fn generator_rows(alloc: Global, problem: &Problem) -> Result<Vec<Row>, AllocError>
    ensures { IfOk result (λ v. v.items ≡ map (λ g. g.row) (generators problem.now)) }
{
    let mut rows = Vec::new(alloc);
    for index in 0..generator_count(problem) {
        let row = generator_row(alloc, problem, index)?;
        rows.push(row)?;
    }
    Ok(rows)
}

/// The number of the equation of the left side's value at the point, which is 1.
pub fn left_equation(sides: &Sides<'_>) -> u32
    ensures value { result ≡ left_equation (size_of sides.now.problem.space) (generators sides.now.problem) }
    ensures few { result ≤ most_equations }
{
    sides.facts();
    sides.size() + sides.generator_count() + 1
}

/// The number of the equation of the right side's value at the point, which is the factor.
pub fn right_equation(sides: &Sides<'_>) -> u32
    ensures value { result ≡ right_equation (size_of sides.now.problem.space) (generators sides.now.problem) }
    ensures few { result ≤ most_equations }
{
    sides.facts();
    sides.size() + sides.generator_count() + 2
}

/// `row` with the term `coefficient` at `coordinate` after its own.
pub fn with_term(
    alloc: Global,
    row: &Row,
    coordinate: u32,
    coefficient: i128,
) -> Result<Row, AllocError>
    requires after { All (λ t. t.0 < coordinate) row.now }
    requires some { coefficient ≢ pos 0 }
    requires within { IsWithin coefficient }
    ensures { IfOk result (λ r. r ≡ row.now ++ (coordinate, coefficient) ∷ []) }
{
    let mut terms = row.copy(alloc)?.into_terms();
    terms.push((coordinate, coefficient))?;
    Ok(Row::new(terms))
}

/// The coefficients of `rows` at `coordinate`, as terms at the rows' equations, the first of which is `first`.
fn coordinate_terms(
    alloc: Global,
    rows: &[Row],
    first: u32,
    coordinate: u32,
) -> Result<Vec<(u32, i128)>, AllocError>
    requires few { first + length rows.now < 2 ^ 31 }
    ensures same { IfOk result (λ v. (gs : List Generator) → rows.now ≡ map (λ g. g.row) gs → v.items ≡ coordinate_terms first gs coordinate) }
    ensures within { OnOk result ((gs : List Generator) → rows.now ≡ map (λ g. g.row) gs → All (λ g. IsWithin (coefficient g.row coordinate)) gs) }
{
    let mut terms = Vec::new(alloc);
    for index in 0..rows.len() {
        push_some(
            &mut terms,
            first + index as u32,
            rows[index].coefficient(coordinate),
        )?;
    }
    Ok(terms)
}

/// The coefficients of the generators, which have these rows, and of the sides at `coordinate`, as a row over the equations.
fn coordinate_row(
    alloc: Global,
    sides: &Sides<'_>,
    rows: &[Row],
    coordinate: u32,
) -> Result<Row, AllocError>
    requires { rows.now ≡ map (λ g. g.row) (generators sides.now.problem) }
    ensures { IfOk result (λ r. r ≡ row_at sides.now coordinate) }
{
    sides.facts();
    let mut terms = coordinate_terms(alloc, rows, sides.size() + 1, coordinate)?;
    push_some(
        &mut terms,
        left_equation(sides),
        sides.left().coefficient(coordinate),
    )?;
    push_some(
        &mut terms,
        right_equation(sides),
        sides.right().coefficient(coordinate),
    )?;
    Ok(Row::new(terms))
}

/// The kind of the value at `coordinate`: at least 0 for a set, any number for a rate.
fn coordinate_kind(sides: &Sides<'_>, coordinate: u32) -> Kind
    ensures { IsCoordinateKind sides.now.problem.space.variables coordinate result }
{
    if coordinate < 1 << sides.space().variables {
        Kind::Inequality
    } else {
        Kind::Equation
    }
}

/// Appends the values of the point at all coordinates, by the rows of the generators.
fn push_values(
    unknowns: &mut Vec<Unknown>,
    alloc: Global,
    sides: &Sides<'_>,
    rows: &[Row],
) -> Result<(), AllocError>
    requires { rows.now ≡ map (λ g. g.row) (generators sides.now.problem) }
    ensures { OnOk result (unknown_views unknowns.new.items ≡ unknown_views unknowns.old.items ++ all_values sides.now) }
{
    sides.facts();
    for coordinate in 1..sides.size() + 1 {
        let row = coordinate_row(alloc, sides, rows, coordinate)?;
        let kind = coordinate_kind(sides, coordinate);
        unknowns.push(Unknown { kind, row })?;
    }
    Ok(())
}

/// Appends the slack of an inequality; an equation has none.
fn push_slack(
    unknowns: &mut Vec<Unknown>,
    alloc: Global,
    kind: Kind,
    equation: u32,
) -> Result<(), AllocError>
    ensures { OnOk result (unknown_views unknowns.new.items ≡ unknown_views unknowns.old.items ++ slack_by equation kind) }
{
    match kind {
        Kind::Inequality => {
            let terms = vec![in alloc; (equation, -1)]?;
            unknowns.push(Unknown {
                kind: Kind::Inequality,
                row: Row::new(terms),
            })?;
            Ok(())
        }
        Kind::Equation => Ok(()),
    }
}

/// Appends the slack of each inequality at the point.
fn push_slacks(
    unknowns: &mut Vec<Unknown>,
    alloc: Global,
    problem: &Problem,
) -> Result<(), AllocError>
    ensures { OnOk result (unknown_views unknowns.new.items ≡ unknown_views unknowns.old.items ++ all_slacks problem.now) }
{
    problem.facts();
    let first = problem.size() + 1;
    for index in 0..generator_count(problem) {
        push_slack(unknowns, alloc, kind_at(problem, index), first + index)?;
    }
    Ok(())
}

/// The unknowns of the third phase: the factor, the weights of the generators, the values of a point, and the slack of each inequality
/// there. They should sum to the right side, with 1 at the equation of the left side's value.
pub fn third_phase(alloc: Global, sides: &Sides<'_>) -> Result<Vec<Unknown>, AllocError>
    ensures { IfOk result (λ v. unknown_views v.items ≡ third_unknowns sides.now) }
{
    sides.facts();
    let problem = sides.problem();
    let rows = generator_rows(alloc, problem)?;
    let mut unknowns = Vec::new(alloc);
    let row = with_term(alloc, sides.left(), right_equation(sides), -1)?;
    unknowns.push(Unknown {
        kind: Kind::Equation,
        row,
    })?;
    push_counterweights(&mut unknowns, alloc, problem)?;
    push_values(&mut unknowns, alloc, sides, rows.as_slice())?;
    push_slacks(&mut unknowns, alloc, problem)?;
    Ok(unknowns)
}
