//! Finds a proof with the least sum of terms over sets, or over closed sets, by the simplex method. What is found is judged by
//! the text that it gives, so no clause says it here.
ghost use Rattle.std.specs.Prelude.{◌≡◌, ◌+◌, ◌*◌, ◌^◌, ◌≤◌, ◌<◌, length, IfOk, OnOk};
ghost use Rattle.it_space.specs.Spaces.{IsSpace, most_variables};
ghost use Rattle.it_demand.specs.Coefficients.{mass};

use crate::closed::{ClosedTerm, Closures};
use crate::finding::{common_multiple, negated, term_of, weights_of};
use crate::folding::vanishes;
use crate::untold::Untold;
use it_columns::opposite_row;
use it_demand::Coefficients;
use it_fraction::{Fraction, signed_product};
use it_problems::{Constraint, Kind};
use it_space::{Row, Space, VarSet};
use it_syntax::types::{Atom, Term};
use std::alloc::{AllocError, Global};

/// A proof is looked for among terms over the sets of at most this many variables.
const MOST_VARIABLES: u8 = 6;

/// A proof over closed sets is looked for with at most this many variables, and with at most `MOST_CLOSED_TERMS` terms over
/// closed sets.
const MOST_CLOSED_VARIABLES: u8 = 10;

const MOST_CLOSED_TERMS: usize = 10000;

/// The most terms of a row that are added up.
const MOST_TERMS: usize = 1024;

/// A sum of terms over sets and of constraints, by their indexes with weights, that is `scale` times a target.
pub struct LeastSum {
    pub scale: i128,
    pub terms: Vec<Term>,
    pub weights: Vec<(u32, i128)>,
}

impl Drop for LeastSum {
    fn drop(self) {
        let LeastSum {
            scale: _,
            terms: _,
            weights: _,
        } = self;
    }
}

/// `scale` times the row `target`.
#[derive(Drop)]
pub struct Multiple<'a> {
    pub target: &'a Row,
    pub scale: i128,
}

/// Columns over `coordinates`: those of terms over sets, then those of constraints by their indexes, negated where the flag is
/// set, and last one for how far the sum of the terms stays below its bound.
struct Columns {
    coordinates: Vec<u32>,
    terms: Vec<Term>,
    constraints: Vec<(u32, bool)>,
    rows: Vec<Row>,
}

impl Drop for Columns {
    fn drop(self) {
        let Columns {
            coordinates: _,
            terms: _,
            constraints: _,
            rows: _,
        } = self;
    }
}

/// `space` with one more rate, at which each row has the sum of its terms over sets; `NotFound` unless it has 1 to
/// `most` variables and at most 15 rates.
fn wider_space(space: Space, most: u8) -> Result<Space, Untold>
    requires { most ≤ most_variables }
    ensures { IfOk result IsSpace }
{
    if space.variables < 1 || space.variables > most || space.rates > 15 {
        return Err(Untold::NotFound);
    }
    Ok(Space {
        variables: space.variables,
        rates: space.rates + 1,
    })
}

/// Adds `times`, whose absolute value has to be below 2^64, at `coordinate`, which has to be below `places`; else `NotFound`.
fn put(
    coefficients: &mut Coefficients,
    places: usize,
    coordinate: usize,
    times: i128,
) -> Result<(), Untold>
    requires complete { length coefficients.old ≡ places }
    requires small { mass coefficients.old ≤ 2 ^ 100 }
    ensures complete { OnOk result (length coefficients.new ≡ places) }
    ensures small { OnOk result (mass coefficients.new ≤ mass coefficients.old + 2 ^ 64) }
{
    if coordinate >= places || times.unsigned_abs() > u64::MAX as u128 {
        return Err(Untold::NotFound);
    }
    coefficients.add(coordinate, times);
    Ok(())
}

/// The row of `times` times `terms`, with `last` at the greatest coordinate.
fn row_with(
    alloc: Global,
    space: Space,
    terms: &[(u32, i128)],
    times: i128,
    last: i128,
) -> Result<Row, Untold>
    requires { IsSpace space }
{
    if terms.len() > MOST_TERMS {
        return Err(Untold::NotFound);
    }
    let places = space.size() as usize + 1;
    let mut coefficients = Coefficients::new(alloc, space)?;
    for term in terms {
        let number = signed_product(term.1, times)?;
        put(&mut coefficients, places, term.0 as usize, number)?;
    }
    put(&mut coefficients, places, places - 1, last)?;
    Ok(coefficients.into_row(alloc)?)
}

/// The coordinate of a set.
fn place(set: VarSet) -> u32 {
    set.number() as u32
}

/// The terms of an entropy or a mutual information, by sets; zeros at the empty set for any other atom.
pub fn atom_terms(atom: &Atom) -> [(u32, i128); 4] {
    match atom {
        Atom::Entropy { of, given } => [
            (place(of.union(*given)), 1),
            (place(*given), -1),
            (0, 0),
            (0, 0),
        ],
        Atom::Mutual { left, right, given } => [
            (place(left.union(*given)), 1),
            (place(right.union(*given)), 1),
            (place(left.union(*right).union(*given)), -1),
            (place(*given), -1),
        ],
        _ => [(0, 0), (0, 0), (0, 0), (0, 0)],
    }
}

/// Adds the column of a term over sets.
fn put_atom(alloc: Global, columns: &mut Columns, space: Space, atom: Atom) -> Result<(), Untold>
    requires { IsSpace space }
{
    let row = row_with(alloc, space, &atom_terms(&atom), 1, 1)?;
    columns.rows.push(row)?;
    columns.terms.push(term_of(1, atom)?)?;
    Ok(())
}

/// Whether two sets share a variable.
fn meets(set: VarSet, other: VarSet) -> bool {
    set.meet(other) != VarSet::empty()
}

/// Adds the columns of H(A|C) and of each I(A;B|C), where A is `left`, C is `given`, and B has a greater number than A; all
/// three are disjoint.
fn put_atoms_of(
    alloc: Global,
    columns: &mut Columns,
    space: Space,
    left: VarSet,
    given: VarSet,
) -> Result<(), Untold>
    requires { IsSpace space }
{
    put_atom(alloc, columns, space, Atom::Entropy { of: left, given })?;
    for number in 1..1u32 << space.variables {
        let right = VarSet::from_number(number as u16);
        if right.number() > left.number() && !meets(right, left) && !meets(right, given) {
            put_atom(alloc, columns, space, Atom::Mutual { left, right, given })?;
        }
    }
    Ok(())
}

/// Adds the columns of each H(A|C) and each I(A;B|C) of disjoint sets.
fn put_atoms(alloc: Global, columns: &mut Columns, space: Space) -> Result<(), Untold>
    requires { IsSpace space }
{
    for number in 0..1u32 << space.variables {
        let given = VarSet::from_number(number as u16);
        for other in 1..1u32 << space.variables {
            let left = VarSet::from_number(other as u16);
            if !meets(left, given) {
                put_atoms_of(alloc, columns, space, left, given)?;
            }
        }
    }
    Ok(())
}

/// Adds the column of a constraint; of an equation also the negated one.
fn put_constraint(
    alloc: Global,
    columns: &mut Columns,
    constraint: &Constraint,
    number: u32,
) -> Result<(), Untold> {
    columns.rows.push(constraint.row.copy(alloc)?)?;
    columns.constraints.push((number, false))?;
    if constraint.kind == Kind::Equation {
        columns.rows.push(opposite_row(alloc, &constraint.row)?)?;
        columns.constraints.push((number, true))?;
    }
    Ok(())
}

/// No columns, over `coordinates`.
fn no_columns(alloc: Global, coordinates: Vec<u32>) -> Columns {
    Columns {
        coordinates,
        terms: Vec::new(alloc),
        constraints: Vec::new(alloc),
        rows: Vec::new(alloc),
    }
}

/// All columns: those of terms over sets, those of constraints, and the one for how far a sum stays below its bound.
fn all_columns(alloc: Global, space: Space, constraints: &[Constraint]) -> Result<Columns, Untold>
    requires { IsSpace space }
{
    let coordinates = (1..space.size() + 1).collect(alloc)?;
    let mut columns = no_columns(alloc, coordinates);
    put_atoms(alloc, &mut columns, space)?;
    for (i, constraint) in constraints.iter().enumerate() {
        put_constraint(alloc, &mut columns, constraint, (i % 65536) as u32)?;
    }
    columns.rows.push(row_with(alloc, space, &[], 1, 1)?)?;
    Ok(columns)
}

/// The coordinates that are left over closed sets.
fn closed_coordinates(
    alloc: Global,
    closures: &Closures,
    space: Space,
) -> Result<Vec<u32>, AllocError>
    requires { IsSpace space }
{
    let mut coordinates = Vec::new(alloc);
    for coordinate in 1..space.size() + 1 {
        if closures.place(coordinate) == coordinate {
            coordinates.push(coordinate)?;
        }
    }
    Ok(coordinates)
}

/// The row over closed sets of `times` times `terms`, with `last` at the greatest coordinate.
fn closed_row(
    alloc: Global,
    closures: &Closures,
    space: Space,
    terms: &[(u32, i128)],
    times: i128,
    last: i128,
) -> Result<Row, Untold>
    requires { IsSpace space }
{
    let mut folded = Vec::new(alloc);
    for term in terms {
        folded.push((closures.place(term.0), term.1))?;
    }
    row_with(alloc, space, folded.as_slice(), times, last)
}

/// Adds the columns of terms over closed sets.
fn put_closed_terms(
    alloc: Global,
    columns: &mut Columns,
    closures: &Closures,
    space: Space,
    terms: &[ClosedTerm],
) -> Result<(), Untold>
    requires { IsSpace space }
{
    for term in terms {
        let atom = term.atom();
        let row = closed_row(alloc, closures, space, &atom_terms(&atom), 1, 1)?;
        columns.rows.push(row)?;
        columns.terms.push(term_of(1, atom)?)?;
    }
    Ok(())
}

/// Adds the column of a constraint over closed sets; of an equation also the negated one.
fn put_closed_constraint(
    alloc: Global,
    columns: &mut Columns,
    closures: &Closures,
    space: Space,
    constraint: &Constraint,
    number: u32,
) -> Result<(), Untold>
    requires { IsSpace space }
{
    let terms = constraint.row.terms();
    let row = closed_row(alloc, closures, space, terms, 1, 0)?;
    columns.rows.push(row)?;
    columns.constraints.push((number, false))?;
    if constraint.kind == Kind::Equation {
        let row = closed_row(alloc, closures, space, terms, -1, 0)?;
        columns.rows.push(row)?;
        columns.constraints.push((number, true))?;
    }
    Ok(())
}

/// All columns over closed sets, without constraints that are 0 there.
fn closed_columns(
    alloc: Global,
    closures: &Closures,
    space: Space,
    constraints: &[Constraint],
) -> Result<Columns, Untold>
    requires { IsSpace space }
{
    let Some(terms) = closures.terms(alloc, MOST_CLOSED_TERMS)? else {
        return Err(Untold::NotFound);
    };
    let coordinates = closed_coordinates(alloc, closures, space)?;
    let mut columns = no_columns(alloc, coordinates);
    put_closed_terms(alloc, &mut columns, closures, space, terms.as_slice())?;
    for (i, constraint) in constraints.iter().enumerate() {
        if !vanishes(closures, constraint.row.terms())? {
            let number = (i % 65536) as u32;
            put_closed_constraint(alloc, &mut columns, closures, space, constraint, number)?;
        }
    }
    columns.rows.push(row_with(alloc, space, &[], 1, 1)?)?;
    Ok(columns)
}

/// Weights of the columns that add up to `multiple`, where the sum of the terms over sets is at most `bound`.
fn weights_within(
    alloc: Global,
    space: Space,
    columns: &Columns,
    multiple: &Multiple<'_>,
    bound: i128,
) -> Result<Vec<(usize, Fraction)>, Untold>
    requires { IsSpace space }
{
    let row = row_with(alloc, space, multiple.target.terms(), multiple.scale, bound)?;
    weights_of(
        alloc,
        columns.coordinates.as_slice(),
        columns.rows.as_slice(),
        &row,
    )
}

/// The weights for the least whole bound up to `most` for which some are found, by bisection.
fn least_weights(
    alloc: Global,
    space: Space,
    columns: &Columns,
    multiple: &Multiple<'_>,
    most: i128,
) -> Result<Vec<(usize, Fraction)>, Untold>
    requires { IsSpace space }
{
    let mut best = weights_within(alloc, space, columns, multiple, most)?;
    let mut low: u64 = 0;
    let mut high = u64::try_from(most)?;
    for _ in 0..64 {
        if low >= high {
            return Ok(best);
        }
        let middle = low + (high - low) / 2;
        match weights_within(alloc, space, columns, multiple, middle as i128) {
            Ok(weights) => {
                best = weights;
                high = middle;
            }
            Err(Untold::NotFound) => low = middle + 1,
            Err(Untold::Memory) => return Err(Untold::Memory),
        }
    }
    Ok(best)
}

/// Adds `times` times what `column` stands for.
fn put_times(
    found: &mut LeastSum,
    columns: &Columns,
    column: usize,
    times: i128,
) -> Result<(), Untold> {
    let terms = columns.terms.len();
    if column < terms {
        let term = term_of(times, columns.terms[column].atom)?;
        found.terms.push(term)?;
    } else if column - terms < columns.constraints.len() {
        let (number, negative) = columns.constraints[column - terms];
        let weight = negated(times, negative)?;
        found.weights.push((number, weight))?;
    }
    Ok(())
}

/// The sum that `weights` of the columns for `scale` times a target make, times the least common multiple of their
/// denominators.
fn sum_by_weights(
    alloc: Global,
    columns: &Columns,
    weights: &[(usize, Fraction)],
    scale: i128,
) -> Result<LeastSum, Untold> {
    let multiple = common_multiple(alloc, weights)?;
    let mut sum = LeastSum {
        scale: signed_product(scale, multiple)?,
        terms: Vec::new(alloc),
        weights: Vec::new(alloc),
    };
    for weight in weights {
        let times = signed_product(weight.1.num(), multiple / weight.1.den())?;
        put_times(&mut sum, columns, weight.0, times)?;
    }
    Ok(sum)
}

/// Terms over sets with a plus and weights of constraints that add up to some times `multiple`, with the least sum of terms.
/// `NotFound` where none are found whose sum is at most `most` for `multiple` itself.
pub fn shortest(
    alloc: Global,
    space: Space,
    constraints: &[Constraint],
    multiple: &Multiple<'_>,
    most: i128,
) -> Result<LeastSum, Untold> {
    let wider = wider_space(space, MOST_VARIABLES)?;
    let columns = all_columns(alloc, wider, constraints)?;
    let weights = least_weights(alloc, wider, &columns, multiple, most)?;
    sum_by_weights(alloc, &columns, weights.as_slice(), multiple.scale)
}

/// Like `shortest`, with terms over closed sets, where these are few enough: they add up to the target where the functions
/// hold.
pub fn shortest_closed(
    alloc: Global,
    closures: &Closures,
    space: Space,
    constraints: &[Constraint],
    multiple: &Multiple<'_>,
    most: i128,
) -> Result<LeastSum, Untold> {
    let wider = wider_space(space, MOST_CLOSED_VARIABLES)?;
    let columns = closed_columns(alloc, closures, wider, constraints)?;
    let target = closed_row(alloc, closures, wider, multiple.target.terms(), 1, 0)?;
    let closed = Multiple {
        target: &target,
        scale: multiple.scale,
    };
    let weights = least_weights(alloc, wider, &columns, &closed, most)?;
    sum_by_weights(alloc, &columns, weights.as_slice(), closed.scale)
}
