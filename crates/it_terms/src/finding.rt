//! Writes rows as sums of measures. What is found is judged by the text that it gives, so no clause says it here.
ghost use Rattle.std.specs.Prelude.{◌≤◌};
ghost use Rattle.it_space.specs.Spaces.{most_variables};

use crate::measures::Measure;
use crate::untold::Untold;
use it_columns::opposite_row;
use it_fraction::{Fraction, signed_product, sum};
use it_origins::{column_weights, multiple_of_denominators};
use it_space::{Row, Space, VarSet};
use it_syntax::types::{Atom, Term};
use std::alloc::{AllocError, Global};

/// Measures, by their indexes in a list, and weights of columns that add up to a row. Column 2i is the row of the measure of
/// index `places[i]`, column 2i + 1 is its negation.
struct Choice {
    places: Vec<usize>,
    weights: Vec<(usize, Fraction)>,
}

impl Drop for Choice {
    fn drop(self) {
        let Choice {
            places: _,
            weights: _,
        } = self;
    }
}

/// A sum that is `scale` times a row's part over sets: each term with its sign.
pub struct Found {
    pub scale: i128,
    pub terms: Vec<Term>,
}

impl Drop for Found {
    fn drop(self) {
        let Found { scale: _, terms: _ } = self;
    }
}

/// `times` times `atom` as a term; `NotFound` if the number has more than 64 bits.
pub fn term_of(times: i128, atom: Atom) -> Result<Term, Untold> {
    let number = u64::try_from(times.unsigned_abs())?;
    Ok(Term {
        negative: times < 0,
        number,
        denominator: 1,
        atom,
    })
}

/// The terms of `row` over sets, which come before those of rates.
fn set_terms(row: &Row, space: Space) -> &[(u32, i128)]
    requires { space.variables ≤ most_variables }
{
    let terms = row.terms();
    for i in 0..terms.len() {
        if terms[i].0 >= 1u32 << space.variables {
            return &terms[..i];
        }
    }
    terms
}

/// Whether the row of one of `measures` has a coefficient at `coordinate`.
fn is_used(measures: &[Measure], coordinate: u32) -> bool {
    for measure in measures {
        if measure.row.coefficient(coordinate) != 0 {
            return true;
        }
    }
    false
}

/// The coordinates of sets at which `row` or one of `measures` has a coefficient, ascending.
fn used_coordinates(
    alloc: Global,
    measures: &[Measure],
    row: &Row,
    space: Space,
) -> Result<Vec<u32>, AllocError>
    requires { space.variables ≤ most_variables }
{
    let mut coordinates = Vec::new(alloc);
    for coordinate in 1..1u32 << space.variables {
        if row.coefficient(coordinate) != 0 || is_used(measures, coordinate) {
            coordinates.push(coordinate)?;
        }
    }
    Ok(coordinates)
}

/// The rows of the measures with the indexes `places`, each followed by its negation.
fn columns(alloc: Global, measures: &[Measure], places: &[usize]) -> Result<Vec<Row>, AllocError> {
    let mut columns = Vec::new(alloc);
    for place in places {
        if *place < measures.len() {
            let row = &measures[*place].row;
            columns.push(row.copy(alloc)?)?;
            columns.push(opposite_row(alloc, row)?)?;
        }
    }
    Ok(columns)
}

/// Weights of `columns` by which they add up to `row` at `coordinates`; `NotFound` where none are found.
pub fn weights_of(
    alloc: Global,
    coordinates: &[u32],
    columns: &[Row],
    row: &Row,
) -> Result<Vec<(usize, Fraction)>, Untold> {
    let weights = column_weights(alloc, coordinates, columns, row)?;
    weights.ok_or(Untold::NotFound)
}

/// The measures with the indexes `places`, with weights by which they add up to `row` at `coordinates`.
fn sum_of(
    alloc: Global,
    coordinates: &[u32],
    measures: &[Measure],
    row: &Row,
    places: Vec<usize>,
) -> Result<Choice, Untold> {
    let columns = columns(alloc, measures, places.as_slice())?;
    let weights = weights_of(alloc, coordinates, columns.as_slice(), row)?;
    Ok(Choice { places, weights })
}

/// `places` without the item with index `number`.
fn without(alloc: Global, places: &[usize], number: usize) -> Result<Vec<usize>, AllocError> {
    let mut others = Vec::new(alloc);
    for (i, place) in places.iter().enumerate() {
        if i != number {
            others.push(*place)?;
        }
    }
    Ok(others)
}

/// A sum with fewer weights than `found`, of its measures without one of them; `NotFound` where none is found.
fn shorter(
    alloc: Global,
    coordinates: &[u32],
    measures: &[Measure],
    row: &Row,
    found: &Choice,
) -> Result<Choice, Untold> {
    for weight in found.weights.as_slice() {
        let others = without(alloc, found.places.as_slice(), weight.0 / 2)?;
        match sum_of(alloc, coordinates, measures, row, others) {
            Ok(choice) => {
                if choice.weights.len() < found.weights.len() {
                    return Ok(choice);
                }
            }
            Err(Untold::NotFound) => {}
            Err(Untold::Memory) => return Err(Untold::Memory),
        }
    }
    Err(Untold::NotFound)
}

/// A sum is made shorter at most this many times.
const MOST_ROUNDS: u32 = 16;

/// A sum of `measures` equal to the part of `row` over sets. Measures are left out of it one by one as long as that makes it
/// shorter, at most `MOST_ROUNDS` times.
fn short_sum(alloc: Global, measures: &[Measure], row: &Row, space: Space) -> Result<Choice, Untold>
    requires { space.variables ≤ most_variables }
{
    let coordinates = used_coordinates(alloc, measures, row, space)?;
    let all: Vec<usize> = (0..measures.len()).collect(alloc)?;
    let mut best = sum_of(alloc, coordinates.as_slice(), measures, row, all)?;
    for _ in 0..MOST_ROUNDS {
        match shorter(alloc, coordinates.as_slice(), measures, row, &best) {
            Ok(choice) => best = choice,
            Err(Untold::NotFound) => return Ok(best),
            Err(Untold::Memory) => return Err(Untold::Memory),
        }
    }
    Ok(best)
}

/// The least common multiple of the denominators of `weights`; `NotFound` where it is too large.
pub fn common_multiple(alloc: Global, weights: &[(usize, Fraction)]) -> Result<i128, Untold> {
    let multiple = multiple_of_denominators(alloc, weights)?;
    multiple.ok_or(Untold::NotFound)
}

/// `number`, negated if `negative`; `NotFound` on overflow.
pub fn negated(number: i128, negative: bool) -> Result<i128, Untold> {
    let signed = if negative {
        0i128.checked_sub(number)
    } else {
        Some(number)
    };
    match signed {
        Some(signed) => Ok(signed),
        None => Err(Untold::NotFound),
    }
}

/// The term of the measure whose column is `weight.0`, `scale` times its weight; negated for a column that is a negation. The
/// weight's denominator divides `scale`.
fn weight_term(
    measures: &[Measure],
    places: &[usize],
    weight: &(usize, Fraction),
    scale: i128,
) -> Result<Term, Untold> {
    let column = weight.0;
    if column / 2 >= places.len() || places[column / 2] >= measures.len() {
        return Err(Untold::NotFound);
    }
    let number = signed_product(weight.1.num(), scale / weight.1.den())?;
    let times = negated(number, column % 2 == 1)?;
    term_of(times, measures[places[column / 2]].atom)
}

/// A sum of several of `measures` equal to the part of `row` over sets.
fn found_sum(alloc: Global, measures: &[Measure], row: &Row, space: Space) -> Result<Found, Untold>
    requires { space.variables ≤ most_variables }
{
    let choice = short_sum(alloc, measures, row, space)?;
    let scale = common_multiple(alloc, choice.weights.as_slice())?;
    let mut terms = Vec::new(alloc);
    for weight in choice.weights.as_slice() {
        terms.push(weight_term(measures, choice.places.as_slice(), weight, scale)?)?;
    }
    Ok(Found { scale, terms })
}

/// Whether `terms` is `times` times `others`.
fn is_multiple(terms: &[(u32, i128)], times: i128, others: &[(u32, i128)]) -> bool {
    if terms.len() != others.len() {
        return false;
    }
    for i in 0..terms.len() {
        if terms[i].0 != others[i].0 || signed_product(times, others[i].1) != Ok(terms[i].1) {
            return false;
        }
    }
    true
}

/// The factor that makes `terms` of `others`, the terms of a measure, of which the first one is 1 or -1; `NotFound` if there is
/// none.
fn multiple_of(terms: &[(u32, i128)], others: &[(u32, i128)]) -> Result<i128, Untold> {
    match (terms, others) {
        ([term, ..], [other, ..]) => {
            let times = negated(term.1, other.1 < 0)?;
            if is_multiple(terms, times, others) {
                Ok(times)
            } else {
                Err(Untold::NotFound)
            }
        }
        _ => Err(Untold::NotFound),
    }
}

/// The set whose number is `coordinate`.
fn set_at(coordinate: u32) -> VarSet {
    VarSet::from_number((coordinate % 65536) as u16)
}

/// The multiple of H(B|A) whose terms are `given`, at A, and `all`, at the union of A and B; `NotFound` if there is none.
fn conditional(given: (u32, i128), all: (u32, i128)) -> Result<Term, Untold> {
    let small = set_at(given.0);
    let large = set_at(all.0);
    if sum(given.1, all.1) != Ok(0) || !small.inside(large) {
        return Err(Untold::NotFound);
    }
    let of = large.minus(small);
    term_of(all.1, Atom::Entropy { of, given: small })
}

/// The multiple of I(A;B|C) whose terms are `first`, at the union of A and C, `second`, at that of B and C, and `all`, at that
/// of all three, where C is `given`; `NotFound` if there is none. The caller compares the coefficient at C.
fn mutual(
    given: VarSet,
    first: (u32, i128),
    second: (u32, i128),
    all: (u32, i128),
) -> Result<Term, Untold> {
    let one = set_at(first.0);
    let other = set_at(second.0);
    if first.1 != second.1 || sum(first.1, all.1) != Ok(0) {
        return Err(Untold::NotFound);
    }
    if one.union(other) != set_at(all.0) || one.meet(other) != given {
        return Err(Untold::NotFound);
    }
    let left = one.minus(given);
    let right = other.minus(given);
    term_of(first.1, Atom::Mutual { left, right, given })
}

/// The joint entropy of the set whose number is `coordinate`.
fn joint(coordinate: u32) -> Atom {
    Atom::Entropy {
        of: set_at(coordinate),
        given: VarSet::empty(),
    }
}

/// The multiple of an entropy or of a mutual information of any sets that has these terms, by ascending coordinate; `NotFound`
/// if there is none.
fn any_single(terms: &[(u32, i128)]) -> Result<Term, Untold> {
    match terms {
        [only] => term_of(only.1, joint(only.0)),
        [given, all] => conditional(*given, *all),
        [first, second, all] => mutual(VarSet::empty(), *first, *second, *all),
        [given, first, second, all] => {
            if given.1 == all.1 {
                mutual(set_at(given.0), *first, *second, *all)
            } else {
                Err(Untold::NotFound)
            }
        }
        _ => Err(Untold::NotFound),
    }
}

/// The multiple of one measure that has these terms: of one of `measures`, else of one of any sets.
fn single(measures: &[Measure], terms: &[(u32, i128)]) -> Result<Term, Untold> {
    for measure in measures {
        if let Ok(times) = multiple_of(terms, measure.row.terms()) {
            return term_of(times, measure.atom);
        }
    }
    any_single(terms)
}

/// The part of `row` over sets, as joint entropies.
pub fn joint_sum(alloc: Global, row: &Row, space: Space) -> Result<Found, Untold>
    requires { space.variables ≤ most_variables }
{
    let mut terms = Vec::new(alloc);
    for term in set_terms(row, space) {
        terms.push(term_of(term.1, joint(term.0))?)?;
    }
    Ok(Found { scale: 1, terms })
}

/// A sum equal to the part of `row` over sets: one of `measures`, the question's own, or one measure of any sets; else several
/// of `measures`.
pub fn own_sum(
    alloc: Global,
    measures: &[Measure],
    row: &Row,
    space: Space,
) -> Result<Found, Untold>
    requires { space.variables ≤ most_variables }
{
    let terms = set_terms(row, space);
    if terms.is_empty() {
        return joint_sum(alloc, row, space);
    }
    match single(measures, terms) {
        Ok(term) => Ok(Found {
            scale: 1,
            terms: Vec::from_slice(alloc, &[term])?,
        }),
        Err(_) => found_sum(alloc, measures, row, space),
    }
}
