//! Writes rows as sums over closed sets, in as few terms as it finds. What is found is judged by the text that it gives, so no
//! clause says it here.
ghost use Rattle.std.specs.Prelude.{◌≤◌};
ghost use Rattle.it_space.specs.Spaces.{most_variables};

use crate::closed::{ClosedTerm, Closures, size};
use crate::finding::{Found, negated, own_sum, term_of};
use crate::folding::{Notation, atom_of};
use crate::measures::{Measure, own_spelling};
use crate::row_judging::closed_row;
use crate::untold::Untold;
use it_closure::Dependences;
use it_fraction::sum;
use it_space::{Row, Space, VarSet};
use it_syntax::types::{Atom, Term};
use std::alloc::{AllocError, Global};

/// Sums of two terms are looked for where there are at most this many terms.
const MOST_TERMS: usize = 10_000;

/// Coefficients over closed sets, none of them 0, by ascending place.
struct Part {
    terms: Vec<(u32, i128)>,
}

impl Drop for Part {
    fn drop(self) {
        let Part { terms: _ } = self;
    }
}

/// How much a sum is to read: the number of its terms, of those that its author has nowhere, of those with a minus, and of the
/// names in them.
#[derive(Clone, Copy, PartialEq, Eq)]
pub struct Length {
    terms: usize,
    foreign: usize,
    negative: usize,
    names: u32,
}

impl Length {
    /// Whether there is less to read than in `other`: fewer terms; of as many terms fewer foreign ones, then fewer with a
    /// minus, then fewer names.
    pub fn is_less(&self, other: &Length) -> bool {
        if self.terms != other.terms {
            self.terms < other.terms
        } else if self.foreign != other.foreign {
            self.foreign < other.foreign
        } else if self.negative != other.negative {
            self.negative < other.negative
        } else {
            self.names < other.names
        }
    }
}

/// The number of names in an atom; a rate's isn't counted.
fn names_in(atom: &Atom) -> u32 {
    match atom {
        Atom::Nothing | Atom::Rate(_) => 0,
        Atom::Entropy { of, given } => size(*of).saturating_add(size(*given)),
        Atom::Mutual { left, right, given } => size(*left)
            .saturating_add(size(*right))
            .saturating_add(size(*given)),
    }
}

/// How much `terms` are to read.
pub fn length_of(measures: &[Measure], terms: &[Term]) -> Length {
    let mut length = Length {
        terms: terms.len(),
        foreign: 0,
        negative: 0,
        names: 0,
    };
    for term in terms {
        if own_spelling(measures, &term.atom).is_none() {
            length.foreign = length.foreign.saturating_add(1);
        }
        if term.negative {
            length.negative = length.negative.saturating_add(1);
        }
        length.names = length.names.saturating_add(names_in(&term.atom));
    }
    length
}

impl Part {
    /// Adds `number` at `place`; at place 0 nothing.
    fn add_at(&mut self, place: u32, number: i128) -> Result<(), Untold> {
        if place == 0 || number == 0 {
            return Ok(());
        }
        for i in 0..self.terms.len() {
            if self.terms[i].0 == place {
                let both = sum(self.terms[i].1, number)?;
                if both == 0 {
                    self.terms.remove(i);
                } else {
                    self.terms[i] = (place, both);
                }
                return Ok(());
            }
            if self.terms[i].0 > place {
                self.terms.insert(i, (place, number))?;
                return Ok(());
            }
        }
        self.terms.push((place, number))?;
        Ok(())
    }

    /// Adds `times` times `term`.
    fn add(&mut self, closures: &Closures, term: &ClosedTerm, times: i128) -> Result<(), Untold> {
        let opposite = negated(times, true)?;
        self.add_at(place_of(closures, term.first), times)?;
        self.add_at(place_of(closures, term.given), opposite)?;
        if term.first != term.second {
            let both = closures.close(term.first.union(term.second));
            self.add_at(place_of(closures, term.second), times)?;
            self.add_at(place_of(closures, both), opposite)?;
        }
        Ok(())
    }
}

/// The place of a set's closure.
fn place_of(closures: &Closures, set: VarSet) -> u32 {
    closures.place(set.number() as u32)
}

/// The coefficients of `row` at closed sets.
fn part_of(alloc: Global, closures: &Closures, row: &Row, space: Space) -> Result<Part, Untold>
    requires { space.variables ≤ most_variables }
{
    let mut part = Part {
        terms: Vec::new(alloc),
    };
    for term in row.terms() {
        if term.0 < 1u32 << space.variables {
            part.add_at(closures.place(term.0), term.1)?;
        }
    }
    Ok(part)
}

/// The set of a place.
fn set_at(place: u32) -> VarSet {
    VarSet::from_number((place % 65536) as u16)
}

/// `times` times H(P|C), where C is `given` and P is `all`; None if C isn't inside P, or is P.
fn conditional(
    closures: &Closures,
    given: VarSet,
    all: VarSet,
    times: i128,
) -> Option<(i128, ClosedTerm)> {
    if !given.inside(all) {
        return None;
    }
    let term = closures.mutual(all, all, given)?;
    Some((times, term))
}

/// The multiple of I(P;Q|C) with the coefficients `first`, at P, `second`, at Q, and `both`, at their union's closure, where C
/// is `given`; None if there is none. The caller compares the coefficient at C.
fn mutual(
    closures: &Closures,
    given: VarSet,
    first: (u32, i128),
    second: (u32, i128),
    both: (u32, i128),
) -> Option<(i128, ClosedTerm)> {
    let one = set_at(first.0);
    let other = set_at(second.0);
    if first.1 != second.1 || sum(first.1, both.1) != Ok(0) {
        return None;
    }
    if closures.close(one.union(other)) != set_at(both.0) || !given.inside(one.meet(other)) {
        return None;
    }
    let term = closures.mutual(one, other, given)?;
    Some((first.1, term))
}

/// The multiple of one term over closed sets that has these coefficients; None if there is none. A set inside others has a
/// lower number than they.
fn single(closures: &Closures, terms: &[(u32, i128)]) -> Option<(i128, ClosedTerm)> {
    let least = closures.close(VarSet::empty());
    match terms {
        [only] => conditional(closures, least, set_at(only.0), only.1),
        [given, all] => {
            if sum(given.1, all.1) != Ok(0) {
                return None;
            }
            conditional(closures, set_at(given.0), set_at(all.0), all.1)
        }
        [first, second, both] => mutual(closures, least, *first, *second, *both),
        [given, first, second, both] => {
            if given.1 != both.1 {
                return None;
            }
            mutual(closures, set_at(given.0), *first, *second, *both)
        }
        _ => None,
    }
}

/// `times` times `term`, as a term to write.
fn written(
    closures: &Closures,
    measures: &[Measure],
    times: i128,
    term: &ClosedTerm,
) -> Result<Term, Untold> {
    term_of(times, atom_of(closures, measures, term))
}

/// The closed sets of `variables` variables, by number.
fn closed_sets(alloc: Global, closures: &Closures, variables: u8) -> Result<Vec<VarSet>, AllocError>
    requires { variables ≤ most_variables }
{
    let mut sets = Vec::new(alloc);
    for number in 0..1u32 << variables {
        let set = VarSet::from_number(number as u16);
        if closures.close(set) == set {
            sets.push(set)?;
        }
    }
    Ok(sets)
}

/// Appends the terms of two closed sets: one for each closed set inside both. `NotFound` where they become too many.
fn put_terms(
    terms: &mut Vec<ClosedTerm>,
    closures: &Closures,
    sets: &[VarSet],
    first: VarSet,
    second: VarSet,
) -> Result<(), Untold> {
    for given in sets {
        if given.inside(first.meet(second)) {
            if terms.len() >= MOST_TERMS {
                return Err(Untold::NotFound);
            }
            if let Some(term) = closures.mutual(first, second, *given) {
                terms.push(term)?;
            }
        }
    }
    Ok(())
}

/// All terms over closed sets of `variables` variables: entropies, and mutual informations of two sets of which neither holds
/// the other.
pub fn closed_terms(
    alloc: Global,
    closures: &Closures,
    variables: u8,
) -> Result<Vec<ClosedTerm>, Untold>
    requires { variables ≤ most_variables }
{
    let sets = closed_sets(alloc, closures, variables)?;
    let sets = sets.as_slice();
    let mut terms = Vec::new(alloc);
    for first in sets {
        for second in sets {
            let is_apart = !first.inside(*second) && !second.inside(*first);
            if first == second || first.number() < second.number() && is_apart {
                put_terms(&mut terms, closures, sets, *first, *second)?;
            }
        }
    }
    Ok(terms)
}

/// The least absolute value of a coefficient.
fn least_number(terms: &[(u32, i128)]) -> Result<i128, Untold> {
    let mut least = i128::MAX;
    for term in terms {
        least = least.min(negated(term.1, term.1 < 0)?);
    }
    Ok(least)
}

/// Two terms whose sum is `part`: `times` times `first`, and the rest, where that is a multiple of one term; else None.
fn pair_with(
    alloc: Global,
    closures: &Closures,
    measures: &[Measure],
    part: &Part,
    first: &ClosedTerm,
    times: i128,
) -> Result<Option<Vec<Term>>, Untold> {
    let mut rest = Part {
        terms: Vec::from_slice(alloc, part.terms.as_slice())?,
    };
    rest.add(closures, first, negated(times, true)?)?;
    let Some((more, second)) = single(closures, rest.terms.as_slice()) else {
        return Ok(None);
    };
    let mut terms = Vec::new(alloc);
    terms.push(written(closures, measures, times, first)?)?;
    terms.push(written(closures, measures, more, &second)?)?;
    Ok(Some(terms))
}

/// The one of two sums with less to read, `best` if they are alike.
fn less_to_read(
    measures: &[Measure],
    best: Option<Vec<Term>>,
    other: Option<Vec<Term>>,
) -> Option<Vec<Term>> {
    match (best, other) {
        (Some(best), Some(other)) => {
            let is_less = length_of(measures, other.as_slice()).is_less(&length_of(
                measures,
                best.as_slice(),
            ));
            Some(if is_less { other } else { best })
        }
        (None, other) => other,
        (best, None) => best,
    }
}

/// Two terms whose sum is `part`, with the least to read; None if there are none. The first one has the least absolute value of
/// a coefficient as its number, with a plus or a minus.
fn pair_sum(
    alloc: Global,
    closures: &Closures,
    measures: &[Measure],
    terms: &[ClosedTerm],
    part: &Part,
) -> Result<Option<Vec<Term>>, Untold> {
    let times = least_number(part.terms.as_slice())?;
    let opposite = negated(times, true)?;
    let mut best = None;
    for first in terms {
        let plus = pair_with(alloc, closures, measures, part, first, times)?;
        best = less_to_read(measures, best, plus);
        let minus = pair_with(alloc, closures, measures, part, first, opposite)?;
        best = less_to_read(measures, best, minus);
    }
    Ok(best)
}

/// `row` over closed sets; `NotFound` where `closed_row` gives None.
fn closed_or_not(alloc: Global, functions: &Dependences, row: &Row) -> Result<Row, Untold> {
    match closed_row(alloc, functions, row)? {
        Some(row) => Ok(row),
        None => Err(Untold::NotFound),
    }
}

/// The question's measures over closed sets.
fn closed_measures(
    alloc: Global,
    functions: &Dependences,
    measures: &[Measure],
) -> Result<Vec<Measure>, Untold> {
    let mut closed = Vec::new(alloc);
    for measure in measures {
        let row = closed_or_not(alloc, functions, &measure.row)?;
        closed.push(Measure {
            atom: measure.atom,
            spelling: Vec::from_slice(alloc, measure.spelling.as_slice())?,
            row,
        })?;
    }
    Ok(closed)
}

/// The part of `row` over sets as a sum of few terms over closed sets: of one term, else of two, the first of them one of
/// `terms`, else of several of the question's own.
pub fn closed_sum(
    alloc: Global,
    functions: &Dependences,
    notation: &Notation<'_>,
    terms: &[ClosedTerm],
    row: &Row,
    space: Space,
) -> Result<Found, Untold>
    requires { space.variables ≤ most_variables }
{
    let part = part_of(alloc, notation.closures, row, space)?;
    if part.terms.is_empty() {
        return Ok(Found {
            scale: 1,
            terms: Vec::new(alloc),
        });
    }
    if let Some((times, term)) = single(notation.closures, part.terms.as_slice()) {
        let only = written(notation.closures, notation.measures, times, &term)?;
        return Ok(Found {
            scale: 1,
            terms: Vec::from_slice(alloc, &[only])?,
        });
    }
    if let Some(terms) = pair_sum(alloc, notation.closures, notation.measures, terms, &part)? {
        return Ok(Found { scale: 1, terms });
    }
    let closed = closed_measures(alloc, functions, notation.measures)?;
    let row = closed_or_not(alloc, functions, row)?;
    own_sum(alloc, closed.as_slice(), &row, space)
}
