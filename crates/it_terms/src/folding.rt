//! Sums over closed sets: terms that functions make 0 are left out, and the others are joined by the chain rules. The sums are
//! judged by the equations that they give.
use crate::closed::{ClosedTerm, Closures, size};
use crate::measures::Measure;
use crate::untold::Untold;
use it_fraction::sum;
use it_syntax::types::{Atom, Term};
use std::alloc::{AllocError, Global};

/// How terms over closed sets are written: as the first of the question's own measures that they are, else with few names.
#[derive(Drop)]
pub struct Notation<'a> {
    pub closures: &'a Closures,
    pub measures: &'a [Measure],
}

/// `times` copies of a term over closed sets.
#[derive(Clone, Copy)]
struct Summand {
    times: u64,
    term: ClosedTerm,
}

/// Two summands by their indexes, and the term that is the sum of theirs.
#[derive(Clone, Copy)]
struct Pair {
    first: usize,
    second: usize,
    term: ClosedTerm,
}

/// Adds `times` copies of `term`: to the summand of this term, else at the end. `NotFound` on overflow.
fn add(summands: &mut Vec<Summand>, times: u64, term: ClosedTerm) -> Result<(), Untold> {
    for i in 0..summands.len() {
        if summands[i].term == term {
            let times = summands[i]
                .times
                .checked_add(times)
                .ok_or(Untold::NotFound)?;
            summands[i] = Summand { times, term };
            return Ok(());
        }
    }
    summands.push(Summand { times, term })?;
    Ok(())
}

/// The first pair of summands that a chain rule joins.
fn first_pair(closures: &Closures, summands: &[Summand]) -> Option<Pair> {
    for first in 0..summands.len() {
        for second in 0..summands.len() {
            if first != second {
                if let Some(term) = closures.joined(&summands[first].term, &summands[second].term) {
                    return Some(Pair {
                        first,
                        second,
                        term,
                    });
                }
            }
        }
    }
    None
}

/// The summands with as many copies of `pair` joined as both of its terms have; the joined term is added last.
fn with_pair(alloc: Global, summands: &[Summand], pair: &Pair) -> Result<Vec<Summand>, Untold> {
    if pair.first >= summands.len() || pair.second >= summands.len() {
        return Err(Untold::NotFound);
    }
    let joined = summands[pair.first].times.min(summands[pair.second].times);
    let mut others = Vec::new(alloc);
    for (i, summand) in summands.iter().enumerate() {
        let taken = if i == pair.first || i == pair.second {
            joined
        } else {
            0
        };
        let times = summand.times.saturating_sub(taken);
        if times != 0 {
            add(&mut others, times, summand.term)?;
        }
    }
    add(&mut others, joined, pair.term)?;
    Ok(others)
}

/// At most this many pairs are joined.
const MOST_JOINED: u32 = 4096;

/// The summands with pairs joined until no chain rule applies, or until `MOST_JOINED` are joined.
fn joined(
    alloc: Global,
    closures: &Closures,
    summands: Vec<Summand>,
) -> Result<Vec<Summand>, Untold> {
    let mut joined = summands;
    for _ in 0..MOST_JOINED {
        match first_pair(closures, joined.as_slice()) {
            Some(pair) => joined = with_pair(alloc, joined.as_slice(), &pair)?,
            None => return Ok(joined),
        }
    }
    Ok(joined)
}

/// Whether `term` is written before `other`: the one with fewer variables in `given` first, then by the numbers of `given`,
/// `first` and `second`.
fn stands_before(term: &ClosedTerm, other: &ClosedTerm) -> bool {
    if term.given != other.given {
        let few = size(term.given);
        let many = size(other.given);
        few < many || few == many && term.given.number() < other.given.number()
    } else if term.first != other.first {
        term.first.number() < other.first.number()
    } else {
        term.second.number() < other.second.number()
    }
}

/// Inserts `summand` before the first one that `stands_before` puts after it.
fn put_in_order(summands: &mut Vec<Summand>, summand: Summand) -> Result<(), AllocError> {
    for i in 0..summands.len() {
        if stands_before(&summand.term, &summands[i].term) {
            summands.insert(i, summand)?;
            return Ok(());
        }
    }
    summands.push(summand)?;
    Ok(())
}

/// `term` as an atom: the first of `measures` that is this term over closed sets, else one of few names.
pub fn atom_of(closures: &Closures, measures: &[Measure], term: &ClosedTerm) -> Atom {
    for measure in measures {
        if closures.fold(&measure.atom) == Some(*term) {
            return measure.atom;
        }
    }
    closures.short_atom(term)
}

/// `summand` as a term to write.
fn written(closures: &Closures, measures: &[Measure], summand: &Summand) -> Term {
    Term {
        negative: false,
        number: summand.times,
        denominator: 1,
        atom: atom_of(closures, measures, &summand.term),
    }
}

/// `summands` in the order of `stands_before`, as terms to write.
fn in_order(
    alloc: Global,
    closures: &Closures,
    measures: &[Measure],
    summands: &[Summand],
) -> Result<Vec<Term>, AllocError> {
    let mut sorted = Vec::new(alloc);
    for summand in summands {
        put_in_order(&mut sorted, *summand)?;
    }
    let mut terms = Vec::new(alloc);
    for summand in sorted.as_slice() {
        terms.push(written(closures, measures, summand))?;
    }
    Ok(terms)
}

/// `terms`, which have a plus and are over sets, as terms over closed sets: joined, in order, and with few names.
pub fn folded_terms(
    alloc: Global,
    notation: &Notation<'_>,
    terms: &[Term],
) -> Result<Vec<Term>, Untold> {
    let mut summands = Vec::new(alloc);
    for term in terms {
        if let Some(closed) = notation.closures.fold(&term.atom) {
            add(&mut summands, term.number, closed)?;
        }
    }
    let summands = joined(alloc, notation.closures, summands)?;
    Ok(in_order(
        alloc,
        notation.closures,
        notation.measures,
        summands.as_slice(),
    )?)
}

/// The sum of the coefficients of `terms` at coordinates whose place over closed sets is `place`.
fn sum_at(closures: &Closures, terms: &[(u32, i128)], place: u32) -> Result<i128, Untold> {
    let mut total: i128 = 0;
    for term in terms {
        if closures.place(term.0) == place {
            total = sum(total, term.1)?;
        }
    }
    Ok(total)
}

/// Whether the row of `terms` is 0 over closed sets.
pub fn vanishes(closures: &Closures, terms: &[(u32, i128)]) -> Result<bool, Untold> {
    for term in terms {
        let place = closures.place(term.0);
        if place != 0 && sum_at(closures, terms, place)? != 0 {
            return Ok(false);
        }
    }
    Ok(true)
}
