//! Multiples of relations and of a question's constraints, in the terms of their lines. They are judged by the equation in
//! which they stand.
use crate::finding::negated;
use crate::untold::Untold;
use it_fraction::lcm;
use it_problems::Origin;
use it_question::types::{Question, Verb};
use it_space::VarSet;
use it_syntax::types::{Atom, Given, Relation, Sign, Term};

/// The least common multiple of a number and a denominator.
fn with_denominator(multiple: u64, denominator: u64) -> Result<u64, Untold> {
    if multiple == 0 || denominator == 0 {
        return Err(Untold::NotFound);
    }
    let both = lcm(multiple as i128, denominator as i128)?;
    Ok(u64::try_from(both)?)
}

/// The least common multiple of a number and the denominators of terms.
fn with_denominators(multiple: u64, terms: &[Term]) -> Result<u64, Untold> {
    let mut multiple = multiple;
    for term in terms {
        multiple = with_denominator(multiple, term.denominator)?;
    }
    Ok(multiple)
}

/// Appends `times` times `multiple` times `term`, unless that is 0. The denominator of `term` divides `multiple`.
fn put_times(out: &mut Vec<Term>, term: &Term, multiple: u64, times: i128) -> Result<(), Untold> {
    if term.denominator == 0 {
        return Err(Untold::NotFound);
    }
    let often = u64::try_from(times.unsigned_abs())?;
    let parts = multiple / term.denominator;
    let whole = term.number.checked_mul(parts).ok_or(Untold::NotFound)?;
    let number = whole.checked_mul(often).ok_or(Untold::NotFound)?;
    if number != 0 {
        out.push(Term {
            negative: term.negative != (times < 0),
            number,
            denominator: 1,
            atom: term.atom,
        })?;
    }
    Ok(())
}

/// Appends `times` times `multiple` times each of `terms`, without those that are 0; their denominators divide `multiple`.
pub fn put_side(
    out: &mut Vec<Term>,
    terms: &[Term],
    multiple: u64,
    times: i128,
) -> Result<(), Untold> {
    for term in terms {
        put_times(out, term, multiple, times)?;
    }
    Ok(())
}

/// Appends `times` times the form that `relation` says to be at least 0, or to be 0: its left side less its right one, negated
/// for `<=`, times the least common multiple of its denominators. The side with a plus comes first.
pub fn put_relation(out: &mut Vec<Term>, relation: &Relation, times: i128) -> Result<(), Untold> {
    let left = relation.left.terms.as_slice();
    let right = relation.right.terms.as_slice();
    let multiple = with_denominators(with_denominators(1, left)?, right)?;
    let signed = negated(times, relation.sign == Sign::AtMost)?;
    let opposite = negated(signed, true)?;
    if signed < 0 {
        put_side(out, right, multiple, opposite)?;
        put_side(out, left, multiple, signed)
    } else {
        put_side(out, left, multiple, signed)?;
        put_side(out, right, multiple, opposite)
    }
}

/// Appends `times` times `atom`.
fn put_atom(out: &mut Vec<Term>, atom: Atom, times: i128) -> Result<(), Untold> {
    let term = Term {
        negative: false,
        number: 1,
        denominator: 1,
        atom,
    };
    put_times(out, &term, 1, times)
}

/// The union of some sets.
pub fn union_of(sets: &[VarSet]) -> VarSet {
    let mut union = VarSet::empty();
    for set in sets {
        union = union.union(*set);
    }
    union
}

/// The mutual information that a Markov chain says to be 0 at its member `at`, counted from 0: of the union of those before it
/// and the one after it, given it.
pub fn link(sets: &[VarSet], at: usize) -> Result<Atom, Untold> {
    if at >= sets.len() || sets.len() - at < 2 {
        return Err(Untold::NotFound);
    }
    Ok(Atom::Mutual {
        left: union_of(&sets[..at]),
        right: sets[at + 1],
        given: sets[at],
    })
}

/// Appends `times` times the entropies of `members` less their joint entropy, each given `given`.
fn put_independence(
    out: &mut Vec<Term>,
    members: &[VarSet],
    given: VarSet,
    times: i128,
) -> Result<(), Untold> {
    for member in members {
        put_atom(out, Atom::Entropy { of: *member, given }, times)?;
    }
    let of = union_of(members);
    put_atom(out, Atom::Entropy { of, given }, negated(times, true)?)
}

/// Appends `times` times the form that part `part` of `given` demands to be at least 0, or to be 0; parts are counted from 1.
fn put_given(out: &mut Vec<Term>, given: &Given, part: u16, times: i128) -> Result<(), Untold> {
    match given {
        Given::Relation(relation) => put_relation(out, relation, times),
        Given::Markov(sets) => put_atom(out, link(sets.as_slice(), part as usize)?, times),
        Given::Independent { members, given } => {
            put_independence(out, members.as_slice(), *given, times)
        }
        Given::Function { value, argument } => {
            let of = *value;
            let given = *argument;
            put_atom(out, Atom::Entropy { of, given }, times)
        }
    }
}

/// Item `number`, counted from 1, of `own` followed by `more`.
pub fn item_of<'a, T>(own: &'a [T], more: &'a [T], number: u16) -> Result<&'a T, Untold> {
    if number == 0 {
        return Err(Untold::NotFound);
    }
    let at = number as usize - 1;
    if at < own.len() {
        return Ok(&own[at]);
    }
    if at - own.len() < more.len() {
        return Ok(&more[at - own.len()]);
    }
    Err(Untold::NotFound)
}

/// The `given` lines of the first region of a question, if it has one.
fn region_givens(question: &Question) -> &[Given] {
    match question.verb() {
        Verb::Contain { first, .. } => first.lines().givens(),
        _ => &[],
    }
}

/// The `row` lines of the first region of a question, if it has one.
fn region_rows(question: &Question) -> &[Relation] {
    match question.verb() {
        Verb::Contain { first, .. } => first.lines().rows(),
        _ => &[],
    }
}

/// Appends `times` times the form that the line of `origin` demands to be at least 0, or to be 0. Lines are counted over the
/// question's own ones and then those of its first region.
pub fn put_constraint(
    out: &mut Vec<Term>,
    question: &Question,
    origin: Origin,
    times: i128,
) -> Result<(), Untold> {
    match origin {
        Origin::Given { line, part, .. } => {
            let own = question.lines().givens();
            put_given(
                out,
                item_of(own, region_givens(question), line)?,
                part,
                times,
            )
        }
        Origin::Rate { line } => {
            let own = question.lines().rows();
            put_relation(out, item_of(own, region_rows(question), line)?, times)
        }
    }
}
