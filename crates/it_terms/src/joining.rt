//! Sums of entropies and mutual informations, joined by the chain rules (Cover and Thomas, "Elements of Information
//! Theory"). What is joined is judged by the equation that it gives.
use it_space::VarSet;
use it_syntax::types::{Atom, Term};
use std::alloc::{AllocError, Global};

/// I(`one`;`other`|`given`), the set with the smaller number first.
fn mutual(one: VarSet, other: VarSet, given: VarSet) -> Atom {
    if one.number() <= other.number() {
        Atom::Mutual {
            left: one,
            right: other,
            given,
        }
    } else {
        Atom::Mutual {
            left: other,
            right: one,
            given,
        }
    }
}

/// The sum of I(A;B|C) and `second`, an atom given B and C, by a chain rule for the side A; None where none applies. The rules:
/// I(A;B|C) + I(A;D|B,C) = I(A;B,D|C), where D has none of the variables before;
/// I(A;B|C) + H(A|B,C) = H(A|C).
fn joined_side(a: VarSet, b: VarSet, c: VarSet, second: &Atom) -> Option<Atom> {
    let before = b.union(c);
    match second {
        Atom::Mutual { left, right, given } if *given == before => {
            let all = a.union(before);
            if *left == a && right.meet(all) == VarSet::empty() {
                Some(mutual(a, b.union(*right), c))
            } else if *right == a && left.meet(all) == VarSet::empty() {
                Some(mutual(a, b.union(*left), c))
            } else {
                None
            }
        }
        Atom::Entropy { of, given } if *of == a && *given == before => {
            Some(Atom::Entropy { of: a, given: c })
        }
        _ => None,
    }
}

/// The sum of H(A|C) and `second` by the chain rule H(A|C) + H(B|A,C) = H(A,B|C); None where it doesn't apply.
fn joined_entropy(a: VarSet, c: VarSet, second: &Atom) -> Option<Atom> {
    match second {
        Atom::Entropy { of, given } => {
            if *given == a.union(c) && of.meet(*given) == VarSet::empty() {
                let of = a.union(*of);
                Some(Atom::Entropy { of, given: c })
            } else {
                None
            }
        }
        _ => None,
    }
}

/// The sum of two atoms as one atom, by a chain rule in which `second` is given more; None where none applies.
fn joined(first: &Atom, second: &Atom) -> Option<Atom> {
    match first {
        Atom::Mutual { left, right, given } => {
            match joined_side(*left, *right, *given, second) {
                Some(atom) => Some(atom),
                None => joined_side(*right, *left, *given, second),
            }
        }
        Atom::Entropy { of, given } => joined_entropy(*of, *given, second),
        _ => None,
    }
}

/// Two terms by their indexes, how many copies both have, and the atom that is the sum of theirs.
#[derive(Clone, Copy)]
struct Pair {
    first: usize,
    second: usize,
    times: u64,
    atom: Atom,
}

/// The first pair of terms that a chain rule joins.
fn first_pair(terms: &[Term]) -> Option<Pair> {
    for first in 0..terms.len() {
        for second in 0..terms.len() {
            if first != second {
                if let Some(atom) = joined(&terms[first].atom, &terms[second].atom) {
                    let times = terms[first].number.min(terms[second].number);
                    return Some(Pair {
                        first,
                        second,
                        times,
                        atom,
                    });
                }
            }
        }
    }
    None
}

/// `number` times `atom`, with a plus.
fn plus(number: u64, atom: Atom) -> Term {
    Term {
        negative: false,
        number,
        denominator: 1,
        atom,
    }
}

/// Adds `number` times `atom`, with a plus: to the term with a plus of this atom, else at the end; nothing if `number` is 0.
pub fn add_term(terms: &mut Vec<Term>, number: u64, atom: Atom) -> Result<(), AllocError> {
    if number == 0 {
        return Ok(());
    }
    for i in 0..terms.len() {
        if terms[i].atom == atom && !terms[i].negative {
            if let Some(sum) = terms[i].number.checked_add(number) {
                terms[i] = plus(sum, atom);
                return Ok(());
            }
        }
    }
    terms.push(plus(number, atom))?;
    Ok(())
}

/// `terms` with as many copies of `pair` joined as both of its terms have; the joined term comes in the place of the first one.
fn with_pair(alloc: Global, terms: &[Term], pair: &Pair) -> Result<Vec<Term>, AllocError> {
    let mut others = Vec::new(alloc);
    for (i, term) in terms.iter().enumerate() {
        if i == pair.first {
            add_term(&mut others, pair.times, pair.atom)?;
        }
        let taken = if i == pair.first || i == pair.second {
            pair.times
        } else {
            0
        };
        add_term(&mut others, term.number.saturating_sub(taken), term.atom)?;
    }
    Ok(others)
}

/// At most this many pairs are joined.
const MOST_JOINED: u32 = 4096;

/// `terms`, which have a plus and are over sets, with pairs joined until no chain rule applies, or until `MOST_JOINED` are
/// joined.
pub fn joined_terms(alloc: Global, terms: &[Term]) -> Result<Vec<Term>, AllocError> {
    let mut joined = Vec::from_slice(alloc, terms)?;
    for _ in 0..MOST_JOINED {
        match first_pair(joined.as_slice()) {
            Some(pair) => joined = with_pair(alloc, joined.as_slice(), &pair)?,
            None => return Ok(joined),
        }
    }
    Ok(joined)
}
