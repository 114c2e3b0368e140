//! The lines of a containment's second region with sets substituted for its auxiliary variables. They are judged by their
//! texts, so no clause says it here.
ghost use Rattle.std.specs.Prelude.{◌≡◌, false};

use crate::constraints::{item_of, link, union_of};
use crate::untold::Untold;
use it_problems::Origin;
use it_question::types::{Question, Region, Verb};
use it_space::VarSet;
use it_syntax::types::{Atom, Expr, Given, Relation, Sign, Term};
use std::alloc::{AllocError, Global};

/// A substitution: the `common` variables of both regions stay, and the auxiliary variables of the second one, in order, become
/// `parts`.
#[derive(Clone, Copy)]
pub struct Substitution<'a> {
    pub common: u8,
    pub parts: &'a [VarSet],
}

/// Whether `set` has variable `number`; `false` from 16 on.
fn has(set: VarSet, number: usize) -> bool {
    number < 16 && set.has(number as u8)
}

/// `term` with `atom` in place of its own.
fn with_atom(term: &Term, atom: Atom) -> Term {
    Term { atom, ..*term }
}

/// `atom` as a term: once, with a plus.
pub fn once(atom: Atom) -> Term
    ensures { result ≡ record { negative = false; number = 1; denominator = 1; atom = atom } }
{
    Term {
        negative: false,
        number: 1,
        denominator: 1,
        atom,
    }
}

/// The mutual information of two sets given a third; where one of the two lies in the other its entropy, and None where one is
/// empty.
fn mutual(left: VarSet, right: VarSet, given: VarSet) -> Option<Atom> {
    if left == VarSet::empty() || right == VarSet::empty() {
        return None;
    }
    let of = left.meet(right);
    if of == left || of == right {
        return Some(Atom::Entropy { of, given });
    }
    Some(Atom::Mutual { left, right, given })
}

impl Substitution<'_> {
    /// The variables that stay.
    fn own(&self) -> VarSet {
        let mut own = VarSet::empty();
        for variable in 0..self.common.min(16) {
            own = own.union(VarSet::single(variable));
        }
        own
    }

    /// What a set of the second region stands for.
    fn set(&self, set: VarSet) -> VarSet {
        let mut all = set.meet(self.own());
        for (i, part) in self.parts.iter().enumerate() {
            if has(set, (self.common as usize).saturating_add(i)) {
                all = all.union(*part);
            }
        }
        all
    }

    /// An atom over what its sets stand for, each without what is given; None where nothing is left of it.
    fn atom(&self, atom: &Atom) -> Option<Atom> {
        match atom {
            Atom::Nothing => None,
            Atom::Rate(rate) => Some(Atom::Rate(*rate)),
            Atom::Entropy { of, given } => {
                let given = self.set(*given);
                let of = self.set(*of).minus(given);
                (of != VarSet::empty()).then_some(Atom::Entropy { of, given })
            }
            Atom::Mutual { left, right, given } => {
                let given = self.set(*given);
                let left = self.set(*left).minus(given);
                let right = self.set(*right).minus(given);
                mutual(left, right, given)
            }
        }
    }

    /// `terms` over what their sets stand for, without those of which nothing is left.
    fn side(&self, alloc: Global, terms: &[Term]) -> Result<Expr, AllocError> {
        let mut kept = Vec::new(alloc);
        for term in terms {
            if let Some(atom) = self.atom(&term.atom) {
                kept.push(with_atom(term, atom))?;
            }
        }
        Ok(Expr { terms: kept })
    }

    /// `relation` over what its sets stand for.
    fn relation(&self, alloc: Global, relation: &Relation) -> Result<Relation, AllocError> {
        Ok(Relation {
            left: self.side(alloc, relation.left.terms.as_slice())?,
            sign: relation.sign,
            right: self.side(alloc, relation.right.terms.as_slice())?,
        })
    }

    /// The equation of `left` and `right`, over what their sets stand for.
    fn equation(
        &self,
        alloc: Global,
        left: &[Term],
        right: &[Term],
    ) -> Result<Relation, AllocError> {
        Ok(Relation {
            left: self.side(alloc, left)?,
            sign: Sign::Equal,
            right: self.side(alloc, right)?,
        })
    }

    /// The equation that says `members` to be independent given `given`: the sum of their entropies is their joint entropy.
    fn independence(
        &self,
        alloc: Global,
        members: &[VarSet],
        given: VarSet,
    ) -> Result<Relation, AllocError> {
        let mut sum = Vec::new(alloc);
        for member in members {
            sum.push(once(Atom::Entropy { of: *member, given }))?;
        }
        let of = union_of(members);
        self.equation(alloc, sum.as_slice(), &[once(Atom::Entropy { of, given })])
    }

    /// What part `part` of `given` demands; parts are counted from 1.
    fn given(&self, alloc: Global, given: &Given, part: u16) -> Result<Relation, Untold> {
        match given {
            Given::Relation(relation) => Ok(self.relation(alloc, relation)?),
            Given::Markov(sets) => {
                let link = link(sets.as_slice(), part as usize)?;
                Ok(self.equation(alloc, &[once(link)], &[])?)
            }
            Given::Independent { members, given } => {
                Ok(self.independence(alloc, members.as_slice(), *given)?)
            }
            Given::Function { value, argument } => {
                let of = *value;
                let given = *argument;
                Ok(self.equation(alloc, &[once(Atom::Entropy { of, given })], &[])?)
            }
        }
    }

    /// What the line `origin` of `region` demands; the region's own lines are counted.
    fn demanded(&self, alloc: Global, region: &Region, origin: Origin) -> Result<Relation, Untold> {
        match origin {
            Origin::Given { line, part, .. } => {
                let given = item_of(region.lines().givens(), &[], line)?;
                self.given(alloc, given, part)
            }
            Origin::Rate { line } => {
                let relation = item_of(region.lines().rows(), &[], line)?;
                Ok(self.relation(alloc, relation)?)
            }
        }
    }
}

/// What the line `origin` of a containment's second region demands, with `parts` substituted for its auxiliary variables; the
/// region's own lines are counted.
pub fn substituted(
    alloc: Global,
    question: &Question,
    parts: &[VarSet],
    origin: Origin,
) -> Result<Relation, Untold> {
    let Verb::Contain { second, .. } = question.verb() else {
        return Err(Untold::NotFound);
    };
    let substitution = Substitution {
        common: question.space().variables,
        parts,
    };
    substitution.demanded(alloc, second, origin)
}
