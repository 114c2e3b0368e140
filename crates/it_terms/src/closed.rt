//! Sets that are closed under a question's functions, and terms over them. The results are judged by the equations that they
//! give.
ghost use Rattle.std.specs.Prelude.{◌≤◌};
ghost use Rattle.it_space.specs.Spaces.{most_variables};

use it_closure::Dependences;
use it_space::VarSet;
use it_syntax::types::Atom;
use std::alloc::{AllocError, Global};

/// The closures of all sets of some variables, by the sets' numbers, and these sets by the number of their members.
pub struct Closures {
    table: Vec<VarSet>,
    by_size: Vec<VarSet>,
}

impl Drop for Closures {
    fn drop(self) {
        let Closures {
            table: _,
            by_size: _,
        } = self;
    }
}

/// I(P;Q|C) of closed sets, where C lies inside P and Q; H(P|C) where P and Q are equal.
#[derive(Clone, Copy, PartialEq, Eq)]
pub struct ClosedTerm {
    pub first: VarSet,
    pub second: VarSet,
    pub given: VarSet,
}

impl ClosedTerm {
    /// The term as an atom with the closed sets themselves.
    pub fn atom(&self) -> Atom {
        if self.first == self.second {
            return Atom::Entropy {
                of: self.first,
                given: self.given,
            };
        }
        Atom::Mutual {
            left: self.first,
            right: self.second,
            given: self.given,
        }
    }
}

/// Appends the terms H(P|C), and I(P;Q|C) of sets of which neither lies in the other, of the sets P and Q in `above`, where C
/// is `given`; stops once there are more than `most`.
fn put_terms(
    terms: &mut Vec<ClosedTerm>,
    above: &[VarSet],
    given: VarSet,
    most: usize,
) -> Result<(), AllocError> {
    for (i, first) in above.iter().enumerate() {
        for second in &above[i..] {
            let is_pair = !first.inside(*second) && !second.inside(*first);
            if terms.len() <= most && (is_pair || first == second) {
                terms.push(ClosedTerm {
                    first: *first,
                    second: *second,
                    given,
                })?;
            }
        }
    }
    Ok(())
}

/// The number of members of a set.
pub fn size(set: VarSet) -> u32 {
    set.number().count_ones()
}

/// The sets of `variables` variables, those of fewer members first.
fn sets_by_size(alloc: Global, variables: u8) -> Result<Vec<VarSet>, AllocError>
    requires { variables ≤ most_variables }
{
    let mut sets = Vec::new(alloc);
    for members in 0..variables as u32 + 1 {
        for number in 0..1u32 << variables {
            let set = VarSet::from_number(number as u16);
            if size(set) == members {
                sets.push(set)?;
            }
        }
    }
    Ok(sets)
}

/// The closures of the sets of `variables` variables.
pub fn closures_of(
    alloc: Global,
    dependences: &Dependences,
    variables: u8,
) -> Result<Closures, AllocError>
    requires { variables ≤ most_variables }
{
    let mut table = Vec::new(alloc);
    for number in 0..1u32 << variables {
        table.push(dependences.close(VarSet::from_number(number as u16)))?;
    }
    let by_size = sets_by_size(alloc, variables)?;
    Ok(Closures { table, by_size })
}

impl Closures {
    /// The closure of `set`; `set` itself if it isn't in the table.
    pub fn close(&self, set: VarSet) -> VarSet {
        let at = set.number() as usize;
        if at < self.table.len() {
            self.table[at]
        } else {
            set
        }
    }

    /// All sets, those of fewer members first.
    pub fn sets(&self) -> &[VarSet] {
        self.by_size.as_slice()
    }

    /// A set of fewest members inside `closed`, apart from `given`, whose union with `given` has the closure `closed`.
    pub fn fewest(&self, closed: VarSet, given: VarSet) -> VarSet {
        for set in self.by_size.as_slice() {
            let apart = set.meet(given) == VarSet::empty();
            if apart && set.inside(closed) && self.close(set.union(given)) == closed {
                return *set;
            }
        }
        closed.minus(given)
    }

    /// The closed sets that contain `set` and aren't `set`, those of fewer members first.
    fn above(&self, alloc: Global, set: VarSet) -> Result<Vec<VarSet>, AllocError> {
        let mut above = Vec::new(alloc);
        for other in self.by_size.as_slice() {
            if set.inside(*other) && *other != set && self.close(*other) == *other {
                above.push(*other)?;
            }
        }
        Ok(above)
    }

    /// All terms over closed sets, those with fewer members given first; None if there are more than `most`.
    pub fn terms(&self, alloc: Global, most: usize) -> Result<Option<Vec<ClosedTerm>>, AllocError> {
        let mut terms = Vec::new(alloc);
        for set in self.by_size.as_slice() {
            if self.close(*set) == *set {
                let above = self.above(alloc, *set)?;
                put_terms(&mut terms, above.as_slice(), *set, most)?;
            }
            if terms.len() > most {
                return Ok(None);
            }
        }
        Ok(Some(terms))
    }

    /// I(P;Q|C) of closed sets, None where it is 0.
    pub fn mutual(&self, first: VarSet, second: VarSet, given: VarSet) -> Option<ClosedTerm> {
        if first == given || second == given {
            return None;
        }
        let (first, second) = if first.inside(second) {
            (first, first)
        } else if second.inside(first) {
            (second, second)
        } else if first.number() < second.number() {
            (first, second)
        } else {
            (second, first)
        };
        Some(ClosedTerm {
            first,
            second,
            given,
        })
    }

    /// An entropy or a mutual information over closed sets, None where it is 0.
    pub fn fold(&self, atom: &Atom) -> Option<ClosedTerm> {
        match atom {
            Atom::Entropy { of, given } => {
                let all = self.close(of.union(*given));
                self.mutual(all, all, self.close(*given))
            }
            Atom::Mutual { left, right, given } => self.mutual(
                self.close(left.union(*given)),
                self.close(right.union(*given)),
                self.close(*given),
            ),
            _ => None,
        }
    }

    /// The sum of I(A;B|C) and `second` by the chain rule I(A;B|C) + I(A,B;S|B) = I(A;S|C) for the side A, where C is `given`;
    /// None where it doesn't apply.
    fn joined_side(
        &self,
        a: VarSet,
        b: VarSet,
        given: VarSet,
        second: &ClosedTerm,
    ) -> Option<ClosedTerm> {
        if second.given != b {
            return None;
        }
        let both = self.close(a.union(b));
        if second.first == both {
            self.mutual(a, second.second, given)
        } else if second.second == both {
            self.mutual(a, second.first, given)
        } else {
            None
        }
    }

    /// The sum of two terms by one chain rule, in which `second` is given more, for entropies H(P|C) + H(S|P) = H(S|C); None
    /// where none applies.
    pub fn joined(&self, first: &ClosedTerm, second: &ClosedTerm) -> Option<ClosedTerm> {
        if first.first == first.second {
            let goes_on = second.first == second.second && second.given == first.first;
            return if goes_on {
                self.mutual(second.first, second.first, first.given)
            } else {
                None
            };
        }
        match self.joined_side(first.first, first.second, first.given, second) {
            Some(term) => Some(term),
            None => self.joined_side(first.second, first.first, first.given, second),
        }
    }

    /// `term` as an atom of few names.
    pub fn short_atom(&self, term: &ClosedTerm) -> Atom {
        let given = self.fewest(term.given, VarSet::empty());
        let left = self.fewest(term.first, given);
        if term.first == term.second {
            return Atom::Entropy { of: left, given };
        }
        let right = self.fewest(term.second, given);
        if left.number() <= right.number() {
            Atom::Mutual { left, right, given }
        } else {
            Atom::Mutual {
                left: right,
                right: left,
                given,
            }
        }
    }

    /// The place of `coordinate`: of a set the number of its closure, 0 where that is the closure of the empty set; of a rate
    /// its own.
    pub fn place(&self, coordinate: u32) -> u32 {
        let at = coordinate as usize;
        if at >= self.table.len() {
            return coordinate;
        }
        let closed = self.table[at];
        if closed == self.close(VarSet::empty()) {
            0
        } else {
            closed.number() as u32
        }
    }
}
