//! Equations that independences imply.
//!
//! Where I(A;B|C) = 0, also I(A;K|C) = 0 for each set K between C and B. The negation of I(A;K|C) is that of I(A;B|C), a constraint, and
//! h(B) + h(A,K) - h(A,B) - h(K), which is an inequality. So a run can do without the column of I(A;K|C) <= 0; but questions about
//! copies of variables, which have very many such sets K, take much fewer steps with these columns.

use crate::closures::Closures;
use it_elemental::count;
use it_orbits::Submodular;
use it_problems::{Constraint, Kind, Problem};
use it_space::VarSet;
use std::alloc::{AllocError, Global};

/// A constraint that says I(left;right|given) = 0, by closed sets, of which `given` is in both of the others.
#[derive(Clone, Copy)]
pub struct Independence {
    left: VarSet,
    right: VarSet,
    given: VarSet,
    /// The number of the constraint among the generators of the problem.
    pub generator: u32,
    /// Whether the constraint's row is I(left;right|given) and not its negation.
    pub negated: bool,
}

/// A part I(left;set|given) of an independence, and the inequality that makes its negation of the constraint.
#[derive(Clone, Copy)]
pub struct Part {
    pub mutual: Submodular,
    pub rest: Submodular,
}

/// The set at a term of a row, if the term's number is `sign`; `None` at another number, or past the last set.
fn set_at(term: Option<&(u32, i128)>, sign: i128) -> Option<VarSet> {
    let (coordinate, number) = *term?;
    if number != sign {
        return None;
    }
    let set = u16::try_from(coordinate).ok()?;
    Some(VarSet::from_number(set))
}

/// The sets of a row that is I(left;right|given) times `sign`: `given`, which is empty where the row has three terms, and the two
/// others. `None` if it isn't. Subsets come before their supersets in a row.
fn sets_of(terms: &[(u32, i128)], sign: i128) -> Option<(VarSet, VarSet, VarSet)> {
    let least = terms.len().checked_sub(3)?;
    let given = match least {
        0 => VarSet::empty(),
        1 => set_at(terms.first(), sign.wrapping_neg())?,
        _ => return None,
    };
    let left = set_at(terms.get(least), sign)?;
    let right = set_at(terms.get(least.saturating_add(1)), sign)?;
    let both = set_at(terms.last(), sign.wrapping_neg())?;
    if left.union(right) == both && left.meet(right) == given {
        Some((given, left, right))
    } else {
        None
    }
}

impl Independence {
    /// The independence that `constraint` says; `None` if it says another thing.
    fn read(closures: &Closures, constraint: &Constraint, generator: u32) -> Option<Independence> {
        let terms = constraint.row.terms();
        let is_below = terms.last()?.0 < 1u32.wrapping_shl(u32::from(closures.variables()));
        let (sets, negated) = match (sets_of(terms, -1), constraint.kind) {
            (Some(sets), _) => (sets, false),
            (None, Kind::Equation) => (sets_of(terms, 1)?, true),
            _ => return None,
        };
        if !is_below {
            return None;
        }
        let (given, left, right) = sets;
        Some(Independence {
            left: closures.of(left),
            right: closures.of(right),
            given: closures.of(given),
            generator,
            negated,
        })
    }

    /// The same independence with its sides exchanged.
    fn turned(&self) -> Independence {
        Independence {
            left: self.right,
            right: self.left,
            given: self.given,
            generator: self.generator,
            negated: self.negated,
        }
    }

    /// The part by the closed set `set`, if that lies between `given` and `right` and is neither.
    pub fn part(&self, closures: &Closures, set: VarSet) -> Option<Part> {
        let is_between = is_within(self.given, set) && is_within(set, self.right);
        if !is_between || set == self.given || set == self.right {
            return None;
        }
        Some(Part {
            mutual: Submodular {
                left: self.left,
                right: set,
                given: self.given,
            },
            rest: Submodular {
                left: self.right,
                right: closures.of(self.left.union(set)),
                given: set,
            },
        })
    }
}

/// Whether each member of `small` is in `large`.
fn is_within(small: VarSet, large: VarSet) -> bool {
    small.union(large) == large
}

/// The independences that are constraints of `problem`, each one also with its sides exchanged.
pub fn independences(
    alloc: Global,
    closures: &Closures,
    problem: &Problem,
) -> Result<Vec<Independence>, AllocError> {
    let mut independences = Vec::new(alloc);
    let mut generator = count(problem.space().variables);
    for constraint in problem.constraints() {
        if let Some(independence) = Independence::read(closures, constraint, generator) {
            independences.push(independence)?;
            independences.push(independence.turned())?;
        }
        generator = generator.saturating_add(1);
    }
    Ok(independences)
}
