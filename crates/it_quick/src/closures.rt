//! Closures of all sets, by the functional dependences of a problem and by those that its rows imply.
//!
//! Take the closures under the dependences of the sets at which the rows of the problem and the target have coefficients, and of the
//! left sides of the dependences. If each of these sets that contains x also contains y, no row distinguishes whether x determines y,
//! and the run assumes that it does. A polymatroid on the sets closed under both kinds of dependences gives one on all sets, where each
//! set has the value of its closure, and the rows have the same values there. So a variable that no line names, a time-sharing
//! variable, and variables that only occur together add no columns.
ghost use Rattle.std.specs.Prelude.{◌≤◌};
ghost use Rattle.it_space.specs.Spaces.{most_variables};

use crate::numbers::at;
use it_closure::Dependences;
use it_problems::Problem;
use it_space::{Row, VarSet};
use std::alloc::{AllocError, Global};

/// The set of the first `n` variables.
fn first_variables(n: u8) -> VarSet
    requires { n ≤ most_variables }
{
    VarSet::from_number(((1u32 << n) - 1) as u16)
}

/// `set` with variable `i`.
pub fn with(set: VarSet, i: u8) -> VarSet {
    set.union(VarSet::from_number(1u16.wrapping_shl(u32::from(i))))
}

/// `set` without variable `i`.
pub fn without(set: VarSet, i: u8) -> VarSet {
    set.minus(VarSet::from_number(1u16.wrapping_shl(u32::from(i))))
}

/// For each variable its companions: those that are in every set that it is in.
#[derive(Drop)]
pub struct Companions {
    sets: Vec<VarSet>,
}

impl Companions {
    /// The companions by the rows of `problem` and `target`.
    pub fn read(
        alloc: Global,
        dependences: &Dependences,
        problem: &Problem,
        target: &Row,
    ) -> Result<Companions, AllocError> {
        let n = dependences.space().variables;
        let mut companions = Companions {
            sets: Vec::from_elem(alloc, first_variables(n), usize::from(n))?,
        };
        companions.meet(dependences.close(VarSet::empty()));
        for dependence in dependences.list() {
            companions.meet(dependences.close(dependence.from));
        }
        for constraint in problem.constraints() {
            companions.meet_row(dependences, &constraint.row);
        }
        companions.meet_row(dependences, target);
        Ok(companions)
    }

    /// For each member of `set`, keeps of its companions those in `set`.
    fn meet(&mut self, set: VarSet) {
        for i in 0..self.sets.len() {
            if has(set, i) {
                self.sets[i] = self.sets[i].meet(set);
            }
        }
    }

    /// Like `meet`, for the closure of each set of `row`.
    fn meet_row(&mut self, dependences: &Dependences, row: &Row) {
        let sets = 1u32 << dependences.space().variables;
        for (coordinate, _) in row.terms() {
            if *coordinate < sets {
                if let Ok(set) = u16::try_from(*coordinate) {
                    self.meet(dependences.close(VarSet::from_number(set)));
                }
            }
        }
    }

    /// `set` with the companions of its members.
    fn joined(&self, set: VarSet) -> VarSet {
        let mut all = set;
        for i in 0..self.sets.len() {
            if has(set, i) {
                all = all.union(self.sets[i]);
            }
        }
        all
    }

    /// Whether `others` are the same companions.
    pub fn are(&self, others: &Companions) -> bool {
        self.sets.as_slice() == others.sets.as_slice()
    }
}

/// Whether `set` has variable `i`.
fn has(set: VarSet, i: usize) -> bool {
    match u8::try_from(i) {
        Ok(i) => set.has(i),
        Err(_) => false,
    }
}

/// The least set that contains `set`, what its subsets determine, and the companions of its members.
fn closure(dependences: &Dependences, companions: &Companions, set: VarSet) -> VarSet {
    let mut all = set;
    // each round but the last adds a variable
    for _ in 0..=dependences.space().variables {
        let next = companions.joined(dependences.close(all));
        if next == all {
            return all;
        }
        all = next;
    }
    all
}

/// The sets that stand at their own numbers in `sets`, in order.
pub fn own_sets(alloc: Global, sets: &[VarSet]) -> Result<Vec<VarSet>, AllocError> {
    let mut own = Vec::new(alloc);
    for number in 0..sets.len() {
        if usize::from(sets[number].number()) == number {
            own.push(sets[number])?;
        }
    }
    Ok(own)
}

/// The closure of each set, by its number.
#[derive(Drop)]
pub struct Closures {
    variables: u8,
    sets: Vec<VarSet>,
}

impl Closures {
    /// The closures of all sets.
    pub fn read(
        alloc: Global,
        dependences: &Dependences,
        companions: &Companions,
    ) -> Result<Closures, AllocError> {
        let variables = dependences.space().variables;
        let count = 1u32 << variables;
        let mut sets = Vec::with_capacity(alloc, count as usize)?;
        for number in 0..count {
            let set = VarSet::from_number(number as u16);
            sets.push(closure(dependences, companions, set))?;
        }
        Ok(Closures { variables, sets })
    }

    /// The closure of `set`.
    pub fn of(&self, set: VarSet) -> VarSet {
        at(self.sets.as_slice(), usize::from(set.number()), set)
    }

    /// Whether `set` is its own closure.
    pub fn is_closed(&self, set: VarSet) -> bool {
        self.of(set) == set
    }

    /// The number of variables.
    pub fn variables(&self) -> u8 {
        self.variables
    }

    /// The closure of each set, by its number.
    pub fn sets(&self) -> &[VarSet] {
        self.sets.as_slice()
    }

    /// The closed sets in order, the first of which is the closure of the empty set.
    pub fn closed_sets(&self, alloc: Global) -> Result<Vec<VarSet>, AllocError> {
        own_sets(alloc, self.sets())
    }

    /// The set of all variables: the closure of the last set.
    pub fn full(&self) -> VarSet {
        match self.sets.last() {
            Some(set) => *set,
            None => VarSet::empty(),
        }
    }
}
