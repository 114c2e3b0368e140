//! Facts about the entropies and rates of a point.

use it_space::VarSet;

/// A fact about a point: the entropy of a set, the value of a rate; that a variable is constant, that two are functions of
/// each other, that one is a function of a set, that the members of a set are independent.
#[derive(Clone, Copy)]
pub enum Fact {
    Entropy { set: VarSet, value: i128 },
    Rate { rate: u8, value: i128 },
    Constant { variable: u8 },
    Equal { variable: u8, other: u8 },
    Function { variable: u8, of: VarSet },
    Independent { set: VarSet },
}
