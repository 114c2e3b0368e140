//! All tuples of sets of at most one variable.
ghost use Rattle.std.specs.Prelude.{◌≡◌, []};
ghost use Rattle.it_contain.specs.Shapes.{small_sets, tuple_candidates};

use crate::proposer::Proposer;
use crate::tuples::{PartSets, Tuples};
use it_space::VarSet;

/// The sets of at most one variable: the empty set first, then the variables in order of declaration.
pub struct SmallSets;

impl PartSets for SmallSets {
    ghost sets = { small_sets };

    #[tactic(auto, using(crate::proofs::TupleLemmas::length_small_sets, crate::proofs::TupleLemmas::first_small_set))]
    fn count(variables: u8) -> u64 {
        variables as u64 + 1
    }

    #[tactic(auto, using(crate::proofs::TupleLemmas::length_small_sets, crate::proofs::TupleLemmas::first_small_set))]
    fn set_at(_variables: u8, number: u64) -> VarSet {
        if number == 0 {
            VarSet::empty()
        } else {
            VarSet::single((number - 1) as u8)
        }
    }
}

/// Proposes all tuples of sets of at most one variable.
pub type Singles = Tuples<SmallSets>;

impl Singles {
    /// A proposer with no candidate to come until it is begun.
    pub fn new() -> Singles
        ensures pending { ⟦<Singles as Proposer>⟧.pending result ≡ [] }
        ensures plan { ⟦<Singles as Proposer>⟧.plan result ≡ (λ shape proved. tuple_candidates small_sets shape) }
    {
        Tuples::with_none_to_come()
    }
}
