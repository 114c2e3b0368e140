//! All tuples of sets.
ghost use Rattle.std.specs.Prelude.{◌≡◌, []};
ghost use Rattle.it_contain.specs.Shapes.{all_sets, tuple_candidates};

use crate::proposer::Proposer;
use crate::tuples::{PartSets, Tuples};
use it_space::VarSet;

/// All sets, by number: the empty set first.
pub struct AllSets;

impl PartSets for AllSets {
    ghost sets = { all_sets };

    #[tactic(auto, using(crate::proofs::TupleLemmas::length_all_sets, crate::proofs::TupleLemmas::first_set, crate::proofs::TupleLemmas::few_sets))]
    fn count(variables: u8) -> u64 {
        1 << variables
    }

    #[tactic(auto, using(crate::proofs::TupleLemmas::length_all_sets, crate::proofs::TupleLemmas::few_sets, crate::proofs::TupleLemmas::at_all_sets))]
    fn set_at(_variables: u8, number: u64) -> VarSet {
        VarSet::from_number(number as u16)
    }
}

/// Proposes all tuples of sets.
pub type Subsets = Tuples<AllSets>;

impl Subsets {
    /// A proposer with no candidate to come until it is begun.
    pub fn new() -> Subsets
        ensures pending { ⟦<Subsets as Proposer>⟧.pending result ≡ [] }
        ensures plan { ⟦<Subsets as Proposer>⟧.plan result ≡ (λ shape proved. tuple_candidates all_sets shape) }
    {
        Tuples::with_none_to_come()
    }
}
