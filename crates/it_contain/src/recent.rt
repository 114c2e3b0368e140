//! A proposer that remembers.
ghost use Rattle.std.specs.Prelude.{◌≡◌, ◌≤◌, [], None};
ghost use Rattle.std.specs.Option.{option_to_list};
ghost use Rattle.it_contain.specs.Recents.{last_of, is_of_shape, recent_candidates};
ghost use Rattle.it_contain.specs.Shapes.{most_shape_variables};

use crate::proposer::Proposer;
use crate::types::Shape;
use it_region::{Candidate, are_below};

/// Whether a candidate has as many parts as the shape, each a set of its variables.
#[tactic(auto, unfolding(crate::specs::Recents::is_of_shape))]
fn is_of_shape(shape: Shape, candidate: &Candidate) -> bool
    requires { shape.variables ≤ most_shape_variables }
    ensures { result ≡ is_of_shape shape candidate.now }
{
    candidate.count == shape.parts
        && are_below(
            &candidate.parts,
            candidate.count as usize,
            1 << shape.variables,
        )
}

/// The kept candidate, if there is one of this shape.
fn of_shape(shape: Shape, kept: &Option<Candidate>) -> Option<Candidate>
    requires { shape.variables ≤ most_shape_variables }
    ensures { option_to_list result ≡ recent_candidates shape kept.now }
{
    match kept {
        Some(candidate) => if is_of_shape(shape, candidate) {
            Some(*candidate)
        } else {
            None
        },
        None => None,
    }
}

/// Proposes the candidate that was proved last, whoever proposed it, to each question whose shape it has. It takes no
/// memory.
#[derive(Drop)]
pub struct Recent {
    /// The candidate that was proved last.
    kept: Option<Candidate>,
    /// What is still to come.
    left: Option<Candidate>,
}

impl Recent {
    /// A proposer that keeps no candidate and has none to come.
    pub fn new() -> Recent
        ensures pending { ⟦<Recent as Proposer>⟧.pending result ≡ [] }
        ensures plan { ⟦<Recent as Proposer>⟧.plan result ≡ (λ shape proved. recent_candidates shape (last_of None proved)) }
    {
        Recent {
            kept: None,
            left: None,
        }
    }
}

impl Proposer for Recent {
    ghost pending = { λ r. option_to_list r.left };

    ghost plan = { λ r shape proved. recent_candidates shape (last_of r.kept proved) };

    fn begin(&mut self, shape: Shape) {
        self.left = of_shape(shape, &self.kept);
    }

    fn next(&mut self) -> Option<Candidate> {
        self.left.take()
    }

    fn learn(&mut self, candidate: &Candidate, proved: bool) {
        if proved {
            self.kept = Some(*candidate);
        }
    }
}
