//! Proposers of candidates.
ghost use Rattle.std.specs.Prelude.{◌≡◌, List, []};
ghost use Rattle.it_contain.specs.Shapes.{IsShape};
ghost use Rattle.it_contain.specs.Proposals.{Plan, Takes, Learns};

use crate::types::Shape;
use it_region::Candidate;

/// A source of candidates for one question after another, which may learn from those that were proved.
pub trait Proposer: Drop {
    ghost use Rattle.it_region.specs.declared.types.Candidate.{Candidate};

    /// The candidates still to come.
    ghost pending: { Self → List Candidate };

    /// The candidates that `begin` would set, for a shape and the candidates that are proved from now on.
    ghost plan: { Self → Plan };

    /// Begins a question of shape `shape`. Candidates that were still to come for the question before are forgotten.
    fn begin(&mut self, shape: Shape)
        requires { IsShape shape }
        ensures pending { pending self.new ≡ plan self.old shape [] }
        ensures plan { plan self.new ≡ plan self.old };

    /// The next candidate; None where there are no more.
    fn next(&mut self) -> Option<Candidate>
        ensures takes { Takes (pending self.old) result (pending self.new) }
        ensures plan { plan self.new ≡ plan self.old };

    /// Tells that a candidate was tried, which may be another proposer's, and whether it was proved.
    fn learn(&mut self, candidate: &Candidate, proved: bool)
        ensures { Learns proved candidate.now (pending self.old) (plan self.old) (pending self.new) (plan self.new) };
}
