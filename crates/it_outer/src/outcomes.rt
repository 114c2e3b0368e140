//! The certificates of rows that were proved once: they stay valid when rays are added.
ghost use Rattle.std.specs.Prelude.{◌≡◌, IfOk, OnOk};
ghost use Rattle.it_problems.specs.Problems.{ProblemView};
ghost use Rattle.it_space.specs.Rows.{IsOver};
ghost use Rattle.it_space.specs.Spaces.{size_of};
ghost use Rattle.it_prove.specs.declared.types.Effort.{Effort};
ghost use Rattle.it_prove.specs.ProofViews.{EndsWith, proof_view};
ghost use Rattle.it_outer.specs.Rounds.{AreOutcomes};

use indexmap::IndexMap;
use it_problems::Problem;
use it_prove::{ClosedProblem, Effort, Proof};
use it_space::{Certificate, Row};
use std::alloc::{AllocError, Global};

/// Rows that are proved under one problem, each with its certificate, and the problem over closed sets, for all runs.
pub struct Outcomes {
    pub by_row: IndexMap<Vec<(u32, i128)>, Certificate>,
    pub closed: ClosedProblem,
}

impl Drop for Outcomes {
    fn drop(self) {
        let Outcomes {
            by_row: _,
            closed: _,
        } = self;
    }
}

impl Outcomes {
    /// The outcomes of `problem`, before any run.
    pub fn new(alloc: Global, problem: &Problem, effort: Effort) -> Result<Outcomes, AllocError>
        ensures { IfOk result (AreOutcomes problem.now effort) }
    {
        let closed = ClosedProblem::read(alloc, problem, effort)?;
        Ok(Outcomes {
            by_row: IndexMap::new(alloc),
            closed,
        })
    }

    /// Keeps the certificate of `row`, if `proof` is one.
    fn keep(&mut self, alloc: Global, row: &Row, proof: &Proof) -> Result<(), AllocError>
        ensures { OnOk result ((q : ProblemView) (effort : Effort) → AreOutcomes q effort self.old → EndsWith q row.now effort (proof_view proof.now) → AreOutcomes q effort self.new) }
    {
        if let Proof::Yes(certificate) = proof {
            let terms = row.terms().iter().copied().collect(alloc)?;
            let kept = certificate.copy(alloc)?;
            self.by_row.insert(terms, kept)?;
        }
        Ok(())
    }

    /// The outcome about `row`: the one that is kept, if it is proved already, else that of a run.
    pub fn outcome(
        &mut self,
        alloc: Global,
        problem: &Problem,
        row: &Row,
        effort: Effort,
    ) -> Result<Proof, AllocError>
        requires row { IsOver (size_of problem.now.space) row.now }
        requires outcomes { AreOutcomes problem.now effort self.old }
        ensures ends { IfOk result (λ proof. EndsWith problem.now row.now effort (proof_view proof)) }
        ensures outcomes { OnOk result (AreOutcomes problem.now effort self.new) }
    {
        if let Some(certificate) = self.by_row.get(row.terms()) {
            let kept = certificate.copy(alloc)?;
            return Ok(Proof::Yes(kept));
        }
        let proof = self.closed.prove(alloc, problem, row, effort)?;
        self.keep(alloc, row, &proof)?;
        Ok(proof)
    }
}
