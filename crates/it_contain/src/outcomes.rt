//! What is kept about one problem, so that nothing is made or solved twice.
ghost use Rattle.std.specs.Prelude.{◌≡◌, IfOk, OnOk};
ghost use Rattle.std.specs.Option.{option_map};
ghost use Rattle.it_space.specs.Answers.{certificate_view};
ghost use Rattle.it_space.specs.Rows.{IsOver};
ghost use Rattle.it_space.specs.Spaces.{size_of};
ghost use Rattle.it_contain.specs.SearchSteps.{AreOutcomes, IsKept, ProvesOne};

use indexmap::IndexMap;
use it_problems::Problem;
use it_prove::{ClosedProblem, Effort, Proof};
use it_space::{Certificate, Row};
use std::alloc::{AllocError, Global};

/// The most rows that are kept.
const MOST_ROWS: usize = 4096;

/// Rows that were targets under one problem, each with the certificate with which its run ended, if it did. The first
/// `MOST_ROWS` of them are kept. `closed` is made once of the problem and serves all these runs.
pub(crate) struct Outcomes {
    pub(crate) by_row: IndexMap<Vec<(u32, i128)>, Option<Certificate>>,
    pub(crate) closed: ClosedProblem,
}

impl Drop for Outcomes {
    fn drop(self) {
        let Outcomes {
            by_row: _,
            closed: _,
        } = self;
    }
}

impl Outcomes {
    /// No outcomes yet under `problem`.
    pub(crate) fn new(
        alloc: Global,
        problem: &Problem,
        effort: Effort,
    ) -> Result<Outcomes, AllocError>
        ensures { IfOk result (AreOutcomes problem.now effort) }
    {
        let closed = ClosedProblem::read(alloc, problem, effort)?;
        Ok(Outcomes {
            by_row: IndexMap::new(alloc),
            closed,
        })
    }

    /// The certificate with which the run about `target` ends, if it does.
    pub(crate) fn certificate_of(
        &mut self,
        alloc: Global,
        problem: &Problem,
        target: &Row,
        effort: Effort,
    ) -> Result<Option<Certificate>, AllocError>
        requires target { IsOver (size_of problem.now.space) target.now }
        requires outcomes { AreOutcomes problem.now effort self.old }
        ensures proves { IfOk result (λ o. ProvesOne problem.now effort target.now o) }
        ensures outcomes { OnOk result (AreOutcomes problem.now effort self.new) }
    {
        match self.closed.prove(alloc, problem, target, effort)? {
            Proof::Yes(certificate) => Ok(Some(certificate)),
            Proof::No(_) => Ok(None),
            Proof::Undecided(_) => Ok(None),
        }
    }

    /// Keeps the outcome of `target`, unless `MOST_ROWS` rows are kept already.
    pub(crate) fn keep(
        &mut self,
        alloc: Global,
        target: &Row,
        outcome: &Option<Certificate>,
    ) -> Result<(), AllocError>
        ensures { OnOk result (IsKept target.now outcome.now self.old self.new) }
    {
        if self.by_row.len() < MOST_ROWS {
            let terms = target.terms().iter().copied().collect(alloc)?;
            let kept = copy_outcome(alloc, outcome)?;
            self.by_row.insert(terms, kept)?;
        }
        Ok(())
    }
}

/// A copy of an outcome.
pub(crate) fn copy_outcome(
    alloc: Global,
    outcome: &Option<Certificate>,
) -> Result<Option<Certificate>, AllocError>
    ensures { IfOk result (λ o. option_map certificate_view o ≡ option_map certificate_view outcome.now) }
{
    match outcome {
        Some(certificate) => {
            let copy = certificate.copy(alloc)?;
            Ok(Some(copy))
        }
        None => Ok(None),
    }
}
