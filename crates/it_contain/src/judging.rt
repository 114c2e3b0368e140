//! Whether a candidate is proved.
ghost use Rattle.std.specs.Prelude.{All, IfOk, OnOk};
ghost use Rattle.it_space.specs.Rows.{IsOver};
ghost use Rattle.it_space.specs.Spaces.{size_of};
ghost use Rattle.it_region.specs.Pairs.{IsPair};
ghost use Rattle.it_contain.specs.Search.{pair_goal};
ghost use Rattle.it_contain.specs.SearchSteps.{ProvesOne, ProvesAll, Judges, AreOutcomes};

use crate::outcomes::{Outcomes, copy_outcome};
use it_problems::Problem;
use it_prove::Effort;
use it_region::{Candidate, Pair, fits, obligations};
use it_space::{Certificate, Row};
use std::alloc::{AllocError, Global};

/// The certificate with which the run about `target` ends, if it does. There is no run if its outcome is kept in `outcomes`.
fn proof_of(
    alloc: Global,
    problem: &Problem,
    target: &Row,
    effort: Effort,
    outcomes: &mut Outcomes,
) -> Result<Option<Certificate>, AllocError>
    requires target { IsOver (size_of problem.now.space) target.now }
    requires outcomes { AreOutcomes problem.now effort outcomes.old }
    ensures proves { IfOk result (λ o. ProvesOne problem.now effort target.now o) }
    ensures outcomes { OnOk result (AreOutcomes problem.now effort outcomes.new) }
{
    if let Some(outcome) = outcomes.by_row.get(target.terms()) {
        let kept = copy_outcome(alloc, outcome)?;
        return Ok(kept);
    }
    let outcome = outcomes.certificate_of(alloc, problem, target, effort)?;
    outcomes.keep(alloc, target, &outcome)?;
    Ok(outcome)
}

/// The certificates of all targets, in order; None if the run about one of them ends with none.
fn proofs_of(
    alloc: Global,
    problem: &Problem,
    targets: &[Row],
    effort: Effort,
    outcomes: &mut Outcomes,
) -> Result<Option<Vec<Certificate>>, AllocError>
    requires targets { All (IsOver (size_of problem.now.space)) targets.now }
    requires outcomes { AreOutcomes problem.now effort outcomes.old }
    ensures proves { IfOk result (λ o. ProvesAll problem.now effort targets.now o) }
    ensures outcomes { OnOk result (AreOutcomes problem.now effort outcomes.new) }
{
    let mut proofs = Vec::new(alloc);
    for target in targets {
        match proof_of(alloc, problem, target, effort, outcomes)? {
            Some(proof) => proofs.push(proof)?,
            None => return Ok(None),
        }
    }
    Ok(Some(proofs))
}

/// The certificates of the obligations of `candidate`, in order; None if it doesn't fit the pair or isn't proved.
pub(crate) fn proofs_of_candidate(
    alloc: Global,
    pair: &Pair,
    candidate: &Candidate,
    effort: Effort,
    outcomes: &mut Outcomes,
) -> Result<Option<Vec<Certificate>>, AllocError>
    requires pair { IsPair pair.now }
    requires outcomes { AreOutcomes pair.now.first effort outcomes.old }
    ensures judges { IfOk result (λ o. Judges (pair_goal pair.now effort) candidate.now o) }
    ensures outcomes { OnOk result (AreOutcomes pair.now.first effort outcomes.new) }
{
    if !fits(pair, candidate) {
        return Ok(None);
    }
    let rows = obligations(alloc, pair, candidate)?;
    // named before it is answered, so that the contract of the call stands at the answer
    let proofs = proofs_of(alloc, &pair.first, rows.as_slice(), effort, outcomes)?;
    Ok(proofs)
}
