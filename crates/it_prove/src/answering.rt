//! The answer about one target: by a quick run if one is made, and if that doesn't settle it, by the defined run where that is in reach.
ghost use Rattle.std.specs.Prelude.{◌≢◌, ℕ, IfOk, OnOk};
ghost use Rattle.std.specs.Option.{IfSome};
ghost use Rattle.it_space.specs.declared.answers.Cause.TheVariants as causes;
ghost use Rattle.it_problems.specs.Problems.{ProblemView};
ghost use Rattle.it_space.specs.Rows.{IsOver};
ghost use Rattle.it_space.specs.Spaces.{size_of};
ghost use Rattle.it_prove.specs.ClosedProblems.{IsClosedProblem};
ghost use Rattle.it_prove.specs.ProofViews.{EndsWith, IsRightProof, IsSettled, IsUnbound, QuickEnds, Undecided, proof_view};

use crate::closed::ClosedProblem;
use crate::quick::settle;
use crate::types::{Effort, Proof, Runs};
use it_problems::Problem;
use it_space::{Cause, Row};
use std::alloc::{AllocError, Global};

/// The most steps of a quick run before the defined one. Answers don't show it.
pub const QUICK_STEPS: u32 = 4000;

/// The most steps of a quick run that is made alone. Answers don't show it.
const LONE_STEPS: u32 = 12_000;

impl ClosedProblem {
    /// The proof by a quick run of at most `steps` steps, if this closed problem has one and it settles the target.
    fn settled(
        &mut self,
        alloc: Global,
        problem: &Problem,
        target: &Row,
        steps: u32,
    ) -> Result<Option<Proof>, AllocError>
        requires target { IsOver (size_of problem.now.space) target.now }
        ensures settled { IfOk result (λ o. IfSome o (λ proof. IsSettled problem.now target.now (proof_view proof))) }
        ensures stays { OnOk result ((q : ProblemView) → IsClosedProblem q self.old → IsClosedProblem q self.new) }
    {
        match &mut self.quick {
            Some(quick) => settle(alloc, quick, problem, target, steps),
            None => Ok(None),
        }
    }

    /// The answer without the defined run, if `runs` has one: what a quick run settles, and where that is made alone, else that the target
    /// is left open.
    fn quick_end(
        &mut self,
        alloc: Global,
        problem: &Problem,
        target: &Row,
        runs: Runs,
    ) -> Result<Option<Proof>, AllocError>
        requires target { IsOver (size_of problem.now.space) target.now }
        ensures ends { IfOk result (λ o. IfSome o (λ proof. QuickEnds runs problem.now target.now (proof_view proof))) }
        ensures stays { OnOk result ((q : ProblemView) → IsClosedProblem q self.old → IsClosedProblem q self.new) }
    {
        match runs {
            Runs::Defined => Ok(None),
            Runs::QuickFirst => self.settled(alloc, problem, target, QUICK_STEPS),
            Runs::QuickAlone => match self.settled(alloc, problem, target, LONE_STEPS)? {
                Some(proof) => Ok(Some(proof)),
                None => Ok(Some(Proof::Undecided(Cause::Pivots(0)))),
            },
        }
    }

    /// The answer of `prove` about `target` under `problem`, which is the problem that was read, or has further constraints after those of
    /// it, of `row` lines. Afterwards the closed problem serves the same problems as before. A quick run is made if `effort` has one here
    /// and had one when the problem was read. Where it is made alone, no column is made.
    pub fn prove(
        &mut self,
        alloc: Global,
        problem: &Problem,
        target: &Row,
        effort: Effort,
    ) -> Result<Proof, AllocError>
        requires closed { IsClosedProblem problem.now self.old }
        requires target { IsOver (size_of problem.now.space) target.now }
        ensures ends { IfOk result (λ proof. EndsWith problem.now target.now effort (proof_view proof)) }
        ensures unbound { IsUnbound effort → IfOk result (λ proof. (k : ℕ) → proof_view proof ≢ Undecided (causes.Pivots k)) }
        ensures right { IfOk result (λ proof. IsRightProof problem.now target.now (proof_view proof)) }
        ensures stays { OnOk result ((q : ProblemView) → IsClosedProblem q self.old → IsClosedProblem q self.new) }
    {
        problem.facts();
        match self.quick_end(alloc, problem, target, effort.runs)? {
            Some(proof) => Ok(proof),
            None => self.defined(alloc, problem, target, effort.pivots),
        }
    }
}

/// Whether `target`, a row over the coordinates of the problem's space, is at least 0 wherever a polymatroid and rates meet `problem`.
/// The answer is that of the defined run over closed sets with Bland's rule (Bland 1977): a certificate or a point that the check finds
/// valid; `Pivots` with the budget if its steps don't suffice, which never happens without one; `Width` with the step at which a number
/// passes the limit, 0 for the start; or `Scale` if a number of the scaled answer passes the limit. If `effort` has a quick run first, a
/// certificate or a point that this run proposes and the check finds valid is the answer instead. If the quick run is made alone, the
/// answer is else `Pivots` with 0: no step of the defined run was in reach.
pub fn prove(
    alloc: Global,
    problem: &Problem,
    target: &Row,
    effort: Effort,
) -> Result<Proof, AllocError>
    requires target { IsOver (size_of problem.now.space) target.now }
    ensures ends { IfOk result (λ proof. EndsWith problem.now target.now effort (proof_view proof)) }
    ensures unbound { IsUnbound effort → IfOk result (λ proof. (k : ℕ) → proof_view proof ≢ Undecided (causes.Pivots k)) }
    ensures right { IfOk result (λ proof. IsRightProof problem.now target.now (proof_view proof)) }
{
    let mut closed = ClosedProblem::read(alloc, problem, effort)?;
    let proof = closed.prove(alloc, problem, target, effort)?;
    Ok(proof)
}
