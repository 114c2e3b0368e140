//! The answer of the defined run about one target: collapse, run, lift or spread out, check.
//! The result of a last call is named before it is returned, so that its contract is available at the return.
ghost use Rattle.std.specs.Prelude.{◌≡◌, ◌++◌, ℕ, IfErr, IfOk, OnOk};
ghost use Rattle.it_space.specs.Answers.{certificate_view};
ghost use Rattle.it_problems.specs.Problems.{ProblemView};
ghost use Rattle.it_space.specs.Rows.{IsOver, coefficient};
ghost use Rattle.it_space.specs.Spaces.{size_of};
ghost use Rattle.it_closure.specs.Reading.{dependences_of};
ghost use Rattle.it_run.specs.Runs.RunEndView.{Point, Weights};
ghost use Rattle.it_check.specs.Meaning.{CertifiesRow};
ghost use Rattle.it_prove.specs.Closed.{closed_generators, closed_places, closed_target, CollapsesFit};
ghost use Rattle.it_prove.specs.ClosedProblems.{IsClosedProblem, SameRows};
ghost use Rattle.it_prove.specs.Steps.{ClosedSeparates, ClosedSumsUp};
ghost use Rattle.it_columns.specs.Columns.{columns};
ghost use Rattle.it_prove.specs.ProofViews.{EndsByRun, Follows, IsLifted, LiftedFit, proof_view};

use crate::certificates::certificate;
use crate::closed::{ClosedProblem, other_columns};
use crate::points::whole_point;
use crate::types::{Proof, budget_of};
use it_check::{Verdict, check_no, check_yes};
use it_closure::Dependences;
use it_fraction::Fraction;
use it_lift::lift;
use it_problems::Problem;
use it_simplex::{Budget, Solved, solve};
use it_space::{Cause, Certificate, Row, RowFault};
use std::alloc::{AllocError, Global};

/// The certificate by weights of the columns over closed sets, lifted to all sets. `Wide` if a number of the scaled weights or of the
/// lift passes the limit.
fn lifted_certificate(
    alloc: Global,
    problem: &Problem,
    dependences: &Dependences,
    target: &Row,
    weights: &[(usize, Fraction)],
) -> Result<Certificate, RowFault>
    requires space { dependences.now.space ≡ problem.now.space }
    requires list { dependences.now.list ≡ dependences_of problem.now }
    requires target { IsOver (size_of problem.now.space) target.now }
    requires sum { ClosedSumsUp problem.now target.now weights.now }
    ensures lifted { IfOk result (λ c. IsLifted problem.now target.now weights.now (certificate_view c)) }
    ensures certifies { IfOk result (λ c. CertifiesRow problem.now target.now (certificate_view c)) }
    ensures fits { OnOk result (LiftedFit problem.now target.now weights.now) }
    ensures wide { IfErr result (λ f. f ≡ RowFault.Wide → ¬ (LiftedFit problem.now target.now weights.now)) }
{
    problem.facts();
    let collapsed = certificate(alloc, problem, weights)?;
    let certificate = lift(alloc, problem, dependences, target, &collapsed)?;
    Ok(certificate)
}

/// The answer by weights: a yes only if the check finds the certificate valid.
fn by_weights(
    alloc: Global,
    problem: &Problem,
    dependences: &Dependences,
    target: &Row,
    weights: &[(usize, Fraction)],
) -> Result<Proof, AllocError>
    requires space { dependences.now.space ≡ problem.now.space }
    requires list { dependences.now.list ≡ dependences_of problem.now }
    requires target { IsOver (size_of problem.now.space) target.now }
    requires sum { ClosedSumsUp problem.now target.now weights.now }
    ensures { IfOk result (λ proof. Follows problem.now target.now (Weights weights.now) (proof_view proof)) }
{
    problem.facts();
    match lifted_certificate(alloc, problem, dependences, target, weights) {
        Ok(certificate) => match check_yes(problem, target, &certificate) {
            Verdict::Valid => Ok(Proof::Yes(certificate)),
            _ => Ok(Proof::Undecided(Cause::Scale)),
        },
        Err(RowFault::Wide) => Ok(Proof::Undecided(Cause::Scale)),
        Err(RowFault::Memory) => Err(AllocError),
    }
}

/// The answer by a point: a no only if the check finds the point valid.
fn by_point(
    alloc: Global,
    problem: &Problem,
    dependences: &Dependences,
    target: &Row,
    coordinates: &[u32],
    point: &[Fraction],
) -> Result<Proof, AllocError>
    requires space { dependences.now.space ≡ problem.now.space }
    requires list { dependences.now.list ≡ dependences_of problem.now }
    requires target { IsOver (size_of problem.now.space) target.now }
    requires coordinates { coordinates.now ≡ closed_places problem.now }
    requires apart { ClosedSeparates problem.now target.now point.now }
    ensures { IfOk result (λ proof. Follows problem.now target.now (Point point.now) (proof_view proof)) }
{
    problem.facts();
    match whole_point(alloc, problem, dependences, coordinates, point) {
        Ok(point) => match check_no(problem, target, &point) {
            Verdict::Valid => Ok(Proof::No(point)),
            _ => Ok(Proof::Undecided(Cause::Scale)),
        },
        Err(RowFault::Wide) => Ok(Proof::Undecided(Cause::Scale)),
        Err(RowFault::Memory) => Err(AllocError),
    }
}

/// The rest of the run's input: the columns that a closed problem doesn't have, and the target over closed sets.
#[derive(Drop)]
struct ClosedRows {
    columns: Vec<Row>,
    target: Row,
}

/// The columns that `closed` doesn't have, and `target`, over closed sets. `Wide` if a partial sum of a coefficient passes the limit.
fn collapse_rows(
    alloc: Global,
    problem: &Problem,
    closed: &ClosedProblem,
    target: &Row,
) -> Result<ClosedRows, RowFault>
    requires closed { IsClosedProblem problem.now closed.now }
    requires target { IsOver (size_of problem.now.space) target.now }
    ensures columns { IfOk result (λ c. SameRows (closed.now.columns.items ++ c.columns.items) (columns (closed_generators problem.now))) }
    ensures target { IfOk result (λ c. (k : ℕ) → coefficient c.target k ≡ coefficient (closed_target problem.now target.now) k) }
    ensures fits { OnOk result (CollapsesFit problem.now target.now) }
    ensures wide { IfErr result (λ f. f ≡ RowFault.Wide → ¬ (CollapsesFit problem.now target.now)) }
{
    let columns = other_columns(alloc, problem, closed)?;
    let target = closed.dependences.collapse(alloc, target)?;
    Ok(ClosedRows { columns, target })
}

/// The answer by the run over closed sets, where `closed` has all columns.
fn closed_proof(
    alloc: Global,
    problem: &Problem,
    closed: &ClosedProblem,
    target: &Row,
    collapsed: &Row,
    budget: Budget,
) -> Result<Proof, AllocError>
    requires space { closed.now.dependences.space ≡ problem.now.space }
    requires list { closed.now.dependences.list ≡ dependences_of problem.now }
    requires coordinates { closed.now.coordinates.items ≡ closed_places problem.now }
    requires target { IsOver (size_of problem.now.space) target.now }
    requires columns { SameRows closed.now.columns.items (columns (closed_generators problem.now)) }
    requires collapsed { (k : ℕ) → coefficient collapsed.now k ≡ coefficient (closed_target problem.now target.now) k }
    requires fits { CollapsesFit problem.now target.now }
    ensures { IfOk result (λ proof. EndsByRun problem.now target.now budget (proof_view proof)) }
{
    match solve(
        alloc,
        closed.coordinates.as_slice(),
        closed.columns.as_slice(),
        collapsed,
        budget,
    )? {
        Solved::Weights(weights) => by_weights(
            alloc,
            problem,
            &closed.dependences,
            target,
            weights.as_slice(),
        ),
        Solved::Point(point) => by_point(
            alloc,
            problem,
            &closed.dependences,
            target,
            closed.coordinates.as_slice(),
            point.as_slice(),
        ),
        Solved::Pivots(steps) => Ok(Proof::Undecided(Cause::Pivots(steps))),
        Solved::Width(step) => Ok(Proof::Undecided(Cause::Width(step))),
    }
}

/// The answer by the run with the further columns of `rows`, which `closed` has only during the run.
fn with_columns(
    alloc: Global,
    problem: &Problem,
    closed: &mut ClosedProblem,
    target: &Row,
    mut rows: ClosedRows,
    budget: Budget,
) -> Result<Proof, AllocError>
    requires closed { IsClosedProblem problem.now closed.old }
    requires target { IsOver (size_of problem.now.space) target.now }
    requires columns { SameRows (closed.old.columns.items ++ rows.columns.items) (columns (closed_generators problem.now)) }
    requires collapsed { (k : ℕ) → coefficient rows.target k ≡ coefficient (closed_target problem.now target.now) k }
    requires fits { CollapsesFit problem.now target.now }
    ensures ends { IfOk result (λ proof. EndsByRun problem.now target.now budget (proof_view proof)) }
    ensures stays { OnOk result ((q : ProblemView) → IsClosedProblem q closed.old → IsClosedProblem q closed.new) }
{
    let count = closed.columns.len();
    closed.columns.append(&mut rows.columns)?;
    let proof = closed_proof(alloc, problem, closed, target, &rows.target, budget)?;
    closed.columns.truncate(count);
    Ok(proof)
}

impl ClosedProblem {
    /// The answer of the defined run, under the same problems as in `prove`.
    pub(crate) fn defined(
        &mut self,
        alloc: Global,
        problem: &Problem,
        target: &Row,
        pivots: Option<u32>,
    ) -> Result<Proof, AllocError>
        requires closed { IsClosedProblem problem.now self.old }
        requires target { IsOver (size_of problem.now.space) target.now }
        ensures ends { IfOk result (λ proof. EndsByRun problem.now target.now pivots (proof_view proof)) }
        ensures stays { OnOk result ((q : ProblemView) → IsClosedProblem q self.old → IsClosedProblem q self.new) }
    {
        match collapse_rows(alloc, problem, self, target) {
            Ok(rows) => with_columns(alloc, problem, self, target, rows, budget_of(pivots)),
            Err(RowFault::Wide) => Ok(Proof::Undecided(Cause::Width(0))),
            Err(RowFault::Memory) => Err(AllocError),
        }
    }
}
