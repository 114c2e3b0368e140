//! Proofs by a quick run: its proposals that the check finds valid.
ghost use Rattle.std.specs.Prelude.{◌≡◌, ◌≢◌, ◌≤◌, All, IfOk, length, pos};
ghost use Rattle.std.specs.Bool.{OnTrue};
ghost use Rattle.std.specs.Option.{IfSome};
ghost use Rattle.it_number.specs.Limit.{IsWithin};
ghost use Rattle.it_space.specs.Rows.{Ascends, IsOver};
ghost use Rattle.it_space.specs.Spaces.{size_of};
ghost use Rattle.it_prove.specs.ProofViews.{IsSettled, proof_view};

use crate::types::Proof;
use it_check::{Verdict, check_no, check_yes};
use it_problems::Problem;
use it_quick::{Proposal, QuickProblem};
use it_space::{Certificate, Point, Row};
use std::alloc::{AllocError, Global};

/// Whether `weight` may be the next in an ascending list: its generator's number is at least `from`, and it is nonzero and within the
/// limit.
fn may_stand(from: u32, weight: &(u32, i128)) -> bool
    ensures { OnTrue result ((from ≤ weight.now.0) × (weight.now.1 ≢ pos 0) × IsWithin weight.now.1) }
{
    from <= weight.0 && weight.1 != 0 && weight.1 != i128::MIN
}

/// Whether the weights ascend by generator, from at least `from` on, and none is 0.
fn ascends(weights: &[(u32, i128)], from: u32) -> bool
    ensures { OnTrue result (Ascends from weights.now) }
{
    match weights.split_first() {
        None => true,
        Some((weight, rest)) => {
            if !may_stand(from, weight) {
                return false;
            }
            match weight.0.checked_add(1) {
                Some(next) => ascends(rest, next),
                None => false,
            }
        }
    }
}

/// The proof by `certificate`, whose weights ascend, if the check finds it valid.
fn judged_yes(problem: &Problem, target: &Row, certificate: Certificate) -> Option<Proof>
    requires target { IsOver (size_of problem.now.space) target.now }
    requires canonical { Ascends 0 certificate.weights.items }
    requires scale { IsWithin certificate.scale }
    ensures { IfSome result (λ proof. IsSettled problem.now target.now (proof_view proof)) }
{
    problem.facts();
    match check_yes(problem, target, &certificate) {
        Verdict::Valid => Some(Proof::Yes(certificate)),
        _ => None,
    }
}

/// The proof by `certificate`, if its weights ascend and the check finds it valid.
fn checked_yes(problem: &Problem, target: &Row, certificate: Certificate) -> Option<Proof>
    requires target { IsOver (size_of problem.now.space) target.now }
    ensures { IfSome result (λ proof. IsSettled problem.now target.now (proof_view proof)) }
{
    if certificate.scale > 0 && ascends(certificate.weights.as_slice(), 0) {
        judged_yes(problem, target, certificate)
    } else {
        None
    }
}

/// The refutation by `point`, which has a value for each coordinate, if the check finds it valid.
fn judged_no(problem: &Problem, target: &Row, point: Point) -> Option<Proof>
    requires target { IsOver (size_of problem.now.space) target.now }
    requires complete { length point ≡ size_of problem.now.space }
    requires within { All IsWithin point }
    ensures { IfSome result (λ proof. IsSettled problem.now target.now (proof_view proof)) }
{
    problem.facts();
    match check_no(problem, target, &point) {
        Verdict::Valid => Some(Proof::No(point)),
        _ => None,
    }
}

/// The refutation by `point`, if it has a value for each coordinate and the check finds it valid.
fn checked_no(problem: &Problem, target: &Row, point: Point) -> Option<Proof>
    requires target { IsOver (size_of problem.now.space) target.now }
    ensures { IfSome result (λ proof. IsSettled problem.now target.now (proof_view proof)) }
{
    if point.values().len() == problem.size() as usize {
        judged_no(problem, target, point)
    } else {
        None
    }
}

/// The proof or refutation by `proposal`, if the check finds it valid.
fn checked(problem: &Problem, target: &Row, proposal: Proposal) -> Option<Proof>
    requires target { IsOver (size_of problem.now.space) target.now }
    ensures { IfSome result (λ proof. IsSettled problem.now target.now (proof_view proof)) }
{
    match proposal {
        Proposal::Yes(certificate) => checked_yes(problem, target, certificate),
        Proposal::No(point) => checked_no(problem, target, point),
    }
}

/// The proof or refutation of `target` by a quick run of at most `steps` steps: a certificate or a point that the check finds valid.
/// `None` if it settles nothing, which says nothing about the target.
pub fn settle(
    alloc: Global,
    quick: &mut QuickProblem,
    problem: &Problem,
    target: &Row,
    steps: u32,
) -> Result<Option<Proof>, AllocError>
    requires target { IsOver (size_of problem.now.space) target.now }
    ensures { IfOk result (λ o. IfSome o (λ proof. IsSettled problem.now target.now (proof_view proof))) }
{
    match quick.propose(alloc, problem, target, steps)? {
        Some(proposal) => Ok(checked(problem, target, proposal)),
        None => Ok(None),
    }
}
