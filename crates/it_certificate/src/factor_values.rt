//! What is found of factors as the members of a line of JSON.
ghost use Rattle.std.specs.Prelude.{◌≡◌, [], ◌∷◌, IfOk};
ghost use Rattle.serde_json.specs.View.{members_view, view};
ghost use Rattle.it_space.specs.Answers.{certificate_view};
ghost use Rattle.it_ratio.specs.BestViews.{Least, Never, Unbounded, Undecided, best_view};
ghost use Rattle.it_certificate.specs.FactorValues.{best_members, factor_cause_word, phase_of, ratio_value, steps_of};
ghost use Rattle.it_certificate.specs.Values.{list_value, proof_value};

use crate::objects::Members;
use crate::values::{integer, integers, proof, step_number};
use it_ratio::types::{Best, BestCause};
use it_space::{Certificate, Point};
use serde_json::{Value, json};
use std::alloc::{AllocError, Global};

/// A factor: its numerator and its denominator as decimal texts.
#[tactic(auto, unfolding(crate::specs::FactorValues::ratio_value))]
fn ratio(alloc: Global, num: &i128, den: &i128) -> Result<Value, AllocError>
    ensures { IfOk result (λ v. view v ≡ ratio_value num.now den.now) }
{
    let num = integer(alloc, num)?;
    let den = integer(alloc, den)?;
    json!(in alloc; [num, den])
}

/// A list of one certificate.
fn one_proof(alloc: Global, certificate: &Certificate) -> Result<Value, AllocError>
    ensures { IfOk result (λ v. view v ≡ list_value proof_value (certificate_view certificate.now ∷ [])) }
{
    let value = proof(alloc, certificate)?;
    json!(in alloc; [value])
}

/// A list of two certificates.
fn two_proofs(
    alloc: Global,
    certificate: &Certificate,
    other: &Certificate,
) -> Result<Value, AllocError>
    ensures { IfOk result (λ v. view v ≡ list_value proof_value (certificate_view certificate.now ∷ certificate_view other.now ∷ [])) }
{
    let value = proof(alloc, certificate)?;
    let more = proof(alloc, other)?;
    json!(in alloc; [value, more])
}

/// The members of a least factor.
#[tactic(auto, unfolding(crate::specs::FactorValues::best_members))]
fn least_members(
    alloc: Global,
    num: &i128,
    den: &i128,
    proof: &Certificate,
    point: &Point,
) -> Result<Members, AllocError>
    ensures { IfOk result (λ m. members_view m.map.entries ≡ best_members (Least num.now den.now (certificate_view proof.now) point.now)) }
{
    let factor = ratio(alloc, num, den)?;
    let members = Members::new(alloc).with(alloc, "factor", factor)?;
    let values = integers(alloc, point.values())?;
    let members = members.with(alloc, "point", values)?;
    let proofs = one_proof(alloc, proof)?;
    let members = members.with(alloc, "proofs", proofs)?;
    members.with_text(alloc, "answer", "best")
}

/// The members where there is no factor.
#[tactic(auto, unfolding(crate::specs::FactorValues::best_members))]
fn never_members(alloc: Global, point: &Point) -> Result<Members, AllocError>
    ensures { IfOk result (λ m. members_view m.map.entries ≡ best_members (Never point.now)) }
{
    let values = integers(alloc, point.values())?;
    let members = Members::new(alloc).with(alloc, "point", values)?;
    members.with_text(alloc, "answer", "none")
}

/// The members where there is no least factor.
#[tactic(auto, unfolding(crate::specs::FactorValues::best_members))]
fn unbounded_members(
    alloc: Global,
    num: &i128,
    den: &i128,
    proof: &Certificate,
    below: &Certificate,
) -> Result<Members, AllocError>
    ensures { IfOk result (λ m. members_view m.map.entries ≡ best_members (Unbounded num.now den.now (certificate_view proof.now) (certificate_view below.now))) }
{
    let factor = ratio(alloc, num, den)?;
    let members = Members::new(alloc).with(alloc, "factor", factor)?;
    let proofs = two_proofs(alloc, proof, below)?;
    let members = members.with(alloc, "proofs", proofs)?;
    members.with_text(alloc, "answer", "unbounded")
}

/// The word of a cause.
fn cause_word(cause: BestCause) -> &'static str
    ensures { result.now ≡ factor_cause_word cause }
{
    match cause {
        BestCause::Pivots { .. } => "pivots",
        BestCause::Width { .. } => "width",
        BestCause::Scale => "scale",
        BestCause::Size => "size",
    }
}

/// The steps or the step of a cause, 0 where it has none.
fn steps_of(cause: BestCause) -> u32
    ensures { result ≡ steps_of cause }
{
    match cause {
        BestCause::Pivots { steps, part: _ } => steps,
        BestCause::Width { step, part: _ } => step,
        BestCause::Scale | BestCause::Size => 0,
    }
}

/// The phase of a cause, 0 where it has none.
fn phase_of(cause: BestCause) -> u32
    ensures { result ≡ phase_of cause }
{
    match cause {
        BestCause::Pivots { steps: _, part } => part as u32,
        BestCause::Width { step: _, part } => part as u32,
        BestCause::Scale | BestCause::Size => 0,
    }
}

/// The members where factors are undecided.
#[tactic(auto, unfolding(crate::specs::FactorValues::best_members))]
fn undecided_members(alloc: Global, cause: BestCause) -> Result<Members, AllocError>
    ensures { IfOk result (λ m. members_view m.map.entries ≡ best_members (Undecided cause)) }
{
    let steps = step_number(alloc, steps_of(cause))?;
    let members = Members::new(alloc).with(alloc, "at", steps)?;
    let members = members.with_text(alloc, "cause", cause_word(cause))?;
    let number = phase_of(cause);
    let phase = json!(in alloc; number)?;
    let members = members.with(alloc, "phase", phase)?;
    members.with_text(alloc, "answer", "undecided")
}

/// The members of what is found.
pub fn best_members(alloc: Global, best: &Best) -> Result<Members, AllocError>
    ensures { IfOk result (λ m. members_view m.map.entries ≡ best_members (best_view best.now)) }
{
    match best {
        Best::Least {
            num,
            den,
            proof,
            point,
        } => least_members(alloc, num, den, proof, point),
        Best::Never(point) => never_members(alloc, point),
        Best::Unbounded {
            num,
            den,
            proof,
            below,
        } => unbounded_members(alloc, num, den, proof, below),
        Best::Undecided(cause) => undecided_members(alloc, *cause),
    }
}
