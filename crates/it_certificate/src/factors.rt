//! What a report line says of factors.
ghost use Rattle.std.specs.Prelude.{◌≡◌, ◌^◌, codes, is_some, map, option_and_then, option_map};
ghost use Rattle.serde_json.specs.Find.{get};
ghost use Rattle.serde_json.specs.View.{view};
ghost use Rattle.it_space.specs.Answers.{certificate_view};
ghost use Rattle.it_space.specs.Spaces.{IsSpace, size_of};
ghost use Rattle.it_demand.specs.QuestionSpaces.{space_of};
ghost use Rattle.it_question.specs.Questions.{verb_view};
ghost use Rattle.it_ratio.specs.BestViews.{best_view};
ghost use Rattle.it_ratio.specs.Truth.{asked_by};
ghost use Rattle.it_certificate.specs.FactorReading.{best_at, both_of, cause_with, certificates_at, factor_at, factor_cause_of, factor_kind_at, least_at, never_at, one_of, phase_at, ratio_at, steps_at, unbounded_at, undecided_factor_at, verb_best};
ghost use Rattle.it_certificate.specs.Numerals.{below};
ghost use Rattle.it_certificate.specs.Parts.{text_of};
ghost use Rattle.it_certificate.specs.Steps.{GivesKeyed, Yields};

use crate::answers::fault;
use crate::keys::{Key, Refusal, ReportFault};
use crate::kinds::{FactorCause, FactorKind, factor_cause_of, factor_kind_of};
use crate::lists::{certificates_of_member, two_values};
use crate::members::{point_in, text_of_member};
use crate::numbers::{count_at, integer_at, step_of};
use it_question::types::{Question, Verb};
use it_ratio::types::{Best, BestCause};
use it_space::{Certificate, Space};
use it_syntax::types::Sign;
use serde_json::Value;
use std::alloc::Global;

/// The kind of what a line says of factors; None where it is about something else.
#[tactic(auto, unfolding(crate::specs::FactorReading::factor_kind_at))]
pub fn factor_kind_at(value: &Value) -> Option<FactorKind>
    ensures { result ≡ factor_kind_at (view value.now) }
{
    let has_phase = value.get("phase").is_some();
    factor_kind_of(text_of_member(value.get("answer"))?, has_phase)
}

/// Two decimal texts: a numerator and a denominator.
#[tactic(auto, unfolding(crate::specs::FactorReading::ratio_at))]
fn ratio_at(value: &Value) -> Option<(i128, i128)>
    ensures { result ≡ ratio_at (view value.now) }
{
    let values = value.as_array()?;
    let (num, den) = two_values(values.as_slice())?;
    let num = integer_at(num)?;
    let den = integer_at(den)?;
    Some((num, den))
}

/// The factor.
fn factor_at(value: &Value) -> Option<(i128, i128)>
    ensures { result ≡ factor_at (view value.now) }
{
    ratio_at(value.get("factor")?)
}

/// The certificate of a list of one.
fn one_of(certificates: Vec<Certificate>) -> Option<Certificate>
    ensures { option_map certificate_view result ≡ one_of (map certificate_view certificates.items) }
{
    let mut certificates = certificates;
    if certificates.len() == 1 {
        certificates.pop()
    } else {
        None
    }
}

/// The two of a list of two, in order.
fn both_of(certificates: Vec<Certificate>) -> Option<(Certificate, Certificate)>
    ensures { option_map (λ p. (certificate_view p.0, certificate_view p.1)) result ≡ both_of (map certificate_view certificates.items) }
{
    let mut certificates = certificates;
    if certificates.len() != 2 {
        return None;
    }
    let below = certificates.pop()?;
    let proof = certificates.pop()?;
    Some((proof, below))
}

/// The certificate of `proofs`, where there is just one.
fn proof_at(alloc: Global, value: &Value) -> Result<Certificate, Refusal>
    ensures { Yields certificate_view result (option_and_then one_of (certificates_at (view value.now))) }
{
    let certificates = certificates_of_member(alloc, value.get("proofs"))?;
    match one_of(certificates) {
        Some(proof) => Ok(proof),
        None => Err(Refusal::Shape),
    }
}

/// The certificates of `proofs`, where there are two.
fn proofs_at(alloc: Global, value: &Value) -> Result<(Certificate, Certificate), Refusal>
    ensures { Yields (λ p. (certificate_view p.0, certificate_view p.1)) result (option_and_then both_of (certificates_at (view value.now))) }
{
    let certificates = certificates_of_member(alloc, value.get("proofs"))?;
    match both_of(certificates) {
        Some(proofs) => Ok(proofs),
        None => Err(Refusal::Shape),
    }
}

/// A least factor: the factor, one certificate and a value for each coordinate.
#[tactic(auto, unfolding(crate::specs::FactorReading::least_at))]
fn least_at(alloc: Global, value: &Value, space: Space) -> Result<Best, ReportFault>
    requires { IsSpace space }
    ensures { GivesKeyed best_view result (least_at (size_of space) (view value.now)) }
{
    let Some((num, den)) = factor_at(value) else {
        return Err(ReportFault::Shape { key: Key::Factor });
    };
    let proof = match proof_at(alloc, value) {
        Ok(proof) => proof,
        Err(refusal) => return Err(fault(refusal, Key::Proofs)),
    };
    match point_in(alloc, value, space) {
        Ok(point) => Ok(Best::Least {
            num,
            den,
            proof,
            point,
        }),
        Err(refusal) => Err(fault(refusal, Key::Point)),
    }
}

/// No factor: a value for each coordinate.
#[tactic(auto, unfolding(crate::specs::FactorReading::never_at))]
fn never_at(alloc: Global, value: &Value, space: Space) -> Result<Best, ReportFault>
    requires { IsSpace space }
    ensures { GivesKeyed best_view result (never_at (size_of space) (view value.now)) }
{
    match point_in(alloc, value, space) {
        Ok(point) => Ok(Best::Never(point)),
        Err(refusal) => Err(fault(refusal, Key::Point)),
    }
}

/// No least factor: a factor and two certificates.
#[tactic(auto, unfolding(crate::specs::FactorReading::unbounded_at))]
fn unbounded_at(alloc: Global, value: &Value) -> Result<Best, ReportFault>
    ensures { GivesKeyed best_view result (unbounded_at (view value.now)) }
{
    let Some((num, den)) = factor_at(value) else {
        return Err(ReportFault::Shape { key: Key::Factor });
    };
    match proofs_at(alloc, value) {
        Ok((proof, below)) => Ok(Best::Unbounded {
            num,
            den,
            proof,
            below,
        }),
        Err(refusal) => Err(fault(refusal, Key::Proofs)),
    }
}

/// The cause of factors that are undecided.
fn cause_at(value: &Value) -> Option<FactorCause>
    ensures { result ≡ option_and_then factor_cause_of (text_of (get (codes "cause") (view value.now))) }
{
    factor_cause_of(text_of_member(value.get("cause"))?)
}

/// The steps or the step of a cause.
fn steps_at(value: &Value) -> Option<u32>
    ensures { result ≡ steps_at (view value.now) }
{
    step_of(text_of_member(value.get("at"))?)
}

/// The number, unless it passes 8 bits.
fn byte_of(number: u32) -> Option<u8>
    ensures { result ≡ below (2 ^ 8) number }
{
    if number < 256 {
        Some(number as u8)
    } else {
        None
    }
}

/// The phase of a cause.
fn phase_at(value: &Value) -> Option<u8>
    ensures { result ≡ phase_at (view value.now) }
{
    byte_of(count_at(value.get("phase")?)?)
}

/// `cause` with its steps and its phase, where it has them.
fn cause_with(cause: FactorCause, steps: u32, phase: u8) -> BestCause
    ensures { result ≡ cause_with cause steps phase }
{
    match cause {
        FactorCause::Pivots => BestCause::Pivots { steps, part: phase },
        FactorCause::Width => BestCause::Width {
            step: steps,
            part: phase,
        },
        FactorCause::Scale => BestCause::Scale,
        FactorCause::Size => BestCause::Size,
    }
}

/// Undecided factors.
#[tactic(auto, unfolding(crate::specs::FactorReading::undecided_factor_at))]
fn undecided_at(value: &Value) -> Result<Best, ReportFault>
    ensures { GivesKeyed best_view result (undecided_factor_at (view value.now)) }
{
    let Some(cause) = cause_at(value) else {
        return Err(ReportFault::Shape { key: Key::Cause });
    };
    let Some(steps) = steps_at(value) else {
        return Err(ReportFault::Shape { key: Key::At });
    };
    match phase_at(value) {
        Some(phase) => Ok(Best::Undecided(cause_with(cause, steps, phase))),
        None => Err(ReportFault::Shape { key: Key::Phase }),
    }
}

/// What is found, by its kind.
fn best_at(
    alloc: Global,
    value: &Value,
    space: Space,
    kind: FactorKind,
) -> Result<Best, ReportFault>
    requires { IsSpace space }
    ensures { GivesKeyed best_view result (best_at (size_of space) kind (view value.now)) }
{
    match kind {
        FactorKind::Least => least_at(alloc, value, space),
        FactorKind::Never => never_at(alloc, value, space),
        FactorKind::Unbounded => unbounded_at(alloc, value),
        FactorKind::Undecided => undecided_at(value),
    }
}

/// Whether a question of this verb asks for factors.
fn asks_factor(verb: &Verb) -> bool
    ensures { result ≡ is_some (asked_by (verb_view verb.now)) }
{
    match verb {
        Verb::Prove(relation) => match relation.sign {
            Sign::AtLeast => true,
            Sign::AtMost | Sign::Equal => false,
        },
        Verb::Eliminate(_) | Verb::Contain { .. } => false,
    }
}

/// What is found of the factors that a question asks for.
pub fn question_best(
    alloc: Global,
    value: &Value,
    question: &Question,
    kind: FactorKind,
) -> Result<Best, ReportFault>
    ensures { GivesKeyed best_view result (verb_best question.now.body.names question.now.body.verb kind (view value.now)) }
{
    if asks_factor(question.verb()) {
        best_at(alloc, value, question.space(), kind)
    } else {
        Err(ReportFault::Shape { key: Key::Answer })
    }
}
