//! The members of a report's object.
ghost use Rattle.std.specs.Prelude.{◌≡◌, map, option_map, codes, option_and_then};
ghost use Rattle.serde_json.specs.View.{view};
ghost use Rattle.serde_json.specs.Find.{get};
ghost use Rattle.std.specs.Option.{option_or};
ghost use Rattle.it_space.specs.Answers.{certificate_view};
ghost use Rattle.it_space.specs.Spaces.{IsSpace, size_of};
ghost use Rattle.it_space.specs.declared.answers.Cause.TheVariants.{WideRate, Width};
ghost use Rattle.it_certificate.specs.Parts.{answer_kind_at, back_at, cause_at, cause_kind_at, cause_of, certificates_of, count_at, origins_at, point_at, proofs_at, text_of};
ghost use Rattle.it_certificate.specs.Reports.{tells_misfit, tells_outer};
ghost use Rattle.it_certificate.specs.Steps.{Yields};

use crate::keys::Refusal;
use crate::kinds::{AnswerKind, CauseKind, answer_kind_of, back_of, cause_kind_of};
use crate::lists::{certificates_of_member, integers_of_member};
use crate::numbers::{count_at, step_of};
use it_space::{Cause, Certificate, Point, Space};
use it_syntax::Names;
use serde_json::Value;
use std::alloc::Global;

/// The text of a member.
pub fn text_of_member(value: Option<&Value>) -> Option<&str>
    ensures { option_map (λ s. s.now) result ≡ text_of (option_map (λ v. view v.now) value.entry) }
{
    value?.as_str()
}

/// The kind of the answer.
#[tactic(auto, unfolding(crate::specs::Parts::answer_kind_at))]
pub fn answer_kind_at(value: &Value) -> Option<AnswerKind>
    ensures { result ≡ answer_kind_at (view value.now) }
{
    answer_kind_of(text_of_member(value.get("answer"))?)
}

/// Whether the word of the answer is `misfit`.
#[tactic(auto, unfolding(crate::specs::Reports::tells_misfit))]
pub fn tells_misfit(value: &Value) -> bool
    ensures { result ≡ tells_misfit (view value.now) }
{
    match text_of_member(value.get("answer")) {
        Some(text) => text == "misfit",
        None => false,
    }
}

/// Whether the word of the answer is `outer`.
#[tactic(auto, unfolding(crate::specs::Reports::tells_outer))]
pub fn tells_outer(value: &Value) -> bool
    ensures { result ≡ tells_outer (view value.now) }
{
    match text_of_member(value.get("answer")) {
        Some(text) => text == "outer",
        None => false,
    }
}

/// The certificates of a member, `count` of them.
fn certificates_of(
    alloc: Global,
    value: Option<&Value>,
    count: usize,
) -> Result<Vec<Certificate>, Refusal>
    ensures { Yields (λ v. map certificate_view v.items) result (certificates_of count (option_map (λ v. view v.now) value.entry)) }
{
    let certificates = certificates_of_member(alloc, value)?;
    if certificates.len() == count {
        Ok(certificates)
    } else {
        Err(Refusal::Shape)
    }
}

/// The certificates that prove an answer, `count` of them.
#[tactic(auto, unfolding(crate::specs::Parts::proofs_at))]
pub fn proofs_at(alloc: Global, value: &Value, count: usize) -> Result<Vec<Certificate>, Refusal>
    ensures { Yields (λ v. map certificate_view v.items) result (proofs_at count (view value.now)) }
{
    certificates_of(alloc, value.get("proofs"), count)
}

/// The certificates that say from which lines rows come, `count` of them.
#[tactic(auto, unfolding(crate::specs::Parts::origins_at))]
pub fn origins_at(alloc: Global, value: &Value, count: usize) -> Result<Vec<Certificate>, Refusal>
    ensures { Yields (λ v. map certificate_view v.items) result (origins_at count (view value.now)) }
{
    certificates_of(alloc, value.get("origins"), count)
}

/// The values of a point, `count` of them.
#[tactic(auto, unfolding(crate::specs::Parts::point_at))]
fn point_at(alloc: Global, value: &Value, count: usize) -> Result<Vec<i128>, Refusal>
    ensures { Yields (λ v. v.items) result (point_at count (view value.now)) }
{
    let values = integers_of_member(alloc, value.get("point"))?;
    if values.len() == count {
        Ok(values)
    } else {
        Err(Refusal::Shape)
    }
}

/// A value for each coordinate of the space.
#[tactic(auto, using(crate::proofs::WithinLemmas::point_within, crate::proofs::WithinLemmas::point_length))]
pub fn point_in(alloc: Global, value: &Value, space: Space) -> Result<Point, Refusal>
    requires { IsSpace space }
    ensures { Yields (λ p. p) result (point_at (size_of space) (view value.now)) }
{
    let values = point_at(alloc, value, space.size() as usize)?;
    Ok(Point::new(space, values))
}

/// Whether the point violates the second target.
#[tactic(auto, unfolding(crate::specs::Parts::back_at))]
pub fn back_at(value: &Value, equality: bool) -> Option<bool>
    ensures { result ≡ back_at equality (view value.now) }
{
    back_of(text_of_member(value.get("side"))?, equality)
}

/// The kind of the cause.
#[tactic(auto, unfolding(crate::specs::Parts::cause_kind_at))]
pub fn cause_kind_at(value: &Value) -> Option<CauseKind>
    ensures { result ≡ cause_kind_at (view value.now) }
{
    cause_kind_of(text_of_member(value.get("cause"))?)
}

/// The cause `Width` of `step`, else `WideRate` of `rate`.
fn step_or_rate(step: Option<u32>, rate: Option<u8>) -> Option<Cause>
    ensures { result ≡ option_or (option_map Width step) (option_map WideRate rate) }
{
    match step {
        Some(step) => Some(Cause::Width(step)),
        None => Some(Cause::WideRate(rate?)),
    }
}

/// The cause of this kind at `place`: a budget, a step or a rate.
fn cause_of(names: &Names, kind: CauseKind, place: &str) -> Option<Cause>
    ensures { result ≡ cause_of names.now.rates kind place.now }
{
    match kind {
        CauseKind::Pivots => Some(Cause::Pivots(step_of(place)?)),
        CauseKind::Width => step_or_rate(step_of(place), names.rate(place.as_bytes())),
        CauseKind::Scale => match place {
            "0" => Some(Cause::Scale),
            _ => None,
        },
        CauseKind::Rows => Some(Cause::Rows(names.rate(place.as_bytes())?)),
    }
}

/// The cause of this kind, from the key `at`.
#[tactic(auto, unfolding(crate::specs::Parts::cause_at))]
pub fn cause_at(value: &Value, names: &Names, kind: CauseKind) -> Option<Cause>
    ensures { result ≡ cause_at names.now.rates kind (view value.now) }
{
    cause_of(names, kind, text_of_member(value.get("at"))?)
}

/// How many candidates were tried.
pub fn tried_at(value: &Value) -> Option<u32>
    ensures { result ≡ option_and_then count_at (get (codes "tried") (view value.now)) }
{
    count_at(value.get("tried")?)
}
