//! The lists of a report.
ghost use Rattle.std.specs.Prelude.{◌≡◌, map, option_and_then, option_map};
ghost use Rattle.serde_json.specs.Find.{as_array};
ghost use Rattle.serde_json.specs.View.{view, items_view};
ghost use Rattle.it_space.specs.Answers.{certificate_view};
ghost use Rattle.it_certificate.specs.Parts.{all_of, certificate_at, list_at, pair_at, two_of, integer_at};
ghost use Rattle.it_certificate.specs.Steps.{Yields};

use crate::keys::Refusal;
use crate::numbers::{count_at, integer_at};
use it_space::Certificate;
use serde_json::Value;
use std::alloc::Global;

/// The two values of a pair.
pub fn two_values(values: &[Value]) -> Option<(&Value, &Value)>
    ensures { option_map (λ p. (view p.0.now, view p.1.now)) result ≡ two_of (items_view values.now) }
{
    match values {
        [a, b] => Some((a, b)),
        _ => None,
    }
}

/// A number and a decimal text: a term or a weight.
#[tactic(auto, unfolding(crate::specs::Parts::pair_at))]
fn pair_at(value: &Value) -> Option<(u32, i128)>
    ensures { result ≡ pair_at (view value.now) }
{
    let values = value.as_array()?;
    let (number, weight) = two_values(values.as_slice())?;
    let number = count_at(number)?;
    let weight = integer_at(weight)?;
    Some((number, weight))
}

/// Pairs in order.
fn pairs(alloc: Global, values: &[Value]) -> Result<Vec<(u32, i128)>, Refusal>
    ensures { Yields (λ v. v.items) result (all_of pair_at (items_view values.now)) }
{
    let mut out = Vec::new(alloc);
    for value in values {
        let Some(pair) = pair_at(value) else {
            return Err(Refusal::Shape);
        };
        out.push(pair)?;
    }
    Ok(out)
}

/// Integers in order.
fn integers(alloc: Global, values: &[Value]) -> Result<Vec<i128>, Refusal>
    ensures { Yields (λ v. v.items) result (all_of integer_at (items_view values.now)) }
{
    let mut out = Vec::new(alloc);
    for value in values {
        let Some(integer) = integer_at(value) else {
            return Err(Refusal::Shape);
        };
        out.push(integer)?;
    }
    Ok(out)
}

/// The items of a member that is an array.
pub fn array_of(value: Option<&Value>) -> Option<&[Value]>
    ensures { option_map (λ s. items_view s.now) result ≡ option_and_then as_array (option_map (λ v. view v.now) value.entry) }
{
    Some(value?.as_array()?.as_slice())
}

/// The pairs of a member.
pub fn pairs_of_member(alloc: Global, value: Option<&Value>) -> Result<Vec<(u32, i128)>, Refusal>
    ensures { Yields (λ v. v.items) result (list_at pair_at (option_map (λ v. view v.now) value.entry)) }
{
    match array_of(value) {
        Some(values) => pairs(alloc, values),
        None => Err(Refusal::Shape),
    }
}

/// The integers of a member.
pub fn integers_of_member(alloc: Global, value: Option<&Value>) -> Result<Vec<i128>, Refusal>
    ensures { Yields (λ v. v.items) result (list_at integer_at (option_map (λ v. view v.now) value.entry)) }
{
    match array_of(value) {
        Some(values) => integers(alloc, values),
        None => Err(Refusal::Shape),
    }
}

/// The integer of a member.
fn integer_of_member(value: Option<&Value>) -> Option<i128>
    ensures { result ≡ option_and_then integer_at (option_map (λ v. view v.now) value.entry) }
{
    integer_at(value?)
}

/// A certificate: a scale and weights.
#[tactic(auto, unfolding(crate::specs::Parts::certificate_at))]
pub fn certificate_at(alloc: Global, value: &Value) -> Result<Certificate, Refusal>
    ensures { Yields certificate_view result (certificate_at (view value.now)) }
{
    let Some(scale) = integer_of_member(value.get("scale")) else {
        return Err(Refusal::Shape);
    };
    let weights = pairs_of_member(alloc, value.get("weights"))?;
    Ok(Certificate { scale, weights })
}

/// Certificates in order.
fn certificates(alloc: Global, values: &[Value]) -> Result<Vec<Certificate>, Refusal>
    ensures { Yields (λ v. map certificate_view v.items) result (all_of certificate_at (items_view values.now)) }
{
    let mut out = Vec::new(alloc);
    for value in values {
        let certificate = certificate_at(alloc, value)?;
        out.push(certificate)?;
    }
    Ok(out)
}

/// The certificates of a member.
pub fn certificates_of_member(
    alloc: Global,
    value: Option<&Value>,
) -> Result<Vec<Certificate>, Refusal>
    ensures { Yields (λ v. map certificate_view v.items) result (list_at certificate_at (option_map (λ v. view v.now) value.entry)) }
{
    match array_of(value) {
        Some(values) => certificates(alloc, values),
        None => Err(Refusal::Shape),
    }
}
