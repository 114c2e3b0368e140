//! The parts of answers as JSON values.
ghost use Rattle.std.specs.Prelude.{◌≡◌, [], codes, if◌then◌else◌, IfOk, filter, map, decimal, slice_index_or, IsAscii};
ghost use Rattle.serde_json.specs.Data.{string};
ghost use Rattle.serde_json.specs.View.{view};
ghost use Rattle.it_space.specs.Answers.{IfRate, certificate_view, is_nonzero_weight};
ghost use Rattle.it_certificate.specs.Values.{IsAsciiRate, cause_word, count_value, integer_value, list_value, pair_value, drop_value, step_or_rate_word, step_value, proof_value, row_value, unmarked_row_value};
ghost use Rattle.it_spans.specs.Drops.{drop_view};
ghost use Rattle.it_spans.specs.Spans.{step_view, step_views};

use crate::objects::Members;
use it_space::{Cause, Certificate, Mark, Row, VarSet, is_nonzero_weight};
use it_spans::{RowDrop, Step};
use it_syntax::Names;
use itoa::Buffer;
use serde_json::{Value, json};
use std::alloc::{AllocError, Global};

/// An integer as decimal text.
pub fn integer(alloc: Global, number: &i128) -> Result<Value, AllocError>
    ensures { IfOk result (λ v. view v ≡ integer_value number.now) }
{
    let mut buffer = Buffer::new();
    let text = buffer.format(*number);
    json!(in alloc; text)
}

/// The number of steps, or of one step, as decimal text.
pub fn step_number(alloc: Global, number: u32) -> Result<Value, AllocError>
    ensures { IfOk result (λ v. view v ≡ string (decimal number)) }
{
    let mut buffer = Buffer::new();
    let text = buffer.format(number);
    json!(in alloc; text)
}

/// A term or a weight: the number of its coordinate or generator, and its own number as text.
#[tactic(auto, unfolding(crate::specs::Values::pair_value))]
fn pair(alloc: Global, pair: &(u32, i128)) -> Result<Value, AllocError>
    ensures { IfOk result (λ v. view v ≡ pair_value pair.now) }
{
    let number = integer(alloc, &pair.1)?;
    json!(in alloc; [pair.0, number])
}

/// The weights other than 0.
fn weights(alloc: Global, weights: &[(u32, i128)]) -> Result<Value, AllocError>
    ensures { IfOk result (λ v. view v ≡ list_value pair_value (filter is_nonzero_weight weights.now)) }
{
    let mut values = Vec::new(alloc);
    for weight in weights {
        if is_nonzero_weight(weight) {
            values.push(pair(alloc, weight)?)?;
        }
    }
    Ok(Value::Array(values))
}

/// A certificate.
#[tactic(auto, unfolding(crate::specs::Values::proof_value))]
pub fn proof(alloc: Global, certificate: &Certificate) -> Result<Value, AllocError>
    ensures { IfOk result (λ v. view v ≡ proof_value (certificate_view certificate.now)) }
{
    let scale = integer(alloc, &certificate.scale)?;
    let members = Members::new(alloc).with(alloc, "scale", scale)?;
    let weights = weights(alloc, certificate.weights.as_slice())?;
    let members = members.with(alloc, "weights", weights)?;
    Ok(members.into_value())
}

/// Certificates in order.
pub fn proofs(alloc: Global, certificates: &[Certificate]) -> Result<Value, AllocError>
    ensures { IfOk result (λ v. view v ≡ list_value proof_value (map certificate_view certificates.now)) }
{
    let mut values = Vec::new(alloc);
    for certificate in certificates {
        values.push(proof(alloc, certificate)?)?;
    }
    Ok(Value::Array(values))
}

/// The values of a point.
pub fn integers(alloc: Global, numbers: &[i128]) -> Result<Value, AllocError>
    ensures { IfOk result (λ v. view v ≡ list_value integer_value numbers.now) }
{
    let mut values = Vec::new(alloc);
    for number in numbers {
        values.push(integer(alloc, number)?)?;
    }
    Ok(Value::Array(values))
}

/// The word of a side.
pub fn side_word(back: bool) -> &'static str
    ensures { result.now ≡ (if back then codes "back" else codes "forward") }
{
    if back { "back" } else { "forward" }
}

/// The terms of a row.
fn terms(alloc: Global, terms: &[(u32, i128)]) -> Result<Value, AllocError>
    ensures { IfOk result (λ v. view v ≡ list_value pair_value terms.now) }
{
    let mut values = Vec::new(alloc);
    for part in terms {
        values.push(pair(alloc, part)?)?;
    }
    Ok(Value::Array(values))
}

/// A row with its mark.
#[tactic(auto, unfolding(crate::specs::Values::row_value))]
fn row(alloc: Global, row: &(Mark, Row)) -> Result<Value, AllocError>
    ensures { IfOk result (λ v. view v ≡ row_value row.now) }
{
    let terms = terms(alloc, row.1.terms())?;
    let members = Members::new(alloc).with(alloc, "row", terms)?;
    let members = members.with_text(alloc, "mark", row.0.word())?;
    Ok(members.into_value())
}

/// The rows of a region.
pub fn rows(alloc: Global, rows: &[(Mark, Row)]) -> Result<Value, AllocError>
    ensures { IfOk result (λ v. view v ≡ list_value row_value rows.now) }
{
    let mut values = Vec::new(alloc);
    for marked in rows {
        values.push(row(alloc, marked)?)?;
    }
    Ok(Value::Array(values))
}

/// A row without a mark.
#[tactic(auto, unfolding(crate::specs::Values::unmarked_row_value))]
fn unmarked_row(alloc: Global, row: &Row) -> Result<Value, AllocError>
    ensures { IfOk result (λ v. view v ≡ unmarked_row_value row.now) }
{
    let terms = terms(alloc, row.terms())?;
    let members = Members::new(alloc).with(alloc, "row", terms)?;
    Ok(members.into_value())
}

/// The rows of an outer bound.
pub fn unmarked_rows(alloc: Global, rows: &[Row]) -> Result<Value, AllocError>
    ensures { IfOk result (λ v. view v ≡ list_value unmarked_row_value rows.now) }
{
    let mut values = Vec::new(alloc);
    for row in rows {
        values.push(unmarked_row(alloc, row)?)?;
    }
    Ok(Value::Array(values))
}

/// The index of a row.
fn row_number(alloc: Global, row: usize) -> Result<Value, AllocError>
    ensures { IfOk result (λ v. view v ≡ count_value row) }
{
    let number = row as u64;
    json!(in alloc; number)
}

/// A row that is dropped.
#[tactic(auto, unfolding(crate::specs::Values::drop_value))]
fn drop_value(alloc: Global, drop: &RowDrop) -> Result<Value, AllocError>
    ensures { IfOk result (λ v. view v ≡ drop_value (drop_view drop.now)) }
{
    let row = row_number(alloc, drop.row)?;
    let members = Members::new(alloc).with(alloc, "row", row)?;
    let scale = integer(alloc, &drop.proof.scale)?;
    let members = members.with(alloc, "scale", scale)?;
    let weights = weights(alloc, drop.proof.weights.as_slice())?;
    let members = members.with(alloc, "weights", weights)?;
    Ok(members.into_value())
}

/// Rows that are dropped, in order.
fn drops(alloc: Global, drops: &[RowDrop]) -> Result<Value, AllocError>
    ensures { IfOk result (λ v. view v ≡ list_value drop_value (map drop_view drops.now)) }
{
    let mut values = Vec::new(alloc);
    for row in drops {
        values.push(drop_value(alloc, row)?)?;
    }
    Ok(Value::Array(values))
}

/// A ray, and the rows that are dropped after it.
#[tactic(auto, unfolding(crate::specs::Values::step_value))]
fn step(alloc: Global, step: &Step) -> Result<Value, AllocError>
    ensures { IfOk result (λ v. view v ≡ step_value (step_view step.now)) }
{
    let drops = drops(alloc, step.drops.as_slice())?;
    let members = Members::new(alloc).with(alloc, "drops", drops)?;
    let point = integers(alloc, step.ray.values())?;
    let members = members.with(alloc, "point", point)?;
    Ok(members.into_value())
}

/// Rays in order, each with the rows that are dropped after it.
pub fn steps(alloc: Global, steps: &[Step]) -> Result<Value, AllocError>
    ensures { IfOk result (λ v. view v ≡ list_value step_value (step_views steps.now)) }
{
    let mut values = Vec::new(alloc);
    for one in steps {
        values.push(step(alloc, one)?)?;
    }
    Ok(Value::Array(values))
}

/// The number of a set.
fn set(alloc: Global, set: &VarSet) -> Result<Value, AllocError>
    ensures { IfOk result (λ v. view v ≡ count_value set.now) }
{
    let number = set.number() as u32;
    json!(in alloc; number)
}

/// The numbers of sets.
pub fn sets(alloc: Global, sets: &[VarSet]) -> Result<Value, AllocError>
    ensures { IfOk result (λ v. view v ≡ list_value count_value sets.now) }
{
    let mut values = Vec::new(alloc);
    for part in sets {
        values.push(set(alloc, part)?)?;
    }
    Ok(Value::Array(values))
}

/// The word of a cause.
pub fn cause_word(cause: Cause) -> &'static str
    ensures { result.now ≡ cause_word cause }
{
    match cause {
        Cause::Pivots(_) => "pivots",
        Cause::Width(_) | Cause::WideRate(_) => "width",
        Cause::Scale => "scale",
        Cause::Rows(_) => "rows",
    }
}

/// ASCII bytes as text.
pub fn ascii_text(bytes: &[u8]) -> &str
    requires { IsAscii bytes.now }
    ensures { result.now ≡ bytes.now }
{
    match std::str::from_utf8(bytes) {
        Ok(text) => text,
        Err(_) => unreachable!(),
    }
}

/// The name of a rate.
fn rate(alloc: Global, names: &Names, rate: u8) -> Result<Value, AllocError>
    requires { IsAsciiRate names.now rate }
    ensures { IfOk result (λ v. view v ≡ string (slice_index_or names.now.rates rate [])) }
{
    let name = ascii_text(names.rate_name(rate));
    json!(in alloc; name)
}

/// The step, budget or rate of a cause, as text.
pub fn step_or_rate_value(alloc: Global, names: &Names, cause: Cause) -> Result<Value, AllocError>
    requires { IfRate (IsAsciiRate names.now) cause }
    ensures { IfOk result (λ v. view v ≡ string (step_or_rate_word names.now cause)) }
{
    match cause {
        Cause::Pivots(steps) => step_number(alloc, steps),
        Cause::Width(number) => step_number(alloc, number),
        Cause::Scale => json!(in alloc; "0"),
        Cause::Rows(number) | Cause::WideRate(number) => rate(alloc, names, number),
    }
}
