//! The outer bound of a report.
ghost use Rattle.std.specs.Prelude.{◌≡◌, ◌≤◌, codes, map, option_and_then, option_map};
ghost use Rattle.serde_json.specs.Find.{get};
ghost use Rattle.serde_json.specs.View.{items_view, view};
ghost use Rattle.it_space.specs.Spaces.{IsSpace, size_of};
ghost use Rattle.it_spans.specs.Drops.{drop_view};
ghost use Rattle.it_spans.specs.Spans.{step_view, step_views};
ghost use Rattle.it_demand.specs.QuestionSpaces.{space_of};
ghost use Rattle.it_question.specs.Questions.{verb_view};
ghost use Rattle.it_certificate.specs.Bounds.{bounds_at, bounds_view, drop_at, step_at, steps_at, verb_bounds};
ghost use Rattle.it_certificate.specs.Parts.{all_of, count_at, list_at};
ghost use Rattle.it_certificate.specs.Steps.{GivesKeyed, Yields};

use crate::answers::fault;
use crate::keys::{Key, Refusal, ReportFault};
use crate::lists::{array_of, certificate_at};
use crate::members::{point_in, proofs_at};
use crate::numbers::count_at;
use crate::rows::unmarked_rows_at;
use crate::types::ReportedBounds;
use it_question::types::{Question, Verb};
use it_space::Space;
use it_spans::{RowDrop, Step};
use serde_json::Value;
use std::alloc::Global;

/// The number of a row that is dropped.
fn number_at(value: &Value) -> Option<u32>
    ensures { result ≡ option_and_then count_at (get (codes "row") (view value.now)) }
{
    count_at(value.get("row")?)
}

/// A row that is dropped: its number, and a certificate.
#[tactic(auto, unfolding(crate::specs::Bounds::drop_at))]
fn drop_at(alloc: Global, value: &Value) -> Result<RowDrop, Refusal>
    ensures { Yields drop_view result (drop_at (view value.now)) }
{
    let Some(row) = number_at(value) else {
        return Err(Refusal::Shape);
    };
    let proof = certificate_at(alloc, value)?;
    Ok(RowDrop {
        row: row as usize,
        proof,
    })
}

/// Rows that are dropped, in order.
fn drops(alloc: Global, values: &[Value]) -> Result<Vec<RowDrop>, Refusal>
    ensures { Yields (λ v. map drop_view v.items) result (all_of drop_at (items_view values.now)) }
{
    let mut out = Vec::new(alloc);
    for value in values {
        let row = drop_at(alloc, value)?;
        out.push(row)?;
    }
    Ok(out)
}

/// The rows that are dropped, from a member.
fn drops_of_member(alloc: Global, value: Option<&Value>) -> Result<Vec<RowDrop>, Refusal>
    ensures { Yields (λ v. map drop_view v.items) result (list_at drop_at (option_map (λ v. view v.now) value.entry)) }
{
    match array_of(value) {
        Some(values) => drops(alloc, values),
        None => Err(Refusal::Shape),
    }
}

/// A ray, and the rows that are dropped after it.
#[tactic(auto, unfolding(crate::specs::Bounds::step_at))]
fn step_at(alloc: Global, value: &Value, space: Space) -> Result<Step, Refusal>
    requires { IsSpace space }
    ensures { Yields step_view result (step_at (size_of space) (view value.now)) }
{
    let ray = point_in(alloc, value, space)?;
    let drops = drops_of_member(alloc, value.get("drops"))?;
    Ok(Step { ray, drops })
}

/// Rays in order.
fn steps(alloc: Global, values: &[Value], space: Space) -> Result<Vec<Step>, Refusal>
    requires { IsSpace space }
    ensures { Yields (λ v. step_views v.items) result (all_of (step_at (size_of space)) (items_view values.now)) }
{
    let mut out = Vec::new(alloc);
    for value in values {
        let step = step_at(alloc, value, space)?;
        out.push(step)?;
    }
    Ok(out)
}

/// The rays.
#[tactic(auto, unfolding(crate::specs::Bounds::steps_at))]
fn steps_at(alloc: Global, value: &Value, space: Space) -> Result<Vec<Step>, Refusal>
    requires { IsSpace space }
    ensures { Yields (λ v. step_views v.items) result (steps_at (size_of space) (view value.now)) }
{
    match array_of(value.get("rays")) {
        Some(values) => steps(alloc, values, space),
        None => Err(Refusal::Shape),
    }
}

/// An outer bound over a space: its rows, a certificate of each, and its rays.
#[tactic(auto, unfolding(crate::specs::Bounds::bounds_at))]
fn bounds_at(alloc: Global, value: &Value, space: Space) -> Result<ReportedBounds, ReportFault>
    requires { IsSpace space }
    ensures { GivesKeyed bounds_view result (bounds_at (size_of space) (view value.now)) }
{
    let rows = match unmarked_rows_at(alloc, value, space.size()) {
        Ok(rows) => rows,
        Err(refusal) => return Err(fault(refusal, Key::Rows)),
    };
    let proofs = match proofs_at(alloc, value, rows.len()) {
        Ok(proofs) => proofs,
        Err(refusal) => return Err(fault(refusal, Key::Proofs)),
    };
    match steps_at(alloc, value, space) {
        Ok(steps) => Ok(ReportedBounds {
            rows,
            proofs,
            steps,
        }),
        Err(refusal) => Err(fault(refusal, Key::Rays)),
    }
}

/// The outer bound of a question, if it asks to eliminate rates.
pub fn question_bounds(
    alloc: Global,
    value: &Value,
    question: &Question,
) -> Result<ReportedBounds, ReportFault>
    ensures { GivesKeyed bounds_view result (verb_bounds question.now.body.names question.now.body.verb (view value.now)) }
{
    match question.verb() {
        Verb::Eliminate(_) => bounds_at(alloc, value, question.space()),
        Verb::Prove(_) | Verb::Contain { .. } => Err(ReportFault::Shape { key: Key::Answer }),
    }
}
