//! The rows of a region, or of an outer bound, in a report.
ghost use Rattle.std.specs.Prelude.{◌≡◌, ◌==◌, ◌&&◌, nat_le, not, unsigned_abs, codes, option_and_then, All, IfOk};
ghost use Rattle.serde_json.specs.View.{view, items_view};
ghost use Rattle.serde_json.specs.Find.{get};
ghost use Rattle.it_number.specs.Limit.{IsWithin};
ghost use Rattle.it_certificate.specs.Parts.{all_of, is_row_between, list_at, marked_row_at, pair_at, row_of, rows_at, text_of, unmarked_row_at};
ghost use Rattle.it_certificate.specs.Bounds.{unmarked_rows_at};
ghost use Rattle.it_certificate.specs.Steps.{Yields};
ghost use Rattle.it_certificate.specs.Kinds.{mark_of};

use crate::keys::Refusal;
use crate::kinds::mark_of;
use crate::lists::{array_of, pairs_of_member};
use crate::members::text_of_member;
use it_space::{Mark, Row};
use serde_json::Value;
use std::alloc::Global;

/// Whether the coordinate is in a range and the coefficient isn't 0.
fn is_term_between(from: u64, size: u32, term: &(u32, i128)) -> bool
    ensures { result ≡ (nat_le from term.now.0 && (nat_le term.now.0 size && not (unsigned_abs term.now.1 == 0))) }
{
    from <= term.0 as u64 && (term.0 <= size && term.1 != 0)
}

/// Whether the coordinates ascend from 1 and go up to `size`, and no coefficient is 0.
fn is_row(terms: &[(u32, i128)], size: u32) -> bool
    ensures { result ≡ is_row_between 1 size terms.now }
{
    let mut from: u64 = 1;
    for term in terms {
        if !is_term_between(from, size, term) {
            return false;
        }
        from = term.0 as u64 + 1;
    }
    true
}

/// The row of `terms`, if they are those of a row over `size` coordinates.
fn row_of(terms: Vec<(u32, i128)>, size: u32) -> Option<Row>
    requires { All (λ t. IsWithin t.1) terms.items }
    ensures { result ≡ row_of size terms.items }
{
    if is_row(terms.as_slice(), size) {
        Some(Row::new(terms))
    } else {
        None
    }
}

/// The mark of a row.
fn mark_at(value: &Value) -> Option<Mark>
    ensures { result ≡ option_and_then mark_of (text_of (get (codes "mark") (view value.now))) }
{
    mark_of(text_of_member(value.get("mark"))?)
}

/// The terms of a row, each coefficient within the limit.
#[tactic(auto, using(crate::proofs::WithinLemmas::terms_within))]
fn terms_at(alloc: Global, value: &Value) -> Result<Vec<(u32, i128)>, Refusal>
    ensures terms { Yields (λ v. v.items) result (list_at pair_at (get (codes "row") (view value.now))) }
    ensures within { IfOk result (λ v. All (λ t. IsWithin t.1) v.items) }
{
    // named before it is answered, so that the contract of the call stands at the answer
    let terms = pairs_of_member(alloc, value.get("row"))?;
    Ok(terms)
}

/// A row over `size` coordinates, without a mark.
#[tactic(auto, unfolding(crate::specs::Parts::unmarked_row_at))]
fn unmarked_row_at(alloc: Global, value: &Value, size: u32) -> Result<Row, Refusal>
    ensures { Yields (λ r. r) result (unmarked_row_at size (view value.now)) }
{
    let terms = terms_at(alloc, value)?;
    match row_of(terms, size) {
        Some(row) => Ok(row),
        None => Err(Refusal::Shape),
    }
}

/// A row over `size` coordinates, with its mark.
#[tactic(auto, unfolding(crate::specs::Parts::marked_row_at))]
fn marked_row_at(alloc: Global, value: &Value, size: u32) -> Result<(Mark, Row), Refusal>
    ensures { Yields (λ r. r) result (marked_row_at size (view value.now)) }
{
    let Some(mark) = mark_at(value) else {
        return Err(Refusal::Shape);
    };
    let row = unmarked_row_at(alloc, value, size)?;
    Ok((mark, row))
}

/// Rows in order.
fn rows(alloc: Global, values: &[Value], size: u32) -> Result<Vec<(Mark, Row)>, Refusal>
    ensures { Yields (λ v. v.items) result (all_of (marked_row_at size) (items_view values.now)) }
{
    let mut out = Vec::new(alloc);
    for value in values {
        let row = marked_row_at(alloc, value, size)?;
        out.push(row)?;
    }
    Ok(out)
}

/// The rows of a region over a space with `size` coordinates.
#[tactic(auto, unfolding(crate::specs::Parts::rows_at))]
pub fn rows_at(alloc: Global, value: &Value, size: u32) -> Result<Vec<(Mark, Row)>, Refusal>
    ensures { Yields (λ v. v.items) result (rows_at size (view value.now)) }
{
    match array_of(value.get("rows")) {
        Some(values) => rows(alloc, values, size),
        None => Err(Refusal::Shape),
    }
}

/// Rows without marks, in order.
fn unmarked_rows(alloc: Global, values: &[Value], size: u32) -> Result<Vec<Row>, Refusal>
    ensures { Yields (λ v. v.items) result (all_of (unmarked_row_at size) (items_view values.now)) }
{
    let mut out = Vec::new(alloc);
    for value in values {
        let row = unmarked_row_at(alloc, value, size)?;
        out.push(row)?;
    }
    Ok(out)
}

/// The rows of an outer bound over a space with `size` coordinates.
#[tactic(auto, unfolding(crate::specs::Bounds::unmarked_rows_at))]
pub fn unmarked_rows_at(alloc: Global, value: &Value, size: u32) -> Result<Vec<Row>, Refusal>
    ensures { Yields (λ v. v.items) result (unmarked_rows_at size (view value.now)) }
{
    match array_of(value.get("rows")) {
        Some(values) => unmarked_rows(alloc, values, size),
        None => Err(Refusal::Shape),
    }
}
