//! The rows of the start.
ghost use Rattle.std.specs.Prelude.{◌≡◌, ◌+◌, ◌<◌, length, pos, slice_index_or, cond, IfOk, IfErr, OnOk, ℕ, ◌^◌, false};
ghost use Rattle.it_rational.specs.Rational.{is_at_least_zero, minus, times, integer};
ghost use Rattle.it_space.specs.Rows.{coefficient};
ghost use Rattle.it_tableau.specs.Rows.{IsWholeNumber};
ghost use Rattle.it_tableau.specs.StartRows.{start_number, AreAllRows, AreStartRows, IsStartRow, IsWholeRow};
ghost use Rattle.it_tableau.specs.TableauViews.{AreNegated, FitsStart};

use crate::costs::cost_row;
use crate::gathering::{ascends, gathered_rows};
use crate::merging::append;
use crate::sparse_rows::SparseRow;
use it_fraction::Fraction;
use it_space::{Row, RowFault};
use std::alloc::{AllocError, Global};

/// The coefficient of `row` at `coordinate`, as a fraction.
fn number(row: &Row, coordinate: u32) -> Fraction
    ensures value { result ≡ integer (coefficient row.now coordinate) }
    ensures whole_number { IsWholeNumber result }
{
    Fraction::whole(row.coefficient(coordinate))
}

/// Whether the start's row of `coordinate` keeps its sign: the target's coefficient isn't below 0.
pub fn keeps_sign(target: &Row, coordinate: u32) -> bool
    ensures { result ≡ is_at_least_zero (integer (coefficient target.now coordinate)) }
{
    if number(target, coordinate).is_negative() {
        false
    } else {
        true
    }
}

/// The coefficient of `row` at `coordinate`, negated unless `kept`.
fn signed_coefficient(row: &Row, coordinate: u32, kept: bool) -> Fraction
    ensures value { result ≡ times (cond kept (integer (pos 1)) (minus (integer (pos 1)))) (integer (coefficient row.now coordinate)) }
    ensures whole_number { IsWholeNumber result }
{
    let value = number(row, coordinate);
    if kept { value } else { value.neg() }
}

/// The start's entry of row `k` at column `j`: first are `columns`, then the artificial ones, then the right side.
#[tactic(auto, using(crate::proofs::WholeNumbers::zero_number, crate::proofs::WholeNumbers::one_number))]
pub fn start_entry(
    coordinates: &[u32],
    columns: &[Row],
    target: &Row,
    k: usize,
    j: usize,
) -> Fraction
    requires row { k < length coordinates.now }
    ensures value { result ≡ start_number coordinates.now columns.now target.now k j }
    ensures whole_number { IsWholeNumber result }
{
    let kept = keeps_sign(target, coordinates[k]);
    if j < columns.len() {
        signed_coefficient(&columns[j], coordinates[k], kept)
    } else if j == columns.len() + coordinates.len() {
        signed_coefficient(target, coordinates[k], kept)
    } else if j == columns.len() + k {
        Fraction::whole(1)
    } else {
        Fraction::whole(0)
    }
}

/// Row `k` of the start.
fn start_row(
    alloc: Global,
    coordinates: &[u32],
    columns: &[Row],
    target: &Row,
    k: usize,
) -> Result<SparseRow, AllocError>
    requires row { k < length coordinates.now }
    ensures shows { IfOk result (IsStartRow coordinates.now columns.now target.now k) }
    ensures whole_numbers { OnOk result (IsWholeRow coordinates.now columns.now target.now k) }
{
    let width = columns.len() + coordinates.len();
    let mut terms = Vec::new(alloc);
    for j in 0..width {
        append(
            &mut terms,
            j,
            start_entry(coordinates, columns, target, k, j),
        )?;
    }
    let right = start_entry(coordinates, columns, target, k, width);
    Ok(SparseRow::new(width, terms, right))
}

/// The rows of the start, entry by entry, for any coordinates.
fn rows_by_entries(
    alloc: Global,
    coordinates: &[u32],
    columns: &[Row],
    target: &Row,
) -> Result<Vec<SparseRow>, AllocError>
    ensures { IfOk result (λ rows. AreStartRows coordinates.now columns.now target.now (length coordinates.now) rows.items) }
{
    let mut rows = Vec::new(alloc);
    for k in 0..coordinates.len() {
        rows.push(start_row(alloc, coordinates, columns, target, k)?)?;
    }
    Ok(rows)
}

/// The rows of the start: gathered from the columns' terms if the coordinates ascend, else entry by entry.
fn start_rows(
    alloc: Global,
    coordinates: &[u32],
    columns: &[Row],
    target: &Row,
) -> Result<Vec<SparseRow>, AllocError>
    ensures { IfOk result (λ rows. AreStartRows coordinates.now columns.now target.now (length coordinates.now) rows.items) }
{
    if ascends(coordinates) {
        gathered_rows(alloc, coordinates, columns, target)
    } else {
        rows_by_entries(alloc, coordinates, columns, target)
    }
}

/// The numbers of `count` artificial columns, from `first` on: the basis of the start.
pub fn artificials(alloc: Global, first: usize, count: usize) -> Result<Vec<usize>, AllocError>
    requires { first + count < 2 ^ 64 }
    ensures count { IfOk result (λ basis. length basis.items ≡ count) }
    ensures value { IfOk result (λ basis. (i : ℕ) → i < count → slice_index_or basis.items i 0 ≡ first + i) }
{
    let mut basis = Vec::with_capacity(alloc, count)?;
    for i in 0..count {
        basis.push(first + i)?;
    }
    Ok(basis)
}

/// For each row of the start, whether it is negated.
pub fn negations(alloc: Global, coordinates: &[u32], target: &Row) -> Result<Vec<bool>, AllocError>
    ensures count { IfOk result (λ negated. length negated.items ≡ length coordinates.now) }
    ensures value { IfOk result (λ negated. AreNegated coordinates.now target.now negated.items) }
{
    let mut negated = Vec::with_capacity(alloc, coordinates.len())?;
    // by index, since the invariant is about the first k coordinates
    for k in 0..coordinates.len() {
        negated.push(!keeps_sign(target, coordinates[k]))?;
    }
    Ok(negated)
}

/// The rows of the start, the cost row last.
pub fn start_table(
    alloc: Global,
    coordinates: &[u32],
    columns: &[Row],
    target: &Row,
) -> Result<Vec<SparseRow>, RowFault>
    ensures ok { OnOk result (FitsStart coordinates.now columns.now target.now) }
    ensures value { IfOk result (λ rows. AreAllRows coordinates.now columns.now target.now rows.items) }
    ensures wide { IfErr result (λ fault. fault ≡ RowFault.Wide → ¬ (FitsStart coordinates.now columns.now target.now)) }
{
    let mut rows = start_rows(alloc, coordinates, columns, target)?;
    let cost = cost_row(alloc, rows.as_slice(), columns.len() + coordinates.len())?;
    rows.push(cost)?;
    Ok(rows)
}
