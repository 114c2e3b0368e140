//! The engine of the start of a run, read off the rows of a question.
//! The loops go by index, since their invariants are about the results for the first items.
ghost use Rattle.std.specs.Prelude.{◌≡◌, ◌+◌, ◌<◌, ◌≤◌, ◌^◌, ◌++◌, ◌∷◌, [], cond, neg_ℤ, pos, unsigned_abs, length, replicate, slice_index_or, IfOk, OnOk};
ghost use Rattle.std.specs.Bool.{OnTrue};
ghost use Rattle.std.specs.Option.{IfSome};
ghost use Rattle.it_space.specs.Rows.{coefficient};
ghost use Rattle.it_tableau.specs.Problems.{IsAscending};
ghost use Rattle.it_engine.specs.Loading.{right_size, right_sum, AreReadColumns, AreReadRows, IsColumnOf, IsNorm, IsReadRow, IsTermPut};
ghost use Rattle.it_number.specs.Limit.{signed_limit};

use it_space::Row;
use it_tableau::{keeps_sign, place_of};
use it_vectors::{narrow, short_sum};
use it_whole::{Column, WholeRow};
use std::alloc::{AllocError, Global};

/// The largest number of the engine, 2^63 - 1.
const LARGEST: u64 = i64::MAX as u64;

/// `number`, negated unless `kept`; `None` if it is above `limit` in absolute value.
fn signed_number(number: i128, kept: bool, limit: u64) -> Option<i64>
    requires { limit < signed_limit }
    ensures { IfSome result (λ z. (z ≡ cond kept number (neg_ℤ number)) × (unsigned_abs z ≤ limit)) }
{
    let short = narrow(number, limit)?;
    if kept { Some(short) } else { Some(-short) }
}

/// The coordinate of term `i`.
fn coordinate_at(terms: &[(u32, i128)], i: usize) -> u32
    requires { i < length terms.now }
    ensures { result ≡ (slice_index_or terms.now i (0, pos 0)).0 }
{
    terms[i].0
}

/// The coefficient of term `i`.
fn coefficient_at(terms: &[(u32, i128)], i: usize) -> i128
    requires { i < length terms.now }
    ensures { result ≡ (slice_index_or terms.now i (0, pos 0)).1 }
{
    terms[i].1
}

/// Appends to `column` the entry `number`, with the row's sign, in the row of `coordinate`, if there is such a row. `false` if it is
/// too large.
fn put_term(
    column: &mut Column,
    coordinates: &[u32],
    target: &Row,
    coordinate: u32,
    number: i128,
) -> Result<bool, AllocError>
    requires { IsAscending coordinates.now }
    ensures { IfOk result (λ short. OnTrue short (IsTermPut coordinates.now target.now coordinate number column.old column.new)) }
{
    let Some(row) = place_of(coordinates, coordinate) else {
        return Ok(true);
    };
    let Some(short) = signed_number(number, keeps_sign(target, coordinate), LARGEST) else {
        return Ok(false);
    };
    column.push_entry(row, short)?;
    Ok(true)
}

/// The terms of generator `j`.
fn terms_of(generators: &[Row], j: usize) -> &[(u32, i128)]
    requires { j < length generators.now }
    ensures { result.now ≡ slice_index_or generators.now j [] }
{
    generators[j].terms()
}

/// The column of the coefficients of generator `j`. `None` if one is too large.
fn read_column(
    alloc: Global,
    coordinates: &[u32],
    generators: &[Row],
    target: &Row,
    j: usize,
) -> Result<Option<Column>, AllocError>
    requires ascending { IsAscending coordinates.now }
    requires generator { j < length generators.now }
    ensures { IfOk result (λ o. IfSome o (λ column. IsColumnOf coordinates.now target.now (slice_index_or generators.now j []) column)) }
{
    let terms = terms_of(generators, j);
    let mut column = Column::empty(alloc);
    for i in 0..terms.len() {
        let coordinate = coordinate_at(terms, i);
        let number = coefficient_at(terms, i);
        let short = put_term(&mut column, coordinates, target, coordinate, number)?;
        if !short {
            return Ok(None);
        }
    }
    Ok(Some(column))
}

/// The columns of the start that aren't artificial. `None` if a number is too large.
pub fn columns(
    alloc: Global,
    coordinates: &[u32],
    generators: &[Row],
    target: &Row,
) -> Result<Option<Vec<Column>>, AllocError>
    requires { IsAscending coordinates.now }
    ensures { IfOk result (λ o. IfSome o (λ columns. AreReadColumns coordinates.now generators.now target.now columns.items)) }
{
    let mut columns = Vec::with_capacity(alloc, generators.len())?;
    for j in 0..generators.len() {
        let Some(column) = read_column(alloc, coordinates, generators, target, j)? else {
            return Ok(None);
        };
        columns.push(column)?;
    }
    Ok(Some(columns))
}

/// The greatest weight of the columns, at least 1. `None` if one isn't below 2^63.
pub fn norm(columns: &[Column]) -> Option<u64>
    ensures { IfSome result (λ norm. IsNorm columns.now norm) }
{
    let mut norm: u64 = 1;
    for j in 0..columns.len() {
        let weight = columns[j].weight()?;
        if norm < weight {
            norm = weight;
        }
    }
    Some(norm)
}

/// The right side of row `k`, which is the absolute value of the target's coefficient; `None` if it is above `limit`.
fn right_side(coordinates: &[u32], target: &Row, k: usize, limit: u64) -> Option<u64>
    requires row { k < length coordinates.now }
    requires limit { limit < signed_limit }
    ensures { IfSome result (λ right. (right ≡ right_size coordinates.now target.now k) × (right ≤ limit)) }
{
    let size = narrow(target.coefficient(coordinates[k]), limit)?;
    Some(size.unsigned_abs())
}

/// The sum of the right sides; `None` if it is above `limit`.
fn sum_of_rights(coordinates: &[u32], target: &Row, limit: u64) -> Option<u64>
    requires { limit < signed_limit }
    ensures { IfSome result (λ sum. (sum ≡ right_sum coordinates.now target.now (length coordinates.now)) × (sum ≤ limit)) }
{
    let mut sum: u64 = 0;
    for k in 0..coordinates.len() {
        sum = short_sum(right_side(coordinates, target, k, limit)?, sum)?;
    }
    if sum <= limit { Some(sum) } else { None }
}

/// `count` copies of `number`.
fn equal_numbers(alloc: Global, number: i64, count: usize) -> Result<Vec<i64>, AllocError>
    ensures { IfOk result (λ v. v.items ≡ replicate count number) }
{
    let numbers = Vec::from_elem(alloc, number, count)?;
    Ok(numbers)
}

/// `size` as a signed number.
fn signed(size: u64) -> i64
    requires { size < signed_limit }
    ensures { result ≡ pos size }
{
    size as i64
}

/// -`size`.
fn negated(size: u64) -> i64
    requires { size < signed_limit }
    ensures { result ≡ neg_ℤ (pos size) }
{
    -(size as i64)
}

/// Row `k` of the start: 1 at its artificial column, 0 at the others, and its right side. `None` if that is above `limit`.
fn unit_row(
    alloc: Global,
    coordinates: &[u32],
    target: &Row,
    k: usize,
    limit: u64,
) -> Result<Option<WholeRow>, AllocError>
    requires row { k < length coordinates.now }
    requires limit { limit < signed_limit }
    requires some { 1 ≤ limit }
    ensures { IfOk result (λ o. IfSome o (λ row. IsReadRow coordinates.now target.now limit k row)) }
{
    let Some(right) = right_side(coordinates, target, k, limit) else {
        return Ok(None);
    };
    let last = signed(right);
    let mut numbers = equal_numbers(alloc, 0, coordinates.len() + 1)?;
    numbers[k] = 1;
    numbers[coordinates.len()] = last;
    Ok(Some(WholeRow::from_numbers(numbers)))
}

/// The cost row of the start: -1 at each artificial column, and the negation of `sum`, the sum of the right sides.
fn cost_row(
    alloc: Global,
    coordinates: &[u32],
    target: &Row,
    sum: u64,
    limit: u64,
) -> Result<WholeRow, AllocError>
    requires sum { sum ≡ right_sum coordinates.now target.now (length coordinates.now) }
    requires within { sum ≤ limit }
    requires limit { limit < signed_limit }
    requires some { 1 ≤ limit }
    ensures { IfOk result (λ row. IsReadRow coordinates.now target.now limit (length coordinates.now) row) }
{
    let last = negated(sum);
    let mut numbers = equal_numbers(alloc, -1, coordinates.len() + 1)?;
    numbers[coordinates.len()] = last;
    Ok(WholeRow::from_numbers(numbers))
}

/// The rows of the start, the cost row last. `None` if one of their numbers is above `limit` in absolute value.
pub fn rows(
    alloc: Global,
    coordinates: &[u32],
    target: &Row,
    limit: u64,
) -> Result<Option<Vec<WholeRow>>, AllocError>
    requires height { length coordinates.now < 2 ^ 16 }
    requires limit { limit < signed_limit }
    requires some { 1 ≤ limit }
    ensures rows { IfOk result (λ o. IfSome o (λ rows. AreReadRows coordinates.now target.now limit (length coordinates.now + 1) rows.items)) }
    ensures rights { IfOk result (λ o. IfSome o (λ rows. right_sum coordinates.now target.now (length coordinates.now) ≤ limit)) }
{
    let Some(sum) = sum_of_rights(coordinates, target, limit) else {
        return Ok(None);
    };
    let mut rows = Vec::with_capacity(alloc, coordinates.len() + 1)?;
    for k in 0..coordinates.len() {
        let Some(row) = unit_row(alloc, coordinates, target, k, limit)? else {
            return Ok(None);
        };
        rows.push(row)?;
    }
    rows.push(cost_row(alloc, coordinates, target, sum, limit)?)?;
    Ok(Some(rows))
}
