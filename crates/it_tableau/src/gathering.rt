//! The rows of the start, gathered from the terms of the columns.
ghost use Rattle.std.specs.Prelude.{◌≡◌, ◌+◌, ◌<◌, [], ℕ, length, pos, slice_index_or, IfOk, OnOk};
ghost use Rattle.std.specs.Bool.{OnFalse, OnTrue};
ghost use Rattle.std.specs.Option.{IfNone, IfSome};
ghost use Rattle.it_space.specs.Rows.{IsCanonical};
ghost use Rattle.it_tableau.specs.Gathering.{row_terms_at, AreAppended, AreEmpty, AreGathered, IsEntryPut, IsListTaken};
ghost use Rattle.it_tableau.specs.Merging.{IsAppended};
ghost use Rattle.it_tableau.specs.Problems.{IsAscending};
ghost use Rattle.it_tableau.specs.SparseRows.{ListsEntries};
ghost use Rattle.it_tableau.specs.StartRows.{start_column, start_number, AreStartRows, IsStartRow, IsWholeRow};

use crate::merging::append;
use crate::sparse_rows::SparseRow;
use crate::start::start_entry;
use it_fraction::Fraction;
use it_space::Row;
use std::alloc::{AllocError, Global};
use std::marker::Model;

/// The terms of a row that have been gathered, by ascending column.
#[derive(Drop)]
struct TermList {
    terms: Vec<(usize, Fraction)>,
}

impl Model for TermList {
    ghost use Rattle.it_tableau.specs.SparseRows.{RowTerms};

    ghost Value = { RowTerms };

    ghost view = { λ l. l.terms.items };
}

impl TermList {
    /// No terms yet.
    fn empty(alloc: Global) -> TermList
        ensures { result ≡ [] }
    {
        TermList {
            terms: Vec::new(alloc),
        }
    }

    /// Appends the term `value` in `column`, unless `value` is 0.
    fn put(&mut self, column: usize, value: Fraction) -> Result<(), AllocError>
        ensures { OnOk result (IsAppended self.old column value self.new) }
    {
        append(&mut self.terms, column, value)?;
        Ok(())
    }

    /// Consumes the list and returns its terms.
    fn into_terms(self) -> Vec<(usize, Fraction)>
        ensures { result.items ≡ self }
    {
        self.terms
    }
}

/// Whether each coordinate is greater than the one before.
pub fn ascends(coordinates: &[u32]) -> bool
    ensures yes { OnTrue result (IsAscending coordinates.now) }
    ensures no { OnFalse result (¬ (IsAscending coordinates.now)) }
{
    for k in 1..coordinates.len() {
        if coordinates[k - 1] >= coordinates[k] {
            return false;
        }
    }
    true
}

/// The row of `coordinate`, if it has one.
pub fn place_of(coordinates: &[u32], coordinate: u32) -> Option<usize>
    requires { IsAscending coordinates.now }
    ensures some { IfSome result (λ k. (k < length coordinates.now) × (slice_index_or coordinates.now k 0 ≡ coordinate)) }
    ensures none { IfNone result ((k : ℕ) → k < length coordinates.now → ¬ (slice_index_or coordinates.now k 0 ≡ coordinate)) }
{
    match coordinates.binary_search(&coordinate) {
        Ok(k) => Some(k),
        Err(_) => None,
    }
}

/// The terms of column `j`.
fn terms_of_column(columns: &[Row], j: usize) -> &[(u32, i128)]
    requires { j < length columns.now }
    ensures value { result.now ≡ slice_index_or columns.now j [] }
    ensures canonical { IsCanonical result.now }
{
    columns[j].terms()
}

/// The coordinate of term `i`.
fn coordinate_at(terms: &[(u32, i128)], i: usize) -> u32
    requires { i < length terms.now }
    ensures { result ≡ (slice_index_or terms.now i (0, pos 0)).0 }
{
    terms[i].0
}

/// Appends the term `value` in `column` to those of row `k`, unless `value` is 0.
fn put_in(
    lists: &mut Vec<TermList>,
    k: usize,
    column: usize,
    value: Fraction,
) -> Result<(), AllocError>
    requires { k < length lists.old.items }
    ensures own { OnOk result (IsAppended (row_terms_at lists.old.items k) column value (row_terms_at lists.new.items k)) }
    ensures others { OnOk result (IsListTaken lists.old.items k lists.new.items) }
{
    lists[k].put(column, value)?;
    Ok(())
}

/// Appends the entry of column `j` at `coordinate` to the terms of the coordinate's row, if there is one.
fn put_term(
    lists: &mut Vec<TermList>,
    coordinates: &[u32],
    columns: &[Row],
    target: &Row,
    j: usize,
    coordinate: u32,
) -> Result<(), AllocError>
    requires ascending { IsAscending coordinates.now }
    requires count { length lists.old.items ≡ length coordinates.now }
    ensures { OnOk result (IsEntryPut coordinates.now (start_column coordinates.now columns.now target.now j) coordinate j lists.old.items lists.new.items) }
{
    if let Some(k) = place_of(coordinates, coordinate) {
        let entry = start_entry(coordinates, columns, target, k, j);
        put_in(lists, k, j, entry)?;
    }
    Ok(())
}

/// Appends the entries of column `j` to the terms of their rows.
fn put_column(
    lists: &mut Vec<TermList>,
    coordinates: &[u32],
    columns: &[Row],
    target: &Row,
    j: usize,
) -> Result<(), AllocError>
    requires ascending { IsAscending coordinates.now }
    requires count { length lists.old.items ≡ length coordinates.now }
    requires column { j < length columns.now }
    ensures { OnOk result (AreAppended coordinates.now (start_column coordinates.now columns.now target.now j) j lists.old.items lists.new.items) }
{
    let terms = terms_of_column(columns, j);
    // by index, since the invariant is about the first i terms
    for i in 0..terms.len() {
        put_term(
            lists,
            coordinates,
            columns,
            target,
            j,
            coordinate_at(terms, i),
        )?;
    }
    Ok(())
}

/// `count` lists without terms.
fn empty_lists(alloc: Global, count: usize) -> Result<Vec<TermList>, AllocError>
    ensures { IfOk result (λ lists. AreEmpty count lists.items) }
{
    let mut lists = Vec::with_capacity(alloc, count)?;
    for _ in 0..count {
        lists.push(TermList::empty(alloc))?;
    }
    Ok(lists)
}

/// The terms of each row at the columns that aren't artificial.
fn gather(
    alloc: Global,
    coordinates: &[u32],
    columns: &[Row],
    target: &Row,
) -> Result<Vec<TermList>, AllocError>
    requires { IsAscending coordinates.now }
    ensures { IfOk result (λ lists. AreGathered coordinates.now columns.now target.now (length columns.now) lists.items) }
{
    let mut lists = empty_lists(alloc, coordinates.len())?;
    for j in 0..columns.len() {
        put_column(&mut lists, coordinates, columns, target, j)?;
    }
    Ok(lists)
}

/// Row `k` with the gathered terms of `list`, its artificial column and its right side.
fn finished_row(
    coordinates: &[u32],
    columns: &[Row],
    target: &Row,
    k: usize,
    list: TermList,
) -> Result<SparseRow, AllocError>
    requires row { k < length coordinates.now }
    requires terms { ListsEntries (start_number coordinates.now columns.now target.now k) (length columns.now) list }
    ensures shows { IfOk result (IsStartRow coordinates.now columns.now target.now k) }
    ensures whole_numbers { OnOk result (IsWholeRow coordinates.now columns.now target.now k) }
{
    let artificial = columns.len() + k;
    let width = columns.len() + coordinates.len();
    let unit = start_entry(coordinates, columns, target, k, artificial);
    let right = start_entry(coordinates, columns, target, k, width);
    let mut terms = list.into_terms();
    append(&mut terms, artificial, unit)?;
    Ok(SparseRow::new(width, terms, right))
}

/// Takes out the terms of row `k`, leaving none in their place.
fn take_list(alloc: Global, lists: &mut Vec<TermList>, k: usize) -> TermList
    requires { k < length lists.old.items }
    ensures own { result ≡ row_terms_at lists.old.items k }
    ensures others { IsListTaken lists.old.items k lists.new.items }
{
    std::mem::replace(&mut lists[k], TermList::empty(alloc))
}

/// The rows of the start where the coordinates ascend: each column's terms are appended to their rows.
pub fn gathered_rows(
    alloc: Global,
    coordinates: &[u32],
    columns: &[Row],
    target: &Row,
) -> Result<Vec<SparseRow>, AllocError>
    requires { IsAscending coordinates.now }
    ensures { IfOk result (λ rows. AreStartRows coordinates.now columns.now target.now (length coordinates.now) rows.items) }
{
    let mut lists = gather(alloc, coordinates, columns, target)?;
    let mut rows = Vec::with_capacity(alloc, coordinates.len())?;
    for k in 0..coordinates.len() {
        let list = take_list(alloc, &mut lists, k);
        let row = finished_row(coordinates, columns, target, k, list)?;
        rows.push(row)?;
    }
    Ok(rows)
}
