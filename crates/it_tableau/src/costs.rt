//! The cost row of the start.
//! The loops go by index, since their invariants are about the sums over the first i.
ghost use Rattle.std.specs.Prelude.{◌≡◌, ◌+◌, ◌-◌, ◌<◌, ℕ, length, IfErr, IfOk, OnErr, OnOk};
ghost use Rattle.it_rational.specs.Rational.{minus};
ghost use Rattle.it_fraction.specs.Fits.{SumFits};
ghost use Rattle.it_tableau.specs.Entries.{entry_at, row_at};
ghost use Rattle.it_tableau.specs.Rows.{column_sum, AreEven, ColumnFits, ColumnsFit, ListsValues};
ghost use Rattle.it_tableau.specs.SparseRows.{Climbs, ListsEntries};
ghost use Rattle.it_tableau.specs.Summing.{IsRowAdded, AreColumnSums, AreNarrow, IsNumberAdded, SumsFit};

use crate::merging::{append, column, narrow_number, term};
use crate::rows::read;
use crate::sparse_rows::SparseRow;
use it_fraction::{Fraction, Wide};
use it_space::RowFault;
use std::alloc::Global;

/// Adds `number` to the sum of `column`.
fn add_number(sums: &mut Vec<Fraction>, column: usize, number: Fraction) -> Result<(), Wide>
    requires { column < length sums.old.items }
    ensures ok { OnOk result (SumFits number (entry_at sums.old.items column)) }
    ensures value { OnOk result (IsNumberAdded sums.old.items column number sums.new.items) }
    ensures err { OnErr result (¬ (SumFits number (entry_at sums.old.items column))) }
{
    let sum = number.add(sums[column])?;
    sums[column] = narrow_number(sum);
    Ok(())
}

/// Adds a row's `terms`, without its right side, to the sums of their columns. A column in which the row has no term keeps its sum.
fn add_row(sums: &mut Vec<Fraction>, terms: &[(usize, Fraction)]) -> Result<(), Wide>
    requires terms { Climbs 0 (length sums.old.items) terms.now }
    requires narrow { AreNarrow sums.old.items }
    ensures ok { OnOk result (SumsFit terms.now sums.old.items) }
    ensures value { OnOk result (IsRowAdded terms.now sums.old.items sums.new.items) }
    ensures narrow { OnOk result (AreNarrow sums.new.items) }
    ensures err { OnErr result (¬ (SumsFit terms.now sums.old.items)) }
{
    for i in 0..terms.len() {
        add_number(sums, column(terms, i), term(terms, i))?;
    }
    Ok(())
}

/// The terms of row `i`.
fn terms_of(rows: &[SparseRow], i: usize) -> &[(usize, Fraction)]
    requires { i < length rows.now }
    ensures { ListsEntries (entry_at (row_at rows.now i)) (length (row_at rows.now i) - 1) result.now }
{
    rows[i].terms()
}

/// The sum of `column` so far.
fn sum_at(sums: &[Fraction], column: usize) -> Fraction
    requires { column < length sums.now }
    ensures { result ≡ entry_at sums.now column }
{
    sums[column]
}

/// The sum of each column, added in the order of the rows, without that of the right sides.
fn column_sums(alloc: Global, rows: &[SparseRow], width: usize) -> Result<Vec<Fraction>, RowFault>
    requires { AreEven rows.now (width + 1) }
    ensures ok { OnOk result ((j : ℕ) → j < width → ColumnFits rows.now j) }
    ensures value { IfOk result (λ sums. AreColumnSums rows.now width (length rows.now) sums.items) }
    ensures wide { IfErr result (λ fault. fault ≡ RowFault.Wide → ¬ ((j : ℕ) → j < width → ColumnFits rows.now j)) }
{
    let mut sums = Vec::from_elem(alloc, Fraction::whole(0), width)?;
    for i in 0..rows.len() {
        add_row(&mut sums, terms_of(rows, i))?;
    }
    Ok(sums)
}

/// The negated sum of column `j`, added in the order of the rows.
fn negated_sum(rows: &[SparseRow], j: usize) -> Result<Fraction, Wide>
    requires { (i : ℕ) → i < length rows.now → j < length (row_at rows.now i) }
    ensures ok { OnOk result (ColumnFits rows.now j) }
    ensures value { IfOk result (λ v. v ≡ minus (column_sum rows.now j (length rows.now))) }
    ensures err { OnErr result (¬ (ColumnFits rows.now j)) }
{
    let mut sum = Fraction::whole(0);
    for i in 0..rows.len() {
        sum = read(rows, i, j).add(sum)?;
    }
    Ok(sum.neg())
}

/// The negated sum of `rows`, which have `width` columns each.
pub fn cost_row(alloc: Global, rows: &[SparseRow], width: usize) -> Result<SparseRow, RowFault>
    requires { AreEven rows.now (width + 1) }
    ensures ok { OnOk result (ColumnsFit rows.now (width + 1)) }
    ensures value { IfOk result (λ row. ListsValues (λ j. minus (column_sum rows.now j (length rows.now))) (width + 1) row) }
    ensures wide { IfErr result (λ fault. fault ≡ RowFault.Wide → ¬ (ColumnsFit rows.now (width + 1))) }
{
    let sums = column_sums(alloc, rows, width)?;
    let mut terms = Vec::new(alloc);
    for j in 0..width {
        append(&mut terms, j, sum_at(sums.as_slice(), j).neg())?;
    }
    let right = negated_sum(rows, width)?;
    Ok(SparseRow::new(width, terms, right))
}
