//! The tableau.
ghost use Rattle.std.specs.Prelude.{◌≡◌, ◌+◌, ◌<◌, false, true, IfErr, IfOk, OkIff, OnErr, OnOk};
ghost use Rattle.it_fraction.specs.Fits.{IsNarrow};
ghost use Rattle.it_tableau.specs.Operations.{rationals};
ghost use Rattle.it_tableau.specs.Fits.{PivotFits};
ghost use Rattle.it_tableau.specs.SparseRows.{ListsEntries};
ghost use Rattle.it_tableau.specs.TableauViews.{height, row_ratio, row_sign, table, width, FitsStart, IsPositive, IsStart, KeepsFrame};
ghost use Rattle.it_tableau.specs.SimplexTables.{pivot, ratio};

use crate::rows::{pivot_rows, read};
use crate::sparse_rows::SparseRow;
use crate::start::{artificials, negations, start_table};
use it_fraction::{Fraction, Wide};
use it_space::{Row, RowFault};
use std::alloc::Global;
use std::marker::Model;

/// A table of the simplex method for a feasibility problem, in exact fractions.
pub struct Tableau {
    alloc: Global,
    generator_columns: usize,
    width: usize,
    rows: Vec<SparseRow>,
    basis: Vec<usize>,
    negated: Vec<bool>,
    spent: bool,
}

impl Drop for Tableau {
    fn drop(self) {
        let Tableau {
            alloc: _,
            generator_columns: _,
            width: _,
            rows: _,
            basis: _,
            negated: _,
            spent: _,
        } = self;
    }
}

impl Model for Tableau {
    ghost use Rattle.std.specs.Prelude.{◌≡◌, false};
    ghost use Rattle.it_tableau.specs.TableauViews.{TableauView, IsSound};

    ghost Value = { TableauView };

    ghost view = { λ t. record { generator_columns = t.generator_columns; rows = t.rows.items; basis = t.basis.items; negated = t.negated.items; spent = t.spent } };

    ghost invariant = { λ t. t.spent ≡ false → IsSound t.generator_columns t.width t.rows.items t.basis.items t.negated.items };
}

impl Tableau {
    /// The start by the coefficients of `columns` and `target` at `coordinates`: a row for each coordinate in order, negated where the
    /// target's coefficient is below 0, and a column for each of `columns` in order. The coordinates should ascend and include all at
    /// which these have coefficients: others are left out. `Wide` if a partial sum of the cost row passes the limit.
    pub fn start(
        alloc: Global,
        coordinates: &[u32],
        columns: &[Row],
        target: &Row,
    ) -> Result<Tableau, RowFault>
        ensures ok { OnOk result (FitsStart coordinates.now columns.now target.now) }
        ensures value { IfOk result (λ t. IsStart coordinates.now columns.now target.now t) }
        ensures wide { IfErr result (λ fault. fault ≡ RowFault.Wide → ¬ (FitsStart coordinates.now columns.now target.now)) }
    {
        let rows = start_table(alloc, coordinates, columns, target)?;
        let basis = artificials(alloc, columns.len(), coordinates.len())?;
        let negated = negations(alloc, coordinates, target)?;
        Ok(Tableau {
            alloc,
            generator_columns: columns.len(),
            width: columns.len() + coordinates.len(),
            rows,
            basis,
            negated,
            spent: false,
        })
    }

    /// The number of rows, without the cost row.
    pub fn rows(&self) -> usize
        requires usable { self.now.spent ≡ false }
        ensures { result ≡ height self.now }
    {
        self.basis.len()
    }

    /// The number of columns, the artificial ones included.
    pub fn columns(&self) -> usize
        requires usable { self.now.spent ≡ false }
        ensures { result ≡ width self.now }
    {
        self.width
    }

    /// The number of columns that aren't artificial. These come first.
    pub fn generator_columns(&self) -> usize
        requires usable { self.now.spent ≡ false }
        ensures { result ≡ self.now.generator_columns }
    {
        self.generator_columns
    }

    /// The column that is basic in `row`.
    pub fn basic(&self, row: usize) -> usize
        requires usable { self.now.spent ≡ false }
        requires row { row < height self.now }
        ensures { result ≡ (table self.now).basis row }
    {
        self.basis[row]
    }

    /// The sign by which `row` was multiplied at the start: -1 or 1.
    pub fn sign(&self, row: usize) -> i8
        requires usable { self.now.spent ≡ false }
        requires row { row < height self.now }
        ensures { result ≡ row_sign self.now row }
    {
        if self.negated[row] { -1 } else { 1 }
    }

    /// The entry of `row` at `column`.
    pub fn entry(&self, row: usize, column: usize) -> Fraction
        requires usable { self.now.spent ≡ false }
        requires row { row < height self.now }
        requires column { column < width self.now }
        ensures { result ≡ (table self.now).entry row column }
    {
        read(self.rows.as_slice(), row, column)
    }

    /// The nonzero entries of `row`, each after its column, by ascending column, without the right side.
    pub fn terms(&self, row: usize) -> &[(usize, Fraction)]
        requires usable { self.now.spent ≡ false }
        requires row { row < height self.now }
        ensures { ListsEntries ((table self.now).entry row) (width self.now) result.now }
    {
        self.rows[row].terms()
    }

    /// The right side of `row`.
    pub fn rhs(&self, row: usize) -> Fraction
        requires usable { self.now.spent ≡ false }
        requires row { row < height self.now }
        ensures { result ≡ (table self.now).entry row (width self.now) }
    {
        read(self.rows.as_slice(), row, self.width)
    }

    /// The entry of the cost row at `column`.
    pub fn cost(&self, column: usize) -> Fraction
        requires usable { self.now.spent ≡ false }
        requires column { column < width self.now }
        ensures { result ≡ (table self.now).entry (height self.now) column }
    {
        read(self.rows.as_slice(), self.basis.len(), column)
    }

    /// The right side of the cost row.
    pub fn cost_rhs(&self) -> Fraction
        requires usable { self.now.spent ≡ false }
        ensures { result ≡ (table self.now).entry (height self.now) (width self.now) }
    {
        read(self.rows.as_slice(), self.basis.len(), self.width)
    }

    /// The right side of `row` divided by its entry at `column`, which is above 0; `Wide` if the quotient passes the limit.
    #[tactic(auto, using(crate::proofs::Positive::positive_some))]
    pub fn ratio(&self, row: usize, column: usize) -> Result<Fraction, Wide>
        requires usable { self.now.spent ≡ false }
        requires row { row < height self.now }
        requires column { column < width self.now }
        requires positive { IsPositive ((table self.now).entry row column) }
        ensures { OkIff result (IsNarrow (row_ratio self.now column row)) (row_ratio self.now column row) }
    {
        self.rhs(row).div(self.entry(row, column))
    }

    /// Makes `column` basic in `row`, whose entry there is above 0. `Wide` if a number of the pivot passes the limit. After an error the
    /// tableau is spent: it can only be dropped.
    pub fn pivot(&mut self, row: usize, column: usize) -> Result<(), RowFault>
        requires usable { self.old.spent ≡ false }
        requires row { row < height self.old }
        requires column { column < width self.old }
        requires positive { IsPositive ((table self.old).entry row column) }
        ensures ok { OnOk result (PivotFits (height self.old) self.old.generator_columns (table self.old) row column) }
        ensures value { OnOk result (table self.new ≡ pivot rationals (table self.old) row column) }
        ensures usable { OnOk result (self.new.spent ≡ false) }
        ensures frame { KeepsFrame self.old self.new }
        ensures wide { IfErr result (λ fault. fault ≡ RowFault.Wide → ¬ (PivotFits (height self.old) self.old.generator_columns (table self.old) row column)) }
        ensures spent { OnErr result (self.new.spent ≡ true) }
    {
        match pivot_rows(self.alloc, self.rows.as_mut_slice(), row, column) {
            Ok(()) => {
                self.basis[row] = column;
                Ok(())
            }
            Err(fault) => {
                self.spent = true;
                Err(fault)
            }
        }
    }
}
