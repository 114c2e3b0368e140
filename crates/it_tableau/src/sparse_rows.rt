//! Rows of the table without their zeros.
ghost use Rattle.std.specs.Prelude.{◌≡◌, ◌≢◌, ◌-◌, ◌<◌, [], length, pos, slice_index_or, IfErr, OnOk};
ghost use Rattle.it_rational.specs.Rational.{inverse, times, integer};
ghost use Rattle.it_tableau.specs.Merging.{AreDivided, TermQuotientsFit};
ghost use Rattle.it_tableau.specs.Entries.{entry_at, zero_rational};
ghost use Rattle.it_tableau.specs.Rows.{RowQuotientsFit, IsDivided, IsReduced, RowStepFits, dense_row};
ghost use Rattle.it_tableau.specs.SparseRows.{entry_in, Climbs, ListsEntries};

use crate::merging::{append, column, merge, narrow_number, reduced_entry, term};
use it_fraction::Fraction;
use it_space::RowFault;
use std::alloc::Global;
use std::marker::Model;

/// A row of the table: the nonzero entries, each after its column, by ascending column, and the right side. Contracts see the list of
/// all entries with the right side after them.
pub struct SparseRow {
    width: usize,
    terms: Vec<(usize, Fraction)>,
    right: Fraction,
}

impl Drop for SparseRow {
    fn drop(self) {
        let SparseRow {
            width: _,
            terms: _,
            right: _,
        } = self;
    }
}

impl Model for SparseRow {
    ghost use Rattle.std.specs.Prelude.{List};
    ghost use Rattle.it_rational.specs.Rational.{Rational};
    ghost use Rattle.it_tableau.specs.Rows.{dense_row};
    ghost use Rattle.it_tableau.specs.SparseRows.{Climbs};

    ghost Value = { List Rational };

    ghost view = { λ r. dense_row r.width r.terms.items r.right };

    ghost invariant = { λ r. Climbs 0 r.width r.terms.items };
}

impl SparseRow {
    /// The row of `width` columns with `terms` and the right side `right`.
    pub fn new(width: usize, terms: Vec<(usize, Fraction)>, right: Fraction) -> SparseRow
        requires { Climbs 0 width terms.items }
        ensures { result ≡ dense_row width terms.items right }
    {
        SparseRow {
            width,
            terms,
            right,
        }
    }

    /// A row without columns, whose right side is 0: a placeholder where another row is taken out.
    pub fn placeholder(alloc: Global) -> SparseRow
        ensures { result ≡ dense_row 0 [] (integer (pos 0)) }
    {
        SparseRow::new(0, Vec::new(alloc), Fraction::whole(0))
    }

    /// The nonzero entries, each after its column, by ascending column, without the right side.
    pub fn terms(&self) -> &[(usize, Fraction)]
        ensures { ListsEntries (entry_at self.now) (length self.now - 1) result.now }
    {
        self.terms.as_slice()
    }

    /// The entry in `column`, or past the last column the right side.
    pub fn entry(&self, column: usize) -> Fraction
        requires { column < length self.now }
        ensures { result ≡ entry_at self.now column }
    {
        if column == self.width {
            return self.right;
        }
        number_in(self.terms.as_slice(), column, self.width)
    }

    /// Subtracts the multiple of `by` that makes the entry in `column` 0, where `by` has the entry `pivot`. `buffer` is space for the new
    /// terms, and has the old ones afterwards.
    pub fn reduce(
        &mut self,
        by: &SparseRow,
        column: usize,
        pivot: Fraction,
        buffer: &mut Vec<(usize, Fraction)>,
    ) -> Result<(), RowFault>
        requires even { length self.old ≡ length by.now }
        requires column { column < length self.old }
        requires some { pivot.num ≢ pos 0 }
        ensures ok { OnOk result (RowStepFits self.old by.now column pivot) }
        ensures value { OnOk result (IsReduced self.old by.now (times (slice_index_or self.old column zero_rational) (inverse pivot)) self.new) }
        ensures wide { IfErr result (λ fault. fault ≡ RowFault.Wide → ¬ (RowStepFits self.old by.now column pivot)) }
    {
        let entry = self.entry(column);
        if entry.is_zero() {
            // called for its contract, which says that the right side is within the limit
            let _right = narrow_number(self.right);
            return Ok(());
        }
        let q = entry.div(pivot)?;
        let right = reduced_entry(self.right, by.right, q)?;
        merge(
            buffer,
            self.terms.as_slice(),
            by.terms.as_slice(),
            q,
            self.width,
        )?;
        self.right = right;
        std::mem::swap(&mut self.terms, buffer);
        Ok(())
    }

    /// Divides the row by `pivot`. `buffer` is as for `reduce`.
    pub fn divide(
        &mut self,
        pivot: Fraction,
        buffer: &mut Vec<(usize, Fraction)>,
    ) -> Result<(), RowFault>
        requires { pivot.num ≢ pos 0 }
        ensures ok { OnOk result (RowQuotientsFit self.old pivot) }
        ensures value { OnOk result (IsDivided self.old pivot self.new) }
        ensures wide { IfErr result (λ fault. fault ≡ RowFault.Wide → ¬ (RowQuotientsFit self.old pivot)) }
    {
        let right = self.right.div(pivot)?;
        divide_terms(buffer, self.terms.as_slice(), pivot, self.width)?;
        self.right = right;
        std::mem::swap(&mut self.terms, buffer);
        Ok(())
    }
}

/// The number in column `at`, by binary search; 0 where there is no term.
fn number_in(terms: &[(usize, Fraction)], at: usize, width: usize) -> Fraction
    requires { Climbs 0 width terms.now }
    ensures { result ≡ entry_in terms.now at }
{
    match terms.binary_search_by_key(&at, |term| term.0) {
        Ok(i) => terms[i].1,
        Err(_) => Fraction::whole(0),
    }
}

/// Sets `buffer` to `terms` divided by `pivot`.
fn divide_terms(
    buffer: &mut Vec<(usize, Fraction)>,
    terms: &[(usize, Fraction)],
    pivot: Fraction,
    width: usize,
) -> Result<(), RowFault>
    requires terms { Climbs 0 width terms.now }
    requires some { pivot.num ≢ pos 0 }
    ensures ok { OnOk result (TermQuotientsFit terms.now pivot) }
    ensures value { OnOk result (AreDivided terms.now pivot width buffer.new.items) }
    ensures wide { IfErr result (λ fault. fault ≡ RowFault.Wide → ¬ (TermQuotientsFit terms.now pivot)) }
{
    buffer.clear();
    // by index, since the invariant is about the first i terms
    for i in 0..terms.len() {
        append(buffer, column(terms, i), term(terms, i).div(pivot)?)?;
    }
    Ok(())
}
