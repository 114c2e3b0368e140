//! The pivot on rows.
ghost use Rattle.std.specs.Prelude.{◌≡◌, ◌≢◌, ◌<◌, length, pos, IfErr, OnOk};
ghost use Rattle.it_tableau.specs.Entries.{entry_at, row_at};
ghost use Rattle.it_tableau.specs.Rows.{AreEven, ArePivoted, RowsPivotFits};

use crate::sparse_rows::SparseRow;
use it_fraction::Fraction;
use it_space::RowFault;
use std::alloc::Global;

/// The entry of row `i` at column `j`.
pub fn read(rows: &[SparseRow], i: usize, j: usize) -> Fraction
    requires row { i < length rows.now }
    requires column { j < length (row_at rows.now i) }
    ensures { result ≡ entry_at (row_at rows.now i) j }
{
    rows[i].entry(j)
}

/// The pivot at row `r` and column `c`, in all rows. After an error nothing is known of the rows.
pub fn pivot_rows(alloc: Global, rows: &mut [SparseRow], r: usize, c: usize) -> Result<(), RowFault>
    requires row { r < length rows.old }
    requires even { AreEven rows.old (length (row_at rows.old r)) }
    requires column { c < length (row_at rows.old r) }
    requires some { (entry_at (row_at rows.old r) c).num ≢ pos 0 }
    ensures ok { OnOk result (RowsPivotFits rows.old r c) }
    ensures value { OnOk result (ArePivoted rows.old r c rows.new) }
    ensures wide { IfErr result (λ fault. fault ≡ RowFault.Wide → ¬ (RowsPivotFits rows.old r c)) }
{
    let pivot = read(rows, r, c);
    let mut own = std::mem::replace(&mut rows[r], SparseRow::placeholder(alloc));
    let mut buffer = Vec::new(alloc);
    // by index, since the invariant is about the rows before i and those from i on
    for i in 0..rows.len() {
        if i != r {
            rows[i].reduce(&own, c, pivot, &mut buffer)?;
        }
    }
    own.divide(pivot, &mut buffer)?;
    rows[r] = own;
    Ok(())
}
