//! The merge of the terms of two rows.
ghost use Rattle.std.specs.Prelude.{◌≡◌, ◌<◌, ◌⊎◌, length, IfErr, IfOk, OnErr, OnOk, OkIff};
ghost use Rattle.it_rational.specs.Rational.{minus, plus, times};
ghost use Rattle.it_fraction.specs.Fits.{IsNarrow};
ghost use Rattle.it_tableau.specs.Fits.{EntryFits};
ghost use Rattle.it_tableau.specs.Merging.{column_at, number_of_term, AreMerged, IsAppended, IsTermSource, MergeFits};
ghost use Rattle.it_tableau.specs.SparseRows.{Climbs};

use it_fraction::{Fraction, Wide};
use it_space::RowFault;
use std::alloc::AllocError;

/// Which of two rows has the next term.
#[derive(Debug, Drop, Clone, Copy)]
pub enum TermSource {
    Old,
    Other,
    Both,
}

/// The column of term `i`.
pub fn column(terms: &[(usize, Fraction)], i: usize) -> usize
    requires { i < length terms.now }
    ensures { result ≡ column_at terms.now i }
{
    terms[i].0
}

/// `value` itself: the contracts of `num` and `den` say that both are within the limit.
pub fn narrow_number(value: Fraction) -> Fraction
    ensures value { result ≡ value }
    ensures narrow { IsNarrow result }
{
    let _num = value.num();
    let _den = value.den();
    value
}

/// The number of term `i`.
pub fn term(terms: &[(usize, Fraction)], i: usize) -> Fraction
    requires { i < length terms.now }
    ensures value { result ≡ number_of_term terms.now i }
    ensures narrow { IsNarrow result }
{
    narrow_number(terms[i].1)
}

/// Which row has the next term: `old` from term `i` on, `by` from term `j` on, or both.
fn next_source(
    old: &[(usize, Fraction)],
    by: &[(usize, Fraction)],
    i: usize,
    j: usize,
) -> TermSource
    requires { (i < length old.now) ⊎ (j < length by.now) }
    ensures { IsTermSource old.now by.now i j result }
{
    if i >= old.len() {
        return TermSource::Other;
    }
    if j >= by.len() {
        return TermSource::Old;
    }
    let left = column(old, i);
    let right = column(by, j);
    if left < right {
        TermSource::Old
    } else if right < left {
        TermSource::Other
    } else {
        TermSource::Both
    }
}

/// The negated product of `by` and `q`; `Wide` if it passes the limit.
fn negated_product(by: Fraction, q: Fraction) -> Result<Fraction, Wide>
    ensures { OkIff result (IsNarrow (times by q)) (minus (times by q)) }
{
    Ok(by.mul(q)?.neg())
}

/// `entry` less the product of `by` and `q`; `Wide` if the product or a number of the difference passes the limit.
pub fn reduced_entry(entry: Fraction, by: Fraction, q: Fraction) -> Result<Fraction, Wide>
    ensures ok { OnOk result (EntryFits entry by q) }
    ensures value { IfOk result (λ v. v ≡ plus entry (minus (times by q))) }
    ensures err { OnErr result (¬ (EntryFits entry by q)) }
{
    entry.sub(by.mul(q)?)
}

/// Appends the term `value` in `column`, unless `value` is 0.
pub fn append(
    terms: &mut Vec<(usize, Fraction)>,
    column: usize,
    value: Fraction,
) -> Result<(), AllocError>
    ensures { OnOk result (IsAppended terms.old.items column value terms.new.items) }
{
    if !value.is_zero() {
        terms.push((column, narrow_number(value)))?;
    }
    Ok(())
}

/// Sets `buffer` to the terms of the row `old` less `q` times the row `by`. Where only one of the rows has a term, the operation
/// with 0 is left out.
pub fn merge(
    buffer: &mut Vec<(usize, Fraction)>,
    old: &[(usize, Fraction)],
    by: &[(usize, Fraction)],
    q: Fraction,
    width: usize,
) -> Result<(), RowFault>
    requires old { Climbs 0 width old.now }
    requires by { Climbs 0 width by.now }
    ensures ok { OnOk result (MergeFits old.now by.now q) }
    ensures value { OnOk result (AreMerged old.now by.now q width buffer.new.items) }
    ensures wide { IfErr result (λ fault. fault ≡ RowFault.Wide → ¬ (MergeFits old.now by.now q)) }
{
    buffer.clear();
    let mut i = 0;
    let mut j = 0;
    while i < old.len() || j < by.len() {
        match next_source(old, by, i, j) {
            TermSource::Old => {
                append(buffer, column(old, i), term(old, i))?;
                i += 1;
            }
            TermSource::Other => {
                append(buffer, column(by, j), negated_product(term(by, j), q)?)?;
                j += 1;
            }
            TermSource::Both => {
                let difference = reduced_entry(term(old, i), term(by, j), q)?;
                append(buffer, column(old, i), difference)?;
                i += 1;
                j += 1;
            }
        }
    }
    Ok(())
}
