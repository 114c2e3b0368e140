//! The weights or the point, read off the engine at the end of a run.
ghost use Rattle.std.specs.Prelude.{◌≡◌, ◌+◌, ◌<◌, [], ℕ, cond, pos, length, IfOk};
ghost use Rattle.it_rational.specs.Rational.{quotient, times, minus, integer};
ghost use Rattle.it_engine.specs.Choosing.{right_side_of};
ghost use Rattle.it_engine.specs.Engine.{IsSafe};
ghost use Rattle.it_engine.specs.Ends.{AreWeightsOf, IsNextBasic, IsPointOf};
ghost use Rattle.it_space.specs.Sums.{number_at};
ghost use Rattle.it_engine.specs.Tables.{whole_row_at};

use it_fraction::Fraction;
use it_space::Row;
use it_tableau::keeps_sign;
use it_whole::{Column, WholeRow};
use std::alloc::{AllocError, Global};

/// The number at place `k` of `row` over the row's denominator.
fn fraction(row: &WholeRow, k: usize) -> Fraction
    requires place { k < length row.now.numbers }
    requires some { 0 < row.now.denominator }
    ensures { result ≡ quotient (number_at row.now.numbers k) row.now.denominator }
{
    Fraction::lowest(i128::from(row.number(k)), i128::from(row.denominator()))
}

/// The number at place `k` of row `i` over the row's denominator.
fn fraction_at(rows: &[WholeRow], i: usize, k: usize) -> Fraction
    requires row { i < length rows.now }
    requires place { k < length (whole_row_at rows.now i).numbers }
    requires some { 0 < (whole_row_at rows.now i).denominator }
    ensures { result ≡ quotient (right_side_of k rows.now i) (whole_row_at rows.now i).denominator }
{
    fraction(&rows[i], k)
}

/// Of `best`, the best row so far, and row `i`, the one with the least basic column in the range from `from` up to `to`, `to` excluded.
fn nearer_basic(
    basis: &[usize],
    from: usize,
    to: usize,
    best: Option<usize>,
    i: usize,
) -> Option<usize>
    requires row { i < length basis.now }
    requires best { IsNextBasic basis.now from to i best }
    ensures { IsNextBasic basis.now from to (i + 1) result }
{
    if basis[i] < from || basis[i] >= to {
        return best;
    }
    if let Some(k) = best {
        if basis[k] <= basis[i] {
            return Some(k);
        }
    }
    Some(i)
}

/// The row with the least basic column in the range from `from` up to `to`, `to` excluded.
fn next_basic(basis: &[usize], from: usize, to: usize) -> Option<usize>
    ensures { IsNextBasic basis.now from to (length basis.now) result }
{
    let mut best: Option<usize> = None;
    // by index, since the invariant is about the first i rows
    for i in 0..basis.len() {
        best = nearer_basic(basis, from, to, best, i);
    }
    best
}

/// The nonzero weights, each after its column, by ascending column.
pub fn weights(
    alloc: Global,
    columns: &[Column],
    rows: &[WholeRow],
    basis: &[usize],
) -> Result<Vec<(usize, Fraction)>, AllocError>
    requires { (limit : ℕ) × IsSafe columns.now limit rows.now basis.now }
    ensures { IfOk result (λ out. AreWeightsOf columns.now rows.now basis.now out.items) }
{
    let mut out = Vec::new(alloc);
    let mut from: usize = 0;
    while let Some(row) = next_basic(basis, from, columns.len()) {
        let weight = fraction_at(rows, row, basis.len());
        if !weight.is_zero() {
            out.push((basis[row], weight))?;
        }
        from = basis[row] + 1;
    }
    Ok(out)
}

/// `value`, negated unless `kept`.
fn signed_value(value: Fraction, kept: bool) -> Fraction
    ensures { result ≡ times (cond kept (integer (pos 1)) (minus (integer (pos 1)))) value }
{
    if kept { value } else { value.neg() }
}

/// The point: a value for each row, with the row's sign in the start.
pub fn point(
    alloc: Global,
    coordinates: &[u32],
    target: &Row,
    rows: &[WholeRow],
    basis: &[usize],
) -> Result<Vec<Fraction>, AllocError>
    requires height { length basis.now ≡ length coordinates.now }
    requires engine { (limit : ℕ) × IsSafe [] limit rows.now basis.now }
    ensures { IfOk result (λ out. IsPointOf coordinates.now target.now rows.now basis.now out.items) }
{
    let mut out = Vec::with_capacity(alloc, basis.len())?;
    for k in 0..basis.len() {
        let cost = fraction_at(rows, basis.len(), k);
        out.push(signed_value(cost, keeps_sign(target, coordinates[k])))?;
    }
    Ok(out)
}
