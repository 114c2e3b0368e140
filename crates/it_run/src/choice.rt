//! The entering column and the leaving row.
ghost use Rattle.std.specs.Prelude.{◌≡◌, ◌<◌, false, IfOk, OnErr, OnOk};
ghost use Rattle.std.specs.Option.{IfNone, IfSome};
ghost use Rattle.it_tableau.specs.TableauViews.{height, table};
ghost use Rattle.it_run.specs.Solving.{RatiosFit};
ghost use Rattle.it_run.specs.Steps.{best_after, entering_column_of, ratio_precedes, IsLeaving};

use it_fraction::{Fraction, Wide};
use it_tableau::Tableau;
use std::cmp::Ordering;

/// The least-numbered column with a cost below 0 that isn't artificial.
#[tactic(auto, using(crate::proofs::SearchLemmas::first_is, crate::proofs::SearchLemmas::first_none))]
pub fn entering_column(tableau: &Tableau) -> Option<usize>
    requires { tableau.now.spent ≡ false }
    ensures within { IfSome result (λ c. c < tableau.now.generator_columns) }
    ensures some { IfSome result (λ c. entering_column_of tableau.now ≡ c) }
    ensures none { IfNone result (entering_column_of tableau.now ≡ tableau.now.generator_columns) }
{
    for j in 0..tableau.generator_columns() {
        if tableau.cost(j).is_negative() {
            return Some(j);
        }
    }
    None
}

/// Whether a row with `ratio` and basic column `column` comes before the best so far, with `best` and `best_column`: its ratio is
/// less, or equal with a smaller basic column.
#[tactic(auto, using(crate::proofs::SearchLemmas::before_less, crate::proofs::SearchLemmas::before_greater, crate::proofs::SearchLemmas::before_equal))]
fn ratio_precedes(ratio: Fraction, column: usize, best: Fraction, best_column: usize) -> bool
    ensures { result ≡ ratio_precedes ratio column best best_column }
{
    match ratio.compare(best) {
        Ordering::Less => true,
        Ordering::Equal => column < best_column,
        Ordering::Greater => false,
    }
}

/// The better of `best`, the best row so far with its ratio, and `row` with `ratio`.
fn best_after(
    best: Option<(usize, Fraction)>,
    row: usize,
    ratio: Fraction,
    tableau: &Tableau,
) -> Option<(usize, Fraction)>
    requires usable { tableau.now.spent ≡ false }
    requires row { row < height tableau.now }
    requires best { IfSome best (λ b. b.0 < height tableau.now) }
    ensures { result ≡ best_after best row ratio (table tableau.now).basis }
{
    match best {
        None => Some((row, ratio)),
        Some((best_row, least)) => {
            if ratio_precedes(ratio, tableau.basic(row), least, tableau.basic(best_row)) {
                Some((row, ratio))
            } else {
                Some((best_row, least))
            }
        }
    }
}

/// Of the rows with an entry above 0 at `column` the one with the least ratio; of several, the one with the least basic column.
/// `None` if no entry is above 0; `Wide` if a ratio passes the limit.
pub fn leaving_row(tableau: &Tableau, column: usize) -> Result<Option<usize>, Wide>
    requires usable { tableau.now.spent ≡ false }
    requires column { column < tableau.now.generator_columns }
    ensures ok { OnOk result (RatiosFit (height tableau.now) tableau.now.generator_columns (table tableau.now) column) }
    ensures value { IfOk result (λ row. IsLeaving (height tableau.now) tableau.now.generator_columns (table tableau.now) column row) }
    ensures err { OnErr result (¬ (RatiosFit (height tableau.now) tableau.now.generator_columns (table tableau.now) column)) }
{
    let mut best: Option<(usize, Fraction)> = None;
    for i in 0..tableau.rows() {
        if tableau.entry(i, column).is_positive() {
            let ratio = tableau.ratio(i, column)?;
            best = best_after(best, i, ratio, tableau);
        }
    }
    match best {
        Some((row, _)) => Ok(Some(row)),
        None => Ok(None),
    }
}
