//! Tests: the table of an example at its start and after two pivots, and numbers that are too wide.

ghost use Rattle.std.specs.Prelude.{◌≡◌, ◌<◌, false, length, IfOk, IfSome};
ghost use Rattle.it_tableau.specs.TableauViews.{height};

use it_space::{Row, RowFault};
use it_tableau::Tableau;
use std::alloc::{AllocError, Global};

/// Whether row `row` has these entries and the right side `right`. They are whole numbers here: numerators alone.
fn has_row(tableau: &Tableau, row: usize, entries: &[i128], right: i128) -> bool
    requires usable { tableau.now.spent ≡ false }
    requires row { row < height tableau.now }
{
    if tableau.columns() != entries.len() || tableau.rhs(row).num() != right {
        return false;
    }
    for column in 0..entries.len() {
        if tableau.entry(row, column).num() != entries[column] {
            return false;
        }
    }
    true
}

/// Whether row `row` has these terms, numerators alone.
fn has_terms(tableau: &Tableau, row: usize, terms: &[(usize, i128)]) -> bool
    requires usable { tableau.now.spent ≡ false }
    requires row { row < height tableau.now }
{
    let own = tableau.terms(row);
    if own.len() != terms.len() {
        return false;
    }
    for i in 0..terms.len() {
        if own[i].0 != terms[i].0 || own[i].1.num() != terms[i].1 {
            return false;
        }
    }
    true
}

/// Whether the cost row has these entries and the right side `right`, numerators alone.
fn costs(tableau: &Tableau, entries: &[i128], right: i128) -> bool
    requires { tableau.now.spent ≡ false }
{
    if tableau.columns() != entries.len() || tableau.cost_rhs().num() != right {
        return false;
    }
    for column in 0..entries.len() {
        if tableau.cost(column).num() != entries[column] {
            return false;
        }
    }
    true
}

/// The coordinates are h(X), h(Y), h(X,Y), the columns H(X|Y), H(Y|X), I(X;Y), and the target is h(X) - h(X,Y). The tables are
/// worked out by hand.
fn columns(alloc: Global) -> Result<Vec<Row>, AllocError>
    ensures { IfOk result (λ columns. length columns.items ≡ 3) }
{
    Ok(vec![in alloc;
        Row::new(Vec::from_slice(alloc, &[(2, -1), (3, 1)])?),
        Row::new(Vec::from_slice(alloc, &[(1, -1), (3, 1)])?),
        Row::new(Vec::from_slice(alloc, &[(1, 1), (2, 1), (3, -1)])?),
    ]?)
}

fn example(alloc: Global) -> Result<Tableau, RowFault>
    ensures usable { IfOk result (λ t. t.spent ≡ false) }
    ensures rows { IfOk result (λ t. height t ≡ 3) }
    ensures columns { IfOk result (λ t. t.generator_columns ≡ 3) }
{
    let columns = columns(alloc)?;
    let target = Row::new(Vec::from_slice(alloc, &[(1, 1), (3, -1)])?);
    Tableau::start(alloc, &[1, 2, 3], columns.as_slice(), &target)
}

/// The tableau after a pivot at an entry above 0, if its ratio is `num` / `den`.
fn pivoted(start: Tableau, row: usize, column: usize, num: i128, den: i128) -> Option<Tableau>
    requires usable { start.spent ≡ false }
    requires rows { height start ≡ 3 }
    requires columns { start.generator_columns ≡ 3 }
    requires row { row < 3 }
    requires column { column < 3 }
    ensures usable { IfSome result (λ t. t.spent ≡ false) }
    ensures rows { IfSome result (λ t. height t ≡ 3) }
    ensures columns { IfSome result (λ t. t.generator_columns ≡ 3) }
{
    let mut tableau = start;
    if !tableau.entry(row, column).is_positive() {
        return None;
    }
    let ratio = tableau.ratio(row, column).ok()?;
    tableau.pivot(row, column).ok()?;
    if ratio.num() == num && ratio.den() == den {
        Some(tableau)
    } else {
        None
    }
}

/// Whether the start has three rows, three columns and three artificial ones, and the signs of the target.
fn has_shape(tableau: &Tableau) -> bool
    requires usable { tableau.now.spent ≡ false }
    requires rows { height tableau.now ≡ 3 }
{
    tableau.rows() == 3
        && tableau.columns() == 6
        && tableau.generator_columns() == 3
        && tableau.sign(0) == 1
        && tableau.sign(1) == 1
        && tableau.sign(2) == -1
}

/// Whether the start has the rows with their signs, and one of them the terms that are not 0.
fn has_rows(tableau: &Tableau) -> bool
    requires usable { tableau.now.spent ≡ false }
    requires rows { height tableau.now ≡ 3 }
{
    has_row(tableau, 0, &[0, -1, 1, 1, 0, 0], 1)
        && has_row(tableau, 1, &[-1, 0, 1, 0, 1, 0], 0)
        && has_row(tableau, 2, &[-1, -1, 1, 0, 0, 1], 1)
        && has_terms(tableau, 0, &[(1, -1), (2, 1), (3, 1)])
        && costs(tableau, &[2, 2, -3, -1, -1, -1], -2)
}

/// Whether the example starts with its table.
fn starts(alloc: Global) -> bool {
    match example(alloc) {
        Ok(tableau) => has_shape(&tableau) && has_rows(&tableau),
        Err(_) => false,
    }
}

/// Whether the table after both pivots has a point.
fn has_point(tableau: &Tableau) -> bool
    requires usable { tableau.now.spent ≡ false }
    requires rows { height tableau.now ≡ 3 }
{
    costs(tableau, &[0, 1, 0, 0, 1, -1], -1)
        && tableau.basic(0) == 0
        && tableau.basic(1) == 2
        && tableau.basic(2) == 5
}

/// Whether two pivots lead from the start to a point.
fn leads_to_point(alloc: Global) -> bool {
    let Ok(start) = example(alloc) else {
        return false;
    };
    let Some(first) = pivoted(start, 1, 2, 0, 1) else {
        return false;
    };
    if !costs(&first, &[-1, 2, 0, -1, 2, -1], -2) {
        return false;
    }
    match pivoted(first, 0, 0, 1, 1) {
        Some(second) => has_point(&second),
        None => false,
    }
}

#[test]
fn an_example_has_its_table_at_the_start_and_after_two_pivots(rt: HostRuntime) {
    assert!(rt; starts(rt.alloc()));
    assert!(rt; leads_to_point(rt.alloc()));
}

/// Whether the start is too wide with 2^126 at two rows, whose sum passes 2^127 - 1.
fn is_wide_start(alloc: Global) -> bool {
    let Ok(terms) = Vec::from_slice(alloc, &[(1, 1 << 126), (2, 1 << 126)]) else {
        return false;
    };
    let start = Tableau::start(alloc, &[1, 2], &[], &Row::new(terms));
    matches!(start, Err(RowFault::Wide))
}

/// The columns 3, 2^126 and 2^126, 0 over two coordinates.
fn large_columns(alloc: Global) -> Result<Vec<Row>, AllocError>
    ensures { IfOk result (λ columns. length columns.items ≡ 2) }
{
    Ok(vec![in alloc;
        Row::new(Vec::from_slice(alloc, &[(1, 3), (2, 1 << 126)])?),
        Row::new(Vec::from_slice(alloc, &[(1, 1 << 126)])?),
    ]?)
}

/// The start with these columns and the target 0.
fn large_start(alloc: Global) -> Result<Tableau, RowFault>
    ensures usable { IfOk result (λ t. t.spent ≡ false) }
    ensures rows { IfOk result (λ t. height t ≡ 2) }
    ensures columns { IfOk result (λ t. t.generator_columns ≡ 2) }
{
    let columns = large_columns(alloc)?;
    let zero = Row::new(Vec::new(alloc));
    Tableau::start(alloc, &[1, 2], columns.as_slice(), &zero)
}

/// Whether a pivot is too wide that takes 2^126 times 2^126 / 3.
fn is_wide_pivot(alloc: Global) -> bool {
    let Ok(start) = large_start(alloc) else {
        return false;
    };
    let mut tableau = start;
    tableau.entry(0, 0).is_positive() && tableau.pivot(0, 0) == Err(RowFault::Wide)
}

#[test]
fn numbers_that_are_too_wide_are_told(rt: HostRuntime) {
    assert!(rt; is_wide_start(rt.alloc()));
    assert!(rt; is_wide_pivot(rt.alloc()));
}
