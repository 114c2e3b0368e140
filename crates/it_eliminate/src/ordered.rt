//! Rows in order: each in lowest terms, without zero rows and duplicates. Once there are more than allowed, no further ones are
//! kept.
ghost use Rattle.std.specs.Prelude.{◌≡◌, [], ◌∷◌, OnOk, IfOk};
ghost use Rattle.it_space.specs.Divisors.{lowest_terms};
ghost use Rattle.it_space.specs.Rows.{IsCanonical};
ghost use Rattle.it_eliminate.specs.Elimination.{with_row, ordered_rows};
ghost use Rattle.std.specs.List.{AllByRecursion as Every};
ghost use Rattle.it_eliminate.specs.Gathering.{rows_of, Gathers};

use indexmap::IndexSet;
use it_space::{Row, normal};
use std::alloc::{AllocError, Global};

/// Appends the row with `terms`, unless it is zero or one of the others.
fn put(rows: &mut IndexSet<Vec<(u32, i128)>>, terms: Vec<(u32, i128)>) -> Result<(), AllocError>
    ensures { OnOk result (rows_of rows.new.keys ≡ with_row (rows_of rows.old.keys) terms.items) }
{
    if !terms.is_empty() {
        rows.insert(terms)?;
    }
    Ok(())
}

/// Appends `row` in lowest terms, unless it is zero or one of the others.
fn put_lowest(rows: &mut IndexSet<Vec<(u32, i128)>>, row: Row) -> Result<(), AllocError>
    ensures rows { OnOk result (rows_of rows.new.keys ≡ with_row (rows_of rows.old.keys) (lowest_terms row)) }
    ensures canonical { OnOk result (Every IsCanonical (rows_of rows.old.keys) → Every IsCanonical (rows_of rows.new.keys)) }
{
    // with `?`, so that the contract of the call is available at the return
    put(rows, normal(row).into_terms())?;
    Ok(())
}

/// Like `put_lowest`, as long as the others are at most `most`; then does nothing.
pub fn gather(
    rows: &mut IndexSet<Vec<(u32, i128)>>,
    row: Row,
    most: usize,
) -> Result<(), AllocError>
    ensures { OnOk result (Gathers most (row ∷ []) (rows_of rows.old.keys) (rows_of rows.new.keys)) }
{
    if rows.len() <= most {
        put_lowest(rows, row)?;
    }
    Ok(())
}

/// The rows as a list.
pub fn row_list(alloc: Global, rows: IndexSet<Vec<(u32, i128)>>) -> Result<Vec<Row>, AllocError>
    requires { Every IsCanonical (rows_of rows.keys) }
    ensures { IfOk result (λ v. v.items ≡ rows_of rows.keys) }
{
    let mut list = Vec::new(alloc);
    for terms in rows {
        list.push(Row::new(terms))?;
    }
    Ok(list)
}

/// `rows` in order, in lowest terms, without zero rows and duplicates.
pub fn ordered_rows(alloc: Global, rows: Vec<Row>) -> Result<IndexSet<Vec<(u32, i128)>>, AllocError>
    ensures rows { IfOk result (λ s. rows_of s.keys ≡ ordered_rows rows.items) }
    ensures canonical { IfOk result (λ s. Every IsCanonical (rows_of s.keys)) }
{
    let mut ordered = IndexSet::new(alloc);
    for row in rows {
        put_lowest(&mut ordered, row)?;
    }
    Ok(ordered)
}
