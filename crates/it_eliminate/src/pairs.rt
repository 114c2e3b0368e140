//! The list of rows after the elimination of one rate. To gather a row is to append it in lowest terms, unless it is zero or there
//! already, as long as there are at most `most` rows.
ghost use Rattle.std.specs.Prelude.{◌≡◌, pos, ◌<ℤ◌, [], ◌∷◌, ◌++◌, OnOk, IfOk, IfErr};
ghost use Rattle.it_space.specs.Rows.{coefficient};
ghost use Rattle.it_space.specs.declared.faults.RowFault.TheVariants.{Wide as IsTooWide};
ghost use Rattle.it_eliminate.specs.Elimination.{next_list, PairsFit};
ghost use Rattle.std.specs.List.{AllByRecursion as Every, flat_map};
ghost use Rattle.it_eliminate.specs.Gathering.{rows_of, rows_with, pair_of, up_pairs, flat_of, DownFits, UpFits, Gathers, IsKeptList};

use crate::ordered::gather;
use indexmap::IndexSet;
use it_space::{Row, RowFault, cancel};
use std::alloc::{AllocError, Global};

/// Gathers `row` if it lacks coordinate `at`, else appends it to `others`.
fn gather_flat(
    list: &mut IndexSet<Vec<(u32, i128)>>,
    others: &mut Vec<Row>,
    row: Row,
    at: u32,
    most: usize,
) -> Result<(), AllocError>
    ensures flat { OnOk result (Gathers most (flat_of at row) (rows_of list.old.keys) (rows_of list.new.keys)) }
    ensures others { OnOk result (others.new.items ≡ others.old.items ++ rows_with at (row ∷ [])) }
{
    if row.coefficient(at) == 0 {
        gather(list, row, most)?;
    } else {
        others.push(row)?;
    }
    Ok(())
}

/// Gathers the rows without coordinate `at`, in order, and returns the others, in order.
fn gather_flats(
    alloc: Global,
    list: &mut IndexSet<Vec<(u32, i128)>>,
    rows: Vec<Row>,
    at: u32,
    most: usize,
) -> Result<Vec<Row>, AllocError>
    ensures flats { OnOk result (Gathers most (flat_map (flat_of at) rows.items) (rows_of list.old.keys) (rows_of list.new.keys)) }
    ensures others { IfOk result (λ v. v.items ≡ rows_with at rows.items) }
{
    let mut others = Vec::new(alloc);
    for row in rows {
        gather_flat(list, &mut others, row, at, most)?;
    }
    Ok(others)
}

/// Gathers the row that cancels coordinate `at` between `up`, which is positive there, and `down`, if that is negative there.
fn gather_pair(
    alloc: Global,
    list: &mut IndexSet<Vec<(u32, i128)>>,
    up: &Row,
    down: &Row,
    at: u32,
    most: usize,
) -> Result<(), RowFault>
    requires { pos 0 <ℤ coefficient up.now at }
    ensures list { OnOk result (Gathers most (pair_of at up.now down.now) (rows_of list.old.keys) (rows_of list.new.keys)) }
    ensures fits { OnOk result (DownFits at up.now down.now) }
    ensures wide { IfErr result (λ fault. fault ≡ IsTooWide → ¬ (DownFits at up.now down.now)) }
{
    if down.coefficient(at) < 0 {
        let row = cancel(alloc, up, down, at)?;
        gather(list, row, most)?;
    }
    Ok(())
}

/// Gathers the rows that cancel coordinate `at` between `up`, which is positive there, and each row that is negative there, in order.
fn gather_pairs(
    alloc: Global,
    list: &mut IndexSet<Vec<(u32, i128)>>,
    up: &Row,
    rows: &[Row],
    at: u32,
    most: usize,
) -> Result<(), RowFault>
    requires { pos 0 <ℤ coefficient up.now at }
    ensures list { OnOk result (Gathers most (flat_map (pair_of at up.now) rows.now) (rows_of list.old.keys) (rows_of list.new.keys)) }
    ensures fits { OnOk result (Every (DownFits at up.now) rows.now) }
    ensures wide { IfErr result (λ fault. fault ≡ IsTooWide → ¬ (Every (DownFits at up.now) rows.now)) }
{
    for down in rows {
        gather_pair(alloc, list, up, down, at, most)?;
    }
    Ok(())
}

/// Like `gather_pairs`, if `up` is positive at coordinate `at`; else gathers nothing.
fn gather_up(
    alloc: Global,
    list: &mut IndexSet<Vec<(u32, i128)>>,
    up: &Row,
    rows: &[Row],
    at: u32,
    most: usize,
) -> Result<(), RowFault>
    ensures list { OnOk result (Gathers most (up_pairs at rows.now up.now) (rows_of list.old.keys) (rows_of list.new.keys)) }
    ensures fits { OnOk result (UpFits at rows.now up.now) }
    ensures wide { IfErr result (λ fault. fault ≡ IsTooWide → ¬ (UpFits at rows.now up.now)) }
{
    if up.coefficient(at) > 0 {
        gather_pairs(alloc, list, up, rows, at, most)?;
    }
    Ok(())
}

/// Gathers the rows that cancel coordinate `at` between each row that is positive there and each that is negative there, in order.
fn gather_ups(
    alloc: Global,
    list: &mut IndexSet<Vec<(u32, i128)>>,
    rows: &[Row],
    at: u32,
    most: usize,
) -> Result<(), RowFault>
    ensures list { OnOk result (Gathers most (flat_map (up_pairs at rows.now) rows.now) (rows_of list.old.keys) (rows_of list.new.keys)) }
    ensures fits { OnOk result (Every (UpFits at rows.now) rows.now) }
    ensures wide { IfErr result (λ fault. fault ≡ IsTooWide → ¬ (Every (UpFits at rows.now) rows.now)) }
{
    for up in rows {
        gather_up(alloc, list, up, rows, at, most)?;
    }
    Ok(())
}

/// The list of rows after the elimination of the rate at coordinate `at`. If there are more than `most` rows, the list has more than
/// `most` too, but may lack some of them.
pub fn next_list(
    alloc: Global,
    rows: Vec<Row>,
    at: u32,
    most: usize,
) -> Result<IndexSet<Vec<(u32, i128)>>, RowFault>
    ensures list { IfOk result (λ s. IsKeptList most (next_list at rows.items) (rows_of s.keys)) }
    ensures fits { OnOk result (PairsFit at rows.items) }
    ensures wide { IfErr result (λ fault. fault ≡ IsTooWide → ¬ (PairsFit at rows.items)) }
{
    let mut list = IndexSet::new(alloc);
    let others = gather_flats(alloc, &mut list, rows, at, most)?;
    gather_ups(alloc, &mut list, others.as_slice(), at, most)?;
    Ok(list)
}
