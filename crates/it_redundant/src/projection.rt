//! Reduced elimination.
ghost use Rattle.std.specs.Prelude.{◌≡◌, ◌<◌, ◌≤◌, [], length, map, All, IfErr, IfOk};
ghost use Rattle.it_space.specs.Spaces.{size_of};
ghost use Rattle.it_eliminate.specs.Projections.{system_of};
ghost use Rattle.it_redundant.specs.ProjectionSteps.{IsAfterRate, StopsBy, region_view};
ghost use Rattle.it_redundant.specs.Reduction.{IsSystemUnder, kept_rows, kept_view};
ghost use Rattle.it_redundant.specs.ReducedElimination.{ReducedEnds, projected_view};
ghost use Rattle.it_redundant.specs.Theorems.{RegionIsReduced, SpeakOfSets};
ghost use Rattle.it_space.specs.Rows.{IsOver, most_system_rows};

use crate::reduction::reduce;
use crate::types::{Projected, Reduced};
use it_eliminate::{Stop, copied_rows, rows_after};
use it_problems::{Problem, System};
use it_prove::Effort;
use it_space::{Row, Space};
use std::alloc::{AllocError, Global};

/// Eliminates `rates` from `system`, in the order of their list, and reduces the list of rows after each rate. A rate's step may leave
/// at most `rows` rows, before their reduction. The givens are about entropies alone, and there is at least one rate.
pub fn project(
    alloc: Global,
    system: &System,
    rates: &[u8],
    givens: &Problem,
    rows: usize,
    effort: Effort,
) -> Result<Projected, AllocError>
    requires system { IsSystemUnder givens.now system.now }
    requires rates { All (λ r. r < system.now.space.rates) rates.now }
    requires some { 1 ≤ length rates.now }
    requires sets { SpeakOfSets givens.now }
    requires few_rows { rows ≤ most_system_rows }
    ensures ends { IfOk result (λ e. ReducedEnds givens.now effort rows system.now.rows.items [] [] rates.now (projected_view e)) }
    ensures region { IfOk result (λ e. RegionIsReduced givens.now rates.now system.now.rows.items (projected_view e)) }
{
    match reduced_elimination(alloc, system, rates, givens, rows, effort) {
        Ok(reduced) => Ok(Projected::Region(reduced)),
        Err(Stop::Rows { rate }) => Ok(Projected::Rows { rate }),
        Err(Stop::Wide { rate }) => Ok(Projected::Wide { rate }),
        Err(Stop::Memory) => Err(AllocError),
    }
}

/// The reduction after the last rate, or why the elimination stops, as `project` has it.
fn reduced_elimination(
    alloc: Global,
    system: &System,
    rates: &[u8],
    givens: &Problem,
    rows: usize,
    effort: Effort,
) -> Result<Reduced, Stop>
    requires system { IsSystemUnder givens.now system.now }
    requires rates { All (λ r. r < system.now.space.rates) rates.now }
    requires some { 1 ≤ length rates.now }
    requires few_rows { rows ≤ most_system_rows }
    ensures region { IfOk result (λ r. ReducedEnds givens.now effort rows system.now.rows.items [] [] rates.now (region_view r)) }
    ensures stop { IfErr result (StopsBy (ReducedEnds givens.now effort rows system.now.rows.items [] [] rates.now)) }
{
    let first = copied_rows(alloc, system.rows.as_slice())?;
    let mut reduced = after_rate(alloc, first, rates[0], givens, rows, effort)?;
    for i in 1..rates.len() {
        reduced = after_next(alloc, reduced, rates[i], givens, rows, effort)?;
    }
    Ok(reduced)
}

/// The reduction after `rate`, where `before` is the one before it.
fn after_next(
    alloc: Global,
    before: Reduced,
    rate: u8,
    givens: &Problem,
    rows: usize,
    effort: Effort,
) -> Result<Reduced, Stop>
    requires before { All (IsOver (size_of givens.now.space)) (kept_rows (kept_view before)) }
    requires rate { rate < givens.now.space.rates }
    requires few_rows { rows ≤ most_system_rows }
    requires few_givens { length givens.now.constraints ≤ most_system_rows }
    ensures after { IfOk result (λ r. IsAfterRate givens.now effort rows (kept_rows (kept_view before)) rate (region_view r)) }
    ensures stop { IfErr result (StopsBy (IsAfterRate givens.now effort rows (kept_rows (kept_view before)) rate)) }
    ensures rows { IfOk result (λ r. All (IsOver (size_of givens.now.space)) (kept_rows (kept_view r))) }
{
    givens.facts();
    let kept = into_kept_rows(alloc, before)?;
    let reduced = after_rate(alloc, kept, rate, givens, rows, effort)?;
    Ok(reduced)
}

/// The rows that a reduction keeps, in order.
fn into_kept_rows(alloc: Global, reduced: Reduced) -> Result<Vec<Row>, AllocError>
    ensures { IfOk result (λ v. v.items ≡ kept_rows (kept_view reduced)) }
{
    let mut rows = Vec::new(alloc);
    for (row, _) in reduced.kept {
        rows.push(row)?;
    }
    Ok(rows)
}

/// Copies of the rows that a reduction keeps, in order, as a system over `space`.
pub fn kept_system(alloc: Global, space: Space, reduced: &Reduced) -> Result<System, AllocError>
    ensures space { IfOk result (λ s. s.space ≡ space) }
    ensures rows { IfOk result (λ s. s.rows.items ≡ map (λ k. k.0) reduced.now.kept.items) }
{
    let mut rows = Vec::new(alloc);
    for (row, _) in &reduced.kept {
        rows.push(row.copy(alloc)?)?;
    }
    Ok(System { space, rows })
}

/// The reduction after the elimination of `rate` from `rows`, which may leave at most `most` rows.
fn after_rate(
    alloc: Global,
    rows: Vec<Row>,
    rate: u8,
    givens: &Problem,
    most: usize,
    effort: Effort,
) -> Result<Reduced, Stop>
    requires givens { IsSystemUnder givens.now (system_of givens.now.space rows) }
    requires rate { rate < givens.now.space.rates }
    requires few_rows { most ≤ most_system_rows }
    ensures after { IfOk result (λ r. IsAfterRate givens.now effort most rows.items rate (region_view r)) }
    ensures stop { IfErr result (StopsBy (IsAfterRate givens.now effort most rows.items rate)) }
    ensures rows { IfOk result (λ r. All (IsOver (size_of givens.now.space)) (kept_rows (kept_view r))) }
{
    let space = givens.space();
    let left = rows_after(alloc, space, rows, [rate].as_slice(), most)?;
    let reduced = reduce(alloc, &System { space, rows: left }, givens, effort)?;
    Ok(reduced)
}
