//! Reduction of a list of rows.
ghost use Rattle.std.specs.Prelude.{◌≡◌, [], ◌∷◌, ◌++◌, ◌+◌, ◌<◌, ◌≤◌, length, map, OnOk, IfOk};
ghost use Rattle.it_space.specs.Answers.{certificate_view};
ghost use Rattle.it_space.specs.Rows.{IsOver, most_system_rows};
ghost use Rattle.it_space.specs.Spaces.{size_of};
ghost use Rattle.it_prove.specs.ClosedProblems.{IsClosedProblem};
ghost use Rattle.it_prove.specs.ProofViews.{proof_view};
ghost use Rattle.it_redundant.specs.Reduction.{IsSystemUnder, Reduces, dropped_by, dropped_view, kept_by, kept_rows, kept_view, need_view};
ghost use Rattle.it_redundant.specs.ReductionSteps.{AreRowsUpTo, IsVisited, with_unvisited};
ghost use Rattle.it_redundant.specs.Theorems.{AreNeeded, HoldAlike};

use crate::others::{insert_row, remove_row};
use crate::types::{Need, Reduced};
use it_eliminate::problem_with;
use it_problems::{Problem, System};
use it_prove::{ClosedProblem, Effort, Proof};
use it_space::{Certificate, Row};
use std::alloc::{AllocError, Global};

/// A reduction: the givens under which rows are proved, and the effort of each run.
#[derive(Drop)]
struct Reduction<'a> {
    givens: &'a Problem,
    effort: Effort,
}

/// The rows that aren't visited yet: the next one, and those after it.
#[derive(Drop)]
struct Unvisited<'a> {
    next: &'a Row,
    after: &'a [Row],
}

/// Reduces the rows of `system`: visits them in order, each as the target of a run under the givens and all other rows that are still
/// in the list, in order, as `row` lines counted from 1. A row that is proved is dropped, any other is kept.
pub fn reduce(
    alloc: Global,
    system: &System,
    givens: &Problem,
    effort: Effort,
) -> Result<Reduced, AllocError>
    requires system { IsSystemUnder givens.now system.now }
    requires few_rows { length system.now.rows.items ≤ most_system_rows }
    ensures reduces { IfOk result (λ r. Reduces givens.now effort [] system.now.rows.items (kept_view r) (dropped_view r)) }
    ensures alike { IfOk result (λ r. HoldAlike givens.now system.now.rows.items (kept_rows (kept_view r))) }
    ensures needed { IfOk result (λ r. AreNeeded givens.now (kept_view r)) }
{
    let reduction = Reduction { givens, effort };
    // named before it is returned, so that the contract of the call is available at the return
    let reduced = reduced_rows(alloc, system.rows.as_slice(), &reduction)?;
    Ok(reduced)
}

/// Like `reduce`, without the claims about the rows that are kept. The caller keeps its rows, so each is copied twice: into the problem
/// under which the others are judged, and into the result.
fn reduced_rows(
    alloc: Global,
    rows: &[Row],
    reduction: &Reduction<'_>,
) -> Result<Reduced, AllocError>
    requires rows { AreRowsUpTo (size_of reduction.now.givens.now.space) rows.now }
    requires few_rows { length rows.now ≤ most_system_rows }
    requires few_givens { length reduction.now.givens.now.constraints ≤ most_system_rows }
    ensures { IfOk result (λ r. Reduces reduction.now.givens.now reduction.now.effort [] rows.now (kept_view r) (dropped_view r)) }
{
    let mut closed = ClosedProblem::read(alloc, reduction.givens, reduction.effort)?;
    let mut problem = problem_with(alloc, reduction.givens, rows)?;
    let mut reduced = Reduced {
        kept: Vec::new(alloc),
        dropped: Vec::new(alloc),
    };
    for i in 0..rows.len() {
        let rest = Unvisited {
            next: &rows[i],
            after: &rows[i + 1..],
        };
        visit(
            alloc,
            reduction,
            &mut problem,
            &mut closed,
            &mut reduced,
            &rest,
        )?;
    }
    Ok(reduced)
}

/// Visits the next row: in `problem` the rows kept so far are before it, and the unvisited ones after it. It is removed for its run, and
/// inserted again if it is kept. `closed` is the closed problem of the givens, which serves each visit.
fn visit(
    alloc: Global,
    reduction: &Reduction<'_>,
    problem: &mut Problem,
    closed: &mut ClosedProblem,
    reduced: &mut Reduced,
    rest: &Unvisited<'_>,
) -> Result<(), AllocError>
    requires few_givens { length reduction.now.givens.now.constraints ≤ most_system_rows }
    requires few { length reduced.old.kept.items + length rest.now.after.now < most_system_rows }
    requires next { IsOver (size_of reduction.now.givens.now.space) rest.now.next.now }
    requires kept { AreRowsUpTo (size_of reduction.now.givens.now.space) (map (λ k. k.0) reduced.old.kept.items) }
    requires after { AreRowsUpTo (size_of reduction.now.givens.now.space) rest.now.after.now }
    requires closed { IsClosedProblem reduction.now.givens.now closed.old }
    requires problem { problem.old ≡ with_unvisited reduction.now.givens.now reduced.old (rest.now.next.now ∷ rest.now.after.now) }
    ensures visited { OnOk result (IsVisited reduction.now.givens.now reduction.now.effort rest.now.next.now rest.now.after.now reduced.old reduced.new) }
    ensures closed { OnOk result (IsClosedProblem reduction.now.givens.now closed.new) }
    ensures problem { OnOk result (problem.new ≡ with_unvisited reduction.now.givens.now reduced.new rest.now.after.now) }
{
    reduction.givens.facts();
    let line = reduced.kept.len() + 1;
    let place = reduction.givens.constraints().len() + reduced.kept.len();
    let constraint = remove_row(&mut problem.constraints, place, line);
    let proof = closed.prove(alloc, problem, rest.next, reduction.effort)?;
    put(alloc, reduced, rest.next, proof)?;
    if reduced.kept.len() == line {
        insert_row(&mut problem.constraints, place, line, constraint)?;
    }
    Ok(())
}

/// Appends `row` to the dropped rows or to the kept ones, by its outcome.
fn put(alloc: Global, reduced: &mut Reduced, row: &Row, proof: Proof) -> Result<(), AllocError>
    ensures kept { OnOk result (kept_view reduced.new ≡ kept_view reduced.old ++ kept_by row.now (proof_view proof)) }
    ensures dropped { OnOk result (dropped_view reduced.new ≡ dropped_view reduced.old ++ dropped_by row.now (proof_view proof)) }
{
    match proof {
        Proof::Yes(certificate) => drop_row(alloc, reduced, row, certificate),
        Proof::No(point) => keep(alloc, reduced, row, Need::Needed(point)),
        Proof::Undecided(cause) => keep(alloc, reduced, row, Need::Unsettled(cause)),
    }
}

/// Appends `row` with its certificate to the dropped rows.
fn drop_row(
    alloc: Global,
    reduced: &mut Reduced,
    row: &Row,
    certificate: Certificate,
) -> Result<(), AllocError>
    ensures kept { OnOk result (kept_view reduced.new ≡ kept_view reduced.old) }
    ensures dropped { OnOk result (dropped_view reduced.new ≡ dropped_view reduced.old ++ (row.now, certificate_view certificate) ∷ []) }
{
    reduced.dropped.push((row.copy(alloc)?, certificate))?;
    Ok(())
}

/// Appends `row` with its need to the kept rows.
fn keep(alloc: Global, reduced: &mut Reduced, row: &Row, need: Need) -> Result<(), AllocError>
    ensures kept { OnOk result (kept_view reduced.new ≡ kept_view reduced.old ++ (row.now, need_view need) ∷ []) }
    ensures dropped { OnOk result (dropped_view reduced.new ≡ dropped_view reduced.old) }
{
    reduced.kept.push((row.copy(alloc)?, need))?;
    Ok(())
}
