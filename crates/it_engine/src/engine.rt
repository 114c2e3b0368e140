//! The engine and its run.
ghost use Rattle.std.specs.Prelude.{◌≡◌, ◌+◌, ◌<◌, ◌≤◌, ℕ, ◌^◌, length, pos, None, Some, IfOk};
ghost use Rattle.std.specs.Bool.{OnFalse, OnTrue};
ghost use Rattle.std.specs.Option.{IfNone, IfSome};
ghost use Rattle.it_engine.specs.Behind.{AreEngineSteps};
ghost use Rattle.it_engine.specs.Loading.{IsNorm};
ghost use Rattle.it_engine.specs.Choosing.{first_negative_cost, right_side_of};
ghost use Rattle.it_engine.specs.Engine.{IsFinished, IsSafe, IsEngineStepOrStuck, RepresentsSome};
ghost use Rattle.it_engine.specs.Tables.{AreAllAtMost, whole_row_at};
ghost use Rattle.it_vectors.specs.Sizes.{AreAtMost};

use crate::behind::make_steps;
use crate::blocks::{Notes, Run};
use crate::choice::entering_column;
use crate::loading::norm;
use crate::pivots::enter;
use it_vectors::is_zero;
use it_whole::{Column, GaveUp, WholeRow};
use std::alloc::{AllocError, Global};
use std::marker::Model;

/// The number of steps after which the rows are full enough that it pays to leave them behind.
const MANY_STEPS: u32 = 500;

/// How a run ended.
#[derive(Debug, Drop, Clone, Copy)]
pub enum EngineEnd {
    /// The cost row's right side is 0.
    Weights,
    /// No column has a cost below 0.
    Point,
    /// All steps of the budget, the number given here, were made.
    Pivots(u32),
}

/// The parts of a table that are kept: its rows, the cost row last, each with its entries at the artificial columns and last its right
/// side; and the basic column of each row but the cost row.
pub struct Engine {
    alloc: Global,
    rows: Vec<WholeRow>,
    basis: Vec<usize>,
    notes: Notes,
}

impl Drop for Engine {
    fn drop(self) {
        let Engine {
            alloc: _,
            rows: _,
            basis: _,
            notes: _,
        } = self;
    }
}

impl Model for Engine {
    ghost use Rattle.std.specs.Prelude.{length};
    ghost use Rattle.it_engine.specs.Engine.{EngineView, HasRoom};

    ghost Value = { EngineView };

    ghost view = { λ e. record { rows = e.rows.items; basis = e.basis.items } };

    ghost invariant = { λ e. HasRoom (length e.basis.items) e.notes };
}

impl Engine {
    /// The engine with `rows`, the cost row last, and `basis`, the basic columns of the others.
    pub fn new(alloc: Global, rows: Vec<WholeRow>, basis: Vec<usize>) -> Result<Engine, AllocError>
        ensures rows { IfOk result (λ engine. engine.rows ≡ rows.items) }
        ensures basis { IfOk result (λ engine. engine.basis ≡ basis.items) }
    {
        let notes = Notes::new(alloc, basis.len())?;
        Ok(Engine {
            alloc,
            rows,
            basis,
            notes,
        })
    }

    /// A copy of the engine with rows in 32 bits; `None` if a number is above `limit` in absolute value, or a row is in 32 bits already.
    pub fn narrowed(&self, limit: u64) -> Result<Option<Engine>, AllocError>
        requires limit { limit < 2 ^ 31 }
        ensures engine { IfOk result (λ o. IfSome o (λ engine. engine ≡ self.now)) }
        ensures small { IfOk result (λ o. IfSome o (λ engine. AreAllAtMost limit self.now.rows)) }
    {
        let Some(rows) = narrowed_rows(self.alloc, self.rows.as_slice(), limit)? else {
            return Ok(None);
        };
        let basis = self.basis.clone()?;
        Ok(Some(Engine::new(self.alloc, rows, basis)?))
    }

    /// The allocator.
    fn alloc(&self) -> Global {
        self.alloc
    }

    /// The rows, the cost row last.
    pub fn rows(&self) -> &[WholeRow]
        ensures { result.now ≡ self.now.rows }
    {
        self.rows.as_slice()
    }

    /// The basic column of each row.
    pub fn basis(&self) -> &[usize]
        ensures { result.now ≡ self.now.basis }
    {
        self.basis.as_slice()
    }

    /// The cost row.
    fn cost_row(&self) -> &WholeRow
        requires { length self.now.basis < length self.now.rows }
        ensures { result.now ≡ whole_row_at self.now.rows (length self.now.basis) }
    {
        last_row(self.rows.as_slice(), self.basis.len())
    }

    /// Whether the cost row's right side is 0.
    fn is_done(&self) -> bool
        requires row { length self.now.basis < length self.now.rows }
        requires place { length self.now.basis < length (whole_row_at self.now.rows (length self.now.basis)).numbers }
        ensures yes { OnTrue result (right_side_of (length self.now.basis) self.now.rows (length self.now.basis) ≡ pos 0) }
        ensures no { OnFalse result (¬ (right_side_of (length self.now.basis) self.now.rows (length self.now.basis) ≡ pos 0)) }
    {
        is_zero(self.cost_row().number(self.basis.len()))
    }

    /// The entering column; `None` if no column has a cost below 0.
    fn next_column(&self, columns: &[Column]) -> Option<usize>
        requires { (limit : ℕ) × IsSafe columns.now limit self.now.rows self.now.basis }
        ensures within { IfSome result (λ c. c < length columns.now) }
        ensures some { IfSome result (λ c. first_negative_cost columns.now (whole_row_at self.now.rows (length self.now.basis)).numbers ≡ c) }
        ensures none { IfNone result (first_negative_cost columns.now (whole_row_at self.now.rows (length self.now.basis)).numbers ≡ length columns.now) }
    {
        entering_column(columns, self.cost_row())
    }

    /// Makes one step, if one is left, and returns whether it did. If it gives up, which it also does if no row leaves, nothing is known of
    /// the engine.
    fn step(&mut self, run: &Run<'_>) -> Result<bool, GaveUp>
        requires { IsSafe run.now.columns.now run.now.limit self.old.rows self.old.basis }
        ensures { IfOk result (λ moved. IsEngineStepOrStuck run.now.columns.now run.now.limit
            self.old.rows self.old.basis self.new.rows self.new.basis moved) }
    {
        let Some(column) = self.next_column(run.columns) else {
            return Ok(false);
        };
        let Some(row) = enter(
            self.rows.as_mut_slice(),
            run,
            self.basis.as_slice(),
            &mut self.notes.scratch,
            self.notes.entries.as_mut_slice(),
            &run.columns[column],
        ) else {
            return Err(GaveUp::TooLarge);
        };
        self.basis[row] = column;
        Ok(true)
    }

    /// Makes at most `most` degenerate steps, and returns their number, which may be 0, and is 0 with rows in 64 bits. If it gives up,
    /// nothing is known of the engine.
    fn still_steps(&mut self, run: &Run<'_>, most: u32) -> Result<u32, GaveUp>
        requires engine { IsSafe run.now.columns.now run.now.limit self.old.rows self.old.basis }
        requires norm { IsNorm run.now.columns.now run.now.norm }
        ensures steps { IfOk result (λ k. AreEngineSteps run.now.columns.now run.now.limit self.old.rows self.old.basis k self.new.rows self.new.basis) }
        ensures most { IfOk result (λ k. k ≤ most) }
    {
        if most == 0 || !self.cost_row().is_narrow() {
            return Ok(0);
        }
        make_steps(
            self.rows.as_mut_slice(),
            self.basis.as_mut_slice(),
            &mut self.notes,
            run,
            most,
        )
    }

    /// Makes the run with `budget` as the most steps. If it gives up, nothing is known of the engine.
    fn run_within(&mut self, run: &Run<'_>, budget: u32) -> Result<EngineEnd, GaveUp>
        requires engine { IsSafe run.now.columns.now run.now.limit self.old.rows self.old.basis }
        requires norm { IsNorm run.now.columns.now run.now.norm }
        ensures { IfOk result (λ finish. IsFinished run.now.columns.now run.now.limit
            self.old.rows self.old.basis (Some budget) self.new.rows self.new.basis finish) }
    {
        let mut k: u32 = 0;
        while k < budget {
            let most = most_still(k, budget - k - 1);
            let made = self.still_steps(run, most)?;
            k += made;
            if self.is_done() {
                return Ok(EngineEnd::Weights);
            }
            if !self.step(run)? {
                return Ok(EngineEnd::Point);
            }
            k += 1;
        }
        if self.is_done() {
            return Ok(EngineEnd::Weights);
        }
        match self.next_column(run.columns) {
            Some(_) => Ok(EngineEnd::Pivots(budget)),
            None => Ok(EngineEnd::Point),
        }
    }

    /// Makes the run without a budget. It terminates, since no set of basic columns recurs (Bland 1977). If it gives up, nothing is known of
    /// the engine.
    fn run_on(&mut self, run: &Run<'_>) -> Result<EngineEnd, GaveUp>
        requires engine { IsSafe run.now.columns.now run.now.limit self.old.rows self.old.basis }
        requires stands { RepresentsSome run.now.columns.now run.now.limit self.old.rows self.old.basis }
        requires norm { IsNorm run.now.columns.now run.now.norm }
        ensures { IfOk result (λ finish. IsFinished run.now.columns.now run.now.limit self.old.rows self.old.basis None self.new.rows self.new.basis finish) }
    {
        let mut k: u32 = 0;
        'steps: loop {
            let most = most_still(k, u32::MAX);
            let made = self.still_steps(run, most)?;
            k = k.saturating_add(made).saturating_add(1);
            if self.is_done() {
                return Ok(EngineEnd::Weights);
            }
            if !self.step(run)? {
                return Ok(EngineEnd::Point);
            }
        }
    }

    /// Makes the run with `budget` as the most steps, or without a budget. `columns` are those of the start, and `limit` bounds the
    /// numbers of the rows. If it gives up, nothing is known of the engine.
    pub fn run(
        &mut self,
        columns: &[Column],
        limit: u64,
        budget: Option<u32>,
    ) -> Result<EngineEnd, GaveUp>
        requires engine { IsSafe columns.now limit self.old.rows self.old.basis }
        requires stands { RepresentsSome columns.now limit self.old.rows self.old.basis }
        ensures { IfOk result (λ finish. IsFinished columns.now limit self.old.rows self.old.basis budget self.new.rows self.new.basis finish) }
    {
        let Some(norm) = norm(columns) else {
            return Err(GaveUp::TooLarge);
        };
        let run = Run {
            alloc: self.alloc(),
            columns,
            limit,
            norm,
        };
        match budget {
            Some(steps) => self.run_within(&run, steps),
            None => self.run_on(&run),
        }
    }
}

/// The most steps that may be made with rows that stay behind, after `made` steps and with `left` steps left: 0 early in a run, while
/// the rows have few nonzero numbers.
fn most_still(made: u32, left: u32) -> u32
    ensures { result ≤ left }
{
    if made < MANY_STEPS { 0 } else { left }
}

/// Copies of `rows` in 32 bits; `None` if a number is above `limit` in absolute value, or a row is in 32 bits already.
fn narrowed_rows(
    alloc: Global,
    rows: &[WholeRow],
    limit: u64,
) -> Result<Option<Vec<WholeRow>>, AllocError>
    requires limit { limit < 2 ^ 31 }
    ensures rows { IfOk result (λ o. IfSome o (λ narrow. narrow.items ≡ rows.now)) }
    ensures small { IfOk result (λ o. IfSome o (λ narrow. AreAllAtMost limit rows.now)) }
{
    let mut narrow = Vec::with_capacity(alloc, rows.len())?;
    // by index, since the invariant is about the first k rows
    for k in 0..rows.len() {
        let Some(row) = narrowed_row(alloc, rows, k, limit)? else {
            return Ok(None);
        };
        narrow.push(row)?;
    }
    Ok(Some(narrow))
}

/// A copy of row `k` in 32 bits; `None` if a number is above `limit` in absolute value, or the row is in 32 bits already.
fn narrowed_row(
    alloc: Global,
    rows: &[WholeRow],
    k: usize,
    limit: u64,
) -> Result<Option<WholeRow>, AllocError>
    requires row { k < length rows.now }
    requires limit { limit < 2 ^ 31 }
    ensures row { IfOk result (λ o. IfSome o (λ row. row ≡ whole_row_at rows.now k)) }
    ensures small { IfOk result (λ o. IfSome o (λ row. AreAtMost (whole_row_at rows.now k).numbers limit)) }
{
    rows[k].narrowed(alloc, limit)
}

/// Row `last` of `rows`.
#[tactic(auto, using(it_vectors::proofs::Items::item_by_default))]
fn last_row(rows: &[WholeRow], last: usize) -> &WholeRow
    requires { last < length rows.now }
    ensures { result.now ≡ whole_row_at rows.now last }
{
    &rows[last]
}
