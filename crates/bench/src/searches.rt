//! The search for a substitution.

ghost use Rattle.std.specs.Prelude.{IsTrue};
ghost use Rattle.it_question.specs.Questions.{verb_view};
ghost use Rattle.it_region.specs.Pairs.{IsPair, IsContainment};

use crate::Task;
use crate::output::Output;
use indexmap::IndexSet;
use it_contain::{
    Candidate, Contained, Pair, Proposer, Shape, Singles, Subsets, contain, fits, obligations, pair,
};
use it_prove::{Effort, Proof, Runs, prove};
use it_question::types::{Question, Verb};
use it_space::Row;
use std::alloc::{AllocError, Global};

/// The defined run, with as many steps as it takes.
const DEFINED: Effort = Effort {
    runs: Runs::Defined,
    pivots: None,
};

/// The number of calls of the solver, and the rows that they were about.
#[derive(Drop)]
struct Calls {
    count: u32,
    rows: IndexSet<Vec<(u32, i128)>>,
}

/// Whether the verb is `contain`.
fn is_containment(verb: &Verb) -> bool
    ensures { IsTrue result → IsContainment (verb_view verb.now) }
{
    match verb {
        Verb::Prove(_) => false,
        Verb::Eliminate { .. } => false,
        Verb::Contain { .. } => true,
    }
}

/// Counts a call about a row.
fn note(alloc: Global, calls: &mut Calls, row: &Row) -> Result<(), AllocError> {
    calls.count = calls.count.wrapping_add(1);
    let terms = Vec::from_slice(alloc, row.terms())?;
    calls.rows.insert(terms)?;
    Ok(())
}

/// Whether a candidate is proved, each obligation by a run of its own.
fn is_proved(
    alloc: Global,
    pair: &Pair,
    candidate: &Candidate,
    calls: &mut Calls,
) -> Result<bool, AllocError>
    requires { IsPair pair.now }
{
    if !fits(pair, candidate) {
        return Ok(false);
    }
    let rows = obligations(alloc, pair, candidate)?;
    for row in rows.as_slice() {
        note(alloc, calls, row)?;
        match prove(alloc, &pair.first, row, DEFINED)? {
            Proof::Yes(_) => {}
            Proof::No(_) => return Ok(false),
            Proof::Undecided(_) => return Ok(false),
        }
    }
    Ok(true)
}

/// The number of candidates of a box that are tried until one is proved, and whether one is.
fn search_box(
    alloc: Global,
    pair: &Pair,
    proposer: &mut Box<dyn Proposer>,
    tries: u32,
    calls: &mut Calls,
) -> Result<(u32, bool), AllocError>
    requires { IsPair pair.now }
{
    let shape = Shape {
        variables: pair.first.space.variables,
        parts: pair.parts,
    };
    proposer.begin(shape);
    for tried in 0..tries {
        let Some(candidate) = proposer.next() else {
            return Ok((tried, false));
        };
        if is_proved(alloc, pair, &candidate, calls)? {
            return Ok((tried, true));
        }
    }
    Ok((tries, false))
}

/// The search that keeps no outcome of an obligation: the number of candidates that are tried until one is proved, and whether one is.
fn search_plainly(
    alloc: Global,
    pair: &Pair,
    boxes: &mut Vec<Box<dyn Proposer>>,
    tries: u32,
    calls: &mut Calls,
) -> Result<(u32, bool), AllocError>
    requires { IsPair pair.now }
{
    let mut count: u32 = 0;
    for i in 0..boxes.len() {
        let rest = tries.saturating_sub(count);
        let (tried, is_found) = search_box(alloc, pair, &mut boxes[i], rest, calls)?;
        count = count.saturating_add(tried);
        if is_found {
            return Ok((count, true));
        }
    }
    Ok((count, false))
}

/// Makes one search that keeps outcomes, and writes how it ends.
fn search_kept(
    alloc: Global,
    out: &mut Output,
    pair: &Pair,
    boxes: &mut Vec<Box<dyn Proposer>>,
    tries: u32,
) -> Result<(), AllocError>
    requires { IsPair pair.now }
{
    match contain(alloc, pair, &[], boxes, tries, DEFINED)? {
        Contained::Found(_, proofs) => {
            out.put("found ");
            out.put(proofs.len());
            out.put(" proofs\n");
        }
        Contained::Open { tried } => {
            out.put("open ");
            out.put(tried);
            out.put('\n');
        }
    }
    Ok(())
}

/// Writes how a search ends, and its calls.
fn write_calls(out: &mut Output, is_found: bool, tried: u32, calls: &Calls) {
    out.put(if is_found { "found " } else { "open " });
    out.put(tried);
    out.put(" calls ");
    out.put(calls.count);
    out.put(" rows ");
    out.put(calls.rows.len());
    out.put('\n');
}

/// Makes one search that keeps no outcomes, and writes how it ends and its calls.
fn search_anew(
    alloc: Global,
    out: &mut Output,
    pair: &Pair,
    boxes: &mut Vec<Box<dyn Proposer>>,
    tries: u32,
) -> Result<(), AllocError>
    requires { IsPair pair.now }
{
    let mut calls = Calls {
        count: 0,
        rows: IndexSet::new(alloc),
    };
    let (tried, is_found) = search_plainly(alloc, pair, boxes, tries, &mut calls)?;
    write_calls(out, is_found, tried, &calls);
    Ok(())
}

/// Makes one search in the task's way.
fn search(
    alloc: Global,
    out: &mut Output,
    pair: &Pair,
    boxes: &mut Vec<Box<dyn Proposer>>,
    task: &Task<'_>,
) -> Result<(), AllocError>
    requires { IsPair pair.now }
{
    if task.way == "kept" {
        search_kept(alloc, out, pair, boxes, task.limit)
    } else {
        search_anew(alloc, out, pair, boxes, task.limit)
    }
}

/// Makes the searches of a question, among all sets of at most one variable and then all sets, and writes how each ends.
pub fn time(
    alloc: Global,
    out: &mut Output,
    question: &Question,
    task: &Task<'_>,
) -> Result<(), AllocError> {
    if !is_containment(question.verb()) {
        out.put("no containment\n");
        return Ok(());
    }
    let pair = pair(alloc, question)?;
    let mut boxes: Vec<Box<dyn Proposer>> = Vec::new(alloc);
    boxes.push(Box::new(alloc, Singles::new())?)?;
    boxes.push(Box::new(alloc, Subsets::new())?)?;
    for _ in 0..task.turns {
        search(alloc, out, &pair, &mut boxes, task)?;
    }
    Ok(())
}
