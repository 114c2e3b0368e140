//! Tests: searches over boxes, with their candidates, limits and outcomes.

ghost use Rattle.std.specs.Prelude.{[], IfSome, IsTrue, replicate};
ghost use Rattle.it_question.specs.Questions.{verb_view};
ghost use Rattle.it_region.specs.Pairs.{IsPair, IsContainment};

use crate::fixtures::LONGEST_FILE;
use it_contain::{
    Candidate, Contained, Pair, Proposer, Recent, Shape, Singles, Subsets, contain, pair,
};
use it_problems::Problem;
use it_prove::{Effort, Runs};
use it_question::types::Verb;
use it_question::{FileLimits, questions};
use it_space::{Space, VarSet};
use std::alloc::Global;

/// The defined run, with as many steps as it takes.
const DEFINED: Effort = Effort {
    runs: Runs::Defined,
    pivots: None,
};

/// A proposer of one candidate, `times` times, whatever it is begun with. It learns nothing. One that lies in `learn`, so that a
/// failure changes what it proposes or a proof changes it otherwise than its plan says, can't be written: it has no proof.
#[derive(Drop)]
struct StubbornProposer {
    candidate: Candidate,
    times: u64,
    left: u64,
}

impl Proposer for StubbornProposer {
    ghost pending = { λ s. replicate s.left s.candidate };

    ghost plan = { λ s shape proved. replicate s.times s.candidate };

    fn begin(&mut self, _shape: Shape) {
        self.left = self.times;
    }

    fn next(&mut self) -> Option<Candidate> {
        if self.left == 0 {
            return None;
        }
        self.left -= 1;
        Some(self.candidate)
    }

    fn learn(&mut self, _candidate: &Candidate, _proved: bool) {}
}

/// A candidate of `count` sets, the first of which is `first` and the others are empty.
fn candidate(count: u8, first: VarSet) -> Candidate {
    Candidate {
        count,
        parts: [first, VarSet::empty(), VarSet::empty(), VarSet::empty()],
    }
}

/// Adds a stubborn box.
fn add_stubborn(
    alloc: Global,
    boxes: &mut Vec<Box<dyn Proposer>>,
    candidate: Candidate,
    times: u64,
) -> bool {
    let one = StubbornProposer {
        candidate,
        times,
        left: 0,
    };
    match Box::new(alloc, one) {
        Ok(one) => boxes.push(one).is_ok(),
        Err(_) => false,
    }
}

/// Adds the box of all sets.
fn add_subsets(alloc: Global, boxes: &mut Vec<Box<dyn Proposer>>) -> bool {
    match Box::new(alloc, Subsets::new()) {
        Ok(one) => boxes.push(one).is_ok(),
        Err(_) => false,
    }
}

/// Adds the box of all sets of at most one variable.
fn add_singles(alloc: Global, boxes: &mut Vec<Box<dyn Proposer>>) -> bool {
    match Box::new(alloc, Singles::new()) {
        Ok(one) => boxes.push(one).is_ok(),
        Err(_) => false,
    }
}

/// Adds the box of what was found last.
fn add_recent(alloc: Global, boxes: &mut Vec<Box<dyn Proposer>>) -> bool {
    match Box::new(alloc, Recent::new()) {
        Ok(one) => boxes.push(one).is_ok(),
        Err(_) => false,
    }
}

/// A first region of one variable without lines, and a second one of that and an auxiliary, without lines.
fn free_pair(alloc: Global) -> Pair
    ensures { IsPair result }
{
    let space = Space {
        variables: 1,
        rates: 0,
    };
    Pair {
        first: Problem {
            space,
            constraints: Vec::new(alloc),
        },
        space: Space {
            variables: 2,
            rates: 0,
        },
        common: 1,
        parts: 1,
        own: Vec::new(alloc),
    }
}

/// Whether a search tried `count` candidates in vain.
fn has_tried(end: &Contained, count: u32) -> bool {
    match end {
        Contained::Open { tried } => *tried == count,
        Contained::Found(..) => false,
    }
}

/// Whether a search found a candidate with the first part `part`.
fn has_part(end: &Contained, part: VarSet) -> bool {
    match end {
        Contained::Open { .. } => false,
        Contained::Found(candidate, _) => candidate.parts[0] == part,
    }
}

/// Whether a search by these boxes tries `count` candidates in vain.
fn is_open(
    alloc: Global,
    pair: &Pair,
    first: &[Candidate],
    boxes: &mut Vec<Box<dyn Proposer>>,
    tries: u32,
    count: u32,
) -> bool
    requires { IsPair pair.now }
{
    match contain(alloc, pair, first, boxes, tries, DEFINED) {
        Ok(end) => has_tried(&end, count),
        Err(_) => false,
    }
}

/// Whether a search by these boxes finds a candidate with the first part `part`.
fn is_found(
    alloc: Global,
    pair: &Pair,
    first: &[Candidate],
    boxes: &mut Vec<Box<dyn Proposer>>,
    tries: u32,
    part: VarSet,
) -> bool
    requires { IsPair pair.now }
{
    match contain(alloc, pair, first, boxes, tries, DEFINED) {
        Ok(end) => has_part(&end, part),
        Err(_) => false,
    }
}

/// Whether a set of a variable that there isn't, and sets for two auxiliaries where there is one, are tried and not proved, and
/// the next candidate, the empty set, is.
fn do_not_fit(alloc: Global) -> bool {
    let pair = free_pair(alloc);
    let first = [candidate(1, VarSet::single(9))];
    let mut boxes: Vec<Box<dyn Proposer>> = Vec::new(alloc);
    add_stubborn(alloc, &mut boxes, candidate(2, VarSet::single(9)), 1)
        && is_open(alloc, &pair, &first, &mut boxes, 256, 2)
        && add_subsets(alloc, &mut boxes)
        && is_found(alloc, &pair, &first, &mut boxes, 256, VarSet::empty())
}

#[test]
fn candidates_that_do_not_fit(rt: HostRuntime) {
    assert!(rt; do_not_fit(rt.alloc()));
}

/// Under the first region a rate is at most I(X;Y), and with U standing for X it lies in the second.
const REGIONS: &[u8] = b"vars X, Y
rates R
region
row R <= I(X;Y)
region
aux U
given markov U -> X -> Y
row R <= I(U;Y)
contain
";

fn is_containment(verb: &Verb) -> bool
    ensures { IsTrue result → IsContainment (verb_view verb.now) }
{
    match verb {
        Verb::Prove(_) => false,
        Verb::Eliminate { .. } => false,
        Verb::Contain { .. } => true,
    }
}

/// The pair of the two regions.
fn pair_of_regions(alloc: Global) -> Option<Pair>
    ensures { IfSome result IsPair }
{
    if REGIONS.len() > LONGEST_FILE {
        return None;
    }
    let asked = questions(alloc, REGIONS, FileLimits::USUAL).ok()?;
    if asked.len() != 1 {
        return None;
    }
    let question = &asked.as_slice()[0];
    if !is_containment(question.verb()) {
        return None;
    }
    match pair(alloc, question) {
        Ok(pair) => Some(pair),
        Err(_) => None,
    }
}

/// Three candidates of a set that there isn't, and after them all sets of at most one variable: strangers count among the tries, so
/// X is the fifth candidate.
fn do_not_exist(alloc: Global, pair: &Pair) -> bool
    requires { IsPair pair.now }
{
    let mut boxes: Vec<Box<dyn Proposer>> = Vec::new(alloc);
    add_stubborn(alloc, &mut boxes, candidate(1, VarSet::single(2)), 3)
        && add_singles(alloc, &mut boxes)
        && is_open(alloc, pair, &[], &mut boxes, 3, 3)
        && is_open(alloc, pair, &[], &mut boxes, 4, 4)
        && is_found(alloc, pair, &[], &mut boxes, 5, VarSet::single(0))
}

/// One box that never ends, with a candidate that fits and isn't proved, takes all tries, and the next box has none.
fn do_not_end(alloc: Global, pair: &Pair) -> bool
    requires { IsPair pair.now }
{
    let mut boxes: Vec<Box<dyn Proposer>> = Vec::new(alloc);
    add_stubborn(alloc, &mut boxes, candidate(1, VarSet::empty()), u64::MAX)
        && add_singles(alloc, &mut boxes)
        && is_open(alloc, pair, &[], &mut boxes, 256, 256)
}

/// What was proved for one question is tried first for the next.
fn come_first(alloc: Global, pair: &Pair) -> bool
    requires { IsPair pair.now }
{
    let mut boxes: Vec<Box<dyn Proposer>> = Vec::new(alloc);
    let known = [candidate(1, VarSet::single(0))];
    add_recent(alloc, &mut boxes)
        && is_found(alloc, pair, &known, &mut boxes, 1, VarSet::single(0))
        && is_found(alloc, pair, &[], &mut boxes, 1, VarSet::single(0))
}

/// Whether the searches about the two regions end as they should.
fn are_searched(alloc: Global) -> bool {
    match pair_of_regions(alloc) {
        Some(pair) => {
            do_not_exist(alloc, &pair) && do_not_end(alloc, &pair) && come_first(alloc, &pair)
        }
        None => false,
    }
}

#[test]
fn candidates_that_do_not_exist_or_end_and_what_worked_last(rt: HostRuntime) {
    assert!(rt; are_searched(rt.alloc()));
}
