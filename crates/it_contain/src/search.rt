//! The search for a candidate that is proved.
ghost use Rattle.std.specs.Prelude.{◌≡◌, ◌<◌, ◌+◌, map, drop, vec_len, IfOk, OnOk};
ghost use Rattle.it_region.specs.Pairs.{IsPair};
ghost use Rattle.it_contain.specs.Search.{pair_goal, PairEnds};
ghost use Rattle.it_contain.specs.Shapes.{IsShape, shape_of};
ghost use Rattle.it_contain.specs.SearchSteps.{AreOutcomes, BoxEnds, Judges, KeepsLater, KeepsPending, ListEnds, plans_after_try};

use crate::boxes::{begin_all, next_at, teach_all, tell_all};
use crate::judging::proofs_of_candidate;
use crate::outcomes::Outcomes;
use crate::proposer::Proposer;
use crate::types::{Contained, Shape};
use it_prove::Effort;
use it_region::{Candidate, Pair};
use it_space::Certificate;
use std::alloc::{AllocError, Global};

/// What a candidate has to show: that the first region of `pair` lies in the second; with the effort for each of its targets.
#[derive(Drop)]
struct Goal<'a> {
    pair: &'a Pair,
    effort: Effort,
}

/// Looks for a substitution that shows that the pair's first region lies in the second, with the effort `effort` for each target.
/// All boxes are begun, and at most `tries` candidates are tried: those of `first`, then those of each box in order. A candidate that
/// doesn't fit counts. The boxes learn of the candidate that is found, for later questions; if none is found, their plans stay. If
/// memory runs out, nothing is known of the boxes.
pub fn contain(
    alloc: Global,
    pair: &Pair,
    first: &[Candidate],
    boxes: &mut Vec<Box<dyn Proposer>>,
    tries: u32,
    effort: Effort,
) -> Result<Contained, AllocError>
    requires pair { IsPair pair.now }
    ensures { IfOk result (λ r. PairEnds pair.now effort tries first.now (map plan boxes.old.items) r (map plan boxes.new.items)) }
{
    let mut outcomes = Outcomes::new(alloc, &pair.first, effort)?;
    let goal = Goal { pair, effort };
    // named before it is answered, so that the contract of the call stands at the answer
    let end = try_all(alloc, &goal, first, boxes, tries, &mut outcomes)?;
    Ok(end)
}

/// Tries a candidate, and tells all boxes whether it is proved. Gives its certificates, if it is.
fn try_one(
    alloc: Global,
    goal: &Goal<'_>,
    candidate: &Candidate,
    boxes: &mut Vec<Box<dyn Proposer>>,
    outcomes: &mut Outcomes,
) -> Result<Option<Vec<Certificate>>, AllocError>
    requires pair { IsPair goal.now.pair.now }
    requires outcomes { AreOutcomes goal.now.pair.now.first goal.now.effort outcomes.old }
    ensures judges { IfOk result (λ o. Judges (pair_goal goal.now.pair.now goal.now.effort) candidate.now o) }
    ensures pending { IfOk result (λ o. KeepsPending o (map pending boxes.old.items) (map pending boxes.new.items)) }
    ensures plans { IfOk result (λ o. map plan boxes.new.items ≡ plans_after_try candidate.now o (map plan boxes.old.items)) }
    ensures outcomes { OnOk result (AreOutcomes goal.now.pair.now.first goal.now.effort outcomes.new) }
{
    match proofs_of_candidate(alloc, goal.pair, candidate, goal.effort, outcomes)? {
        Some(proof) => {
            teach_all(boxes, candidate);
            Ok(Some(proof))
        }
        None => {
            tell_all(boxes, candidate);
            Ok(None)
        }
    }
}

/// Tries the first `tries` candidates of a list.
fn try_list(
    alloc: Global,
    goal: &Goal<'_>,
    first: &[Candidate],
    boxes: &mut Vec<Box<dyn Proposer>>,
    tries: u32,
    outcomes: &mut Outcomes,
) -> Result<Contained, AllocError>
    requires pair { IsPair goal.now.pair.now }
    requires outcomes { AreOutcomes goal.now.pair.now.first goal.now.effort outcomes.old }
    ensures ends { IfOk result (λ r. ListEnds goal.now tries first.now (map plan boxes.old.items) r (map plan boxes.new.items)) }
    ensures later { IfOk result (λ r. KeepsLater r (map pending boxes.old.items) (map pending boxes.new.items)) }
    ensures outcomes { OnOk result (AreOutcomes goal.now.pair.now.first goal.now.effort outcomes.new) }
{
    let mut count: u32 = 0;
    for candidate in first {
        if count == tries {
            return Ok(Contained::Open { tried: count });
        }
        match try_one(alloc, goal, candidate, boxes, outcomes)? {
            Some(proof) => return Ok(Contained::Found(*candidate, proof)),
            None => count += 1,
        }
    }
    Ok(Contained::Open { tried: count })
}

/// Tries the first `tries` candidates of box number `i`, counted from 0.
fn try_box(
    alloc: Global,
    goal: &Goal<'_>,
    boxes: &mut Vec<Box<dyn Proposer>>,
    i: usize,
    tries: u32,
    outcomes: &mut Outcomes,
) -> Result<Contained, AllocError>
    requires pair { IsPair goal.now.pair.now }
    requires outcomes { AreOutcomes goal.now.pair.now.first goal.now.effort outcomes.old }
    requires box_is { i < vec_len boxes.old }
    ensures ends { IfOk result (λ r. BoxEnds goal.now tries (map pending boxes.old.items) i (map plan boxes.old.items) r (map plan boxes.new.items)) }
    ensures later { IfOk result (λ r. KeepsLater r (drop (i + 1) (map pending boxes.old.items)) (drop (i + 1) (map pending boxes.new.items))) }
    ensures outcomes { OnOk result (AreOutcomes goal.now.pair.now.first goal.now.effort outcomes.new) }
{
    for count in 0..tries {
        let Some(candidate) = next_at(boxes, i) else {
            return Ok(Contained::Open { tried: count });
        };
        match try_one(alloc, goal, &candidate, boxes, outcomes)? {
            Some(proof) => return Ok(Contained::Found(candidate, proof)),
            None => {}
        }
    }
    Ok(Contained::Open { tried: tries })
}

/// The shape of a pair's candidates.
fn shape_of(pair: &Pair) -> Shape
    requires pair { IsPair pair.now }
    ensures value { result ≡ shape_of pair.now }
    ensures shape { IsShape result }
{
    Shape {
        variables: pair.first.space.variables,
        parts: pair.parts,
    }
}

/// Tries the first `tries` candidates of the plan for the shape of the goal's pair.
fn try_all(
    alloc: Global,
    goal: &Goal<'_>,
    first: &[Candidate],
    boxes: &mut Vec<Box<dyn Proposer>>,
    tries: u32,
    outcomes: &mut Outcomes,
) -> Result<Contained, AllocError>
    requires pair { IsPair goal.now.pair.now }
    requires outcomes { AreOutcomes goal.now.pair.now.first goal.now.effort outcomes.old }
    ensures { IfOk result (λ r. PairEnds goal.now.pair.now goal.now.effort tries first.now (map plan boxes.old.items) r (map plan boxes.new.items)) }
{
    let shape = shape_of(goal.pair);
    begin_all(boxes, shape);
    let mut count = match try_list(alloc, goal, first, boxes, tries, outcomes)? {
        Contained::Found(candidate, proof) => return Ok(Contained::Found(candidate, proof)),
        Contained::Open { tried } => tried,
    };
    for i in 0..boxes.len() {
        match try_box(alloc, goal, boxes, i, tries - count, outcomes)? {
            Contained::Found(candidate, proof) => return Ok(Contained::Found(candidate, proof)),
            Contained::Open { tried: more } => count += more,
        }
    }
    Ok(Contained::Open { tried: count })
}
