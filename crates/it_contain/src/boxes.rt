//! Operations on a list of boxes: a box is a proposer whose type isn't known here.
//! The loops go by index, since their invariants speak of the whole list, with the first i boxes done.
ghost use Rattle.std.specs.Prelude.{◌≡◌, ◌<◌, ◌+◌, [], map, drop, get_or, vec_len};
ghost use Rattle.it_contain.specs.Shapes.{IsShape};
ghost use Rattle.it_contain.specs.Proposals.{Takes, plan_after};
ghost use Rattle.it_contain.specs.SearchSteps.{lists_of};

use crate::proposer::Proposer;
use crate::types::Shape;
use it_region::Candidate;

/// Begins a box.
fn begin_one(one: &mut Box<dyn Proposer>, shape: Shape)
    requires { IsShape shape }
    ensures pending { pending one.new ≡ plan one.old shape [] }
    ensures plan { plan one.new ≡ plan one.old }
{
    one.begin(shape);
}

/// Begins all boxes.
pub(crate) fn begin_all(boxes: &mut Vec<Box<dyn Proposer>>, shape: Shape)
    requires { IsShape shape }
    ensures pending { map pending boxes.new.items ≡ lists_of shape (map plan boxes.old.items) }
    ensures plan { map plan boxes.new.items ≡ map plan boxes.old.items }
{
    for i in 0..boxes.len() {
        begin_one(&mut boxes[i], shape);
    }
}

/// The next candidate of a box; None where it has no more.
fn next_of(one: &mut Box<dyn Proposer>) -> Option<Candidate>
    ensures takes { Takes (pending one.old) result (pending one.new) }
    ensures plan { plan one.new ≡ plan one.old }
{
    one.next()
}

/// The next candidate of box number `i`, counted from 0; None where it has no more.
pub(crate) fn next_at(boxes: &mut Vec<Box<dyn Proposer>>, i: usize) -> Option<Candidate>
    requires { i < vec_len boxes.old }
    ensures takes { Takes (get_or (map pending boxes.old.items) i []) result (get_or (map pending boxes.new.items) i []) }
    ensures later { drop (i + 1) (map pending boxes.new.items) ≡ drop (i + 1) (map pending boxes.old.items) }
    ensures plans { map plan boxes.new.items ≡ map plan boxes.old.items }
{
    next_of(&mut boxes[i])
}

/// Tells a box that a candidate was not proved.
fn tell_one(one: &mut Box<dyn Proposer>, candidate: &Candidate)
    ensures pending { pending one.new ≡ pending one.old }
    ensures plan { plan one.new ≡ plan one.old }
{
    one.learn(candidate, false);
}

/// Tells all boxes that a candidate was not proved.
pub(crate) fn tell_all(boxes: &mut Vec<Box<dyn Proposer>>, candidate: &Candidate)
    ensures pending { map pending boxes.new.items ≡ map pending boxes.old.items }
    ensures plans { map plan boxes.new.items ≡ map plan boxes.old.items }
{
    for i in 0..boxes.len() {
        tell_one(&mut boxes[i], candidate);
    }
}

/// Tells a box that a candidate was proved.
fn teach_one(one: &mut Box<dyn Proposer>, candidate: &Candidate)
    ensures { plan one.new ≡ plan_after candidate.now (plan one.old) }
{
    one.learn(candidate, true);
}

/// Tells all boxes that a candidate was proved.
pub(crate) fn teach_all(boxes: &mut Vec<Box<dyn Proposer>>, candidate: &Candidate)
    ensures { map plan boxes.new.items ≡ map (plan_after candidate.now) (map plan boxes.old.items) }
{
    for i in 0..boxes.len() {
        teach_one(&mut boxes[i], candidate);
    }
}
