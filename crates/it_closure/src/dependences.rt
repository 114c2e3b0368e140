//! The functional dependences among given equations, and the closure of a set under them.
ghost use Rattle.std.specs.Prelude.{IfOk, ◌≡◌, ◌<◌, ◌^◌, All};
ghost use Rattle.it_closure.specs.Closures.{closure, first_open, is_open};
ghost use Rattle.it_closure.specs.DependencesViews.{AreOfSpace};
ghost use Rattle.it_closure.specs.Reading.{dependences_of};

use crate::reading::read_all;
use it_elemental::count;
use it_problems::Problem;
use it_space::{Space, VarSet};
use std::alloc::{AllocError, Global};
use std::marker::Model;

/// The functional dependence that a given equation states: the variables of `from` determine those of the greater set `to`.
#[derive(Clone, Copy, Debug, PartialEq, Eq)]
pub struct Dependence {
    pub from: VarSet,
    pub to: VarSet,
    /// The number of the equation among the generators of the problem.
    pub generator: u32,
    /// Whether the equation's row is h(from) - h(to), and not h(to) - h(from).
    pub negated: bool,
}

/// All dependences of a problem, in the order of the generators.
#[derive(Debug, Drop)]
pub struct Dependences {
    space: Space,
    list: Vec<Dependence>,
}

impl Model for Dependences {
    ghost use Rattle.it_closure.specs.DependencesViews.{DependencesView, AreOfSpace};

    ghost Value = { DependencesView };

    ghost view = { λ d. record { space = d.space; list = d.list.items } };

    ghost invariant = { λ d. AreOfSpace (record { space = d.space; list = d.list.items }) };
}

impl Dependences {
    /// The dependences among the given equations of `problem`.
    pub fn read(alloc: Global, problem: &Problem) -> Result<Dependences, AllocError>
        ensures space { IfOk result (λ d. d.space ≡ problem.now.space) }
        ensures list { IfOk result (λ d. d.list ≡ dependences_of problem.now) }
    {
        problem.facts();
        let n = problem.space().variables;
        let list = read_all(alloc, n, count(n), problem.constraints())?;
        Ok(Dependences {
            space: problem.space(),
            list,
        })
    }

    /// The space of the problem that the dependences were read from.
    pub fn space(&self) -> Space
        ensures value { result ≡ self.now.space }
        ensures shape { AreOfSpace self.now }
    {
        self.space
    }

    /// The dependences, in the order of the generators.
    pub fn list(&self) -> &[Dependence]
        ensures { result.now ≡ self.now.list }
    {
        self.list.as_slice()
    }

    /// The closure of `set`: the least closed set that contains it.
    pub fn close(&self, set: VarSet) -> VarSet
        ensures all { result ≡ closure 16 self.now.list set }
        ensures own { set < 2 ^ self.now.space.variables → result ≡ closure self.now.space.variables self.now.list set }
    {
        closure(self.list.as_slice(), set)
    }
}

/// The closure of `set` under the dependences of `list`: the least closed set that contains it.
fn closure(list: &[Dependence], set: VarSet) -> VarSet
    requires below { All (λ d. d.to < 2 ^ 16) list.now }
    ensures { result ≡ closure 16 list.now set }
{
    let mut all = set;
    // a `loop` with `match`, since the proof uses the equation of `None` at the return
    loop {
        match first_open(list, all) {
            Some(open) => all = all.union(open.to),
            None => return all,
        }
    }
}

/// The first dependence of `list` that `set` violates: it contains `from`, but not `to`.
pub fn first_open(list: &[Dependence], set: VarSet) -> Option<Dependence>
    ensures { result ≡ first_open list.now set }
{
    for dependence in list {
        if is_open(*dependence, set) {
            return Some(*dependence);
        }
    }
    None
}

/// Whether `set` violates `dependence`.
fn is_open(dependence: Dependence, set: VarSet) -> bool
    ensures { result ≡ is_open dependence set }
{
    if dependence.from.inside(set) {
        !dependence.to.inside(set)
    } else {
        false
    }
}
