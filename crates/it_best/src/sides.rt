//! A problem with the two sides of a relation.
ghost use Rattle.std.specs.Prelude.{◌≡◌, length};
ghost use Rattle.it_problems.specs.Problems.{IsProblem};
ghost use Rattle.it_space.specs.Rows.{IsOver};
ghost use Rattle.it_space.specs.Spaces.{size_of};
ghost use Rattle.it_elemental.specs.Generators.{generators};
ghost use Rattle.it_best.specs.PhaseSteps.{AreSides, sides_view};

use it_elemental::generator_count;
use it_problems::Problem;
use it_space::{Row, Space};
use std::marker::Model;

/// A problem, and the two sides between which a factor is sought, as rows over the coordinates of its space.
#[derive(Drop)]
pub struct Sides<'a> {
    problem: &'a Problem,
    left: &'a Row,
    right: &'a Row,
}

impl<'a> Model for Sides<'a> {
    ghost use Rattle.it_best.specs.PhaseSteps.{AreSides, SidesView, sides_view};

    ghost Value = { SidesView };

    ghost view = { λ s. sides_view s.problem.now s.left.now s.right.now };

    ghost invariant = { λ s. AreSides s.problem.now s.left.now s.right.now };
}

impl<'a> Sides<'a> {
    /// The sides `left` and `right` under `problem`.
    pub fn new(problem: &'a Problem, left: &'a Row, right: &'a Row) -> Sides<'a>
        requires left { IsOver (size_of problem.now.space) left.now }
        requires right { IsOver (size_of problem.now.space) right.now }
        ensures { result ≡ sides_view problem.now left.now right.now }
    {
        problem.facts();
        Sides {
            problem,
            left,
            right,
        }
    }

    /// What is true of all sides.
    pub fn facts(&self)
        ensures { AreSides self.now.problem self.now.left self.now.right }
    {
        let _ = &self.problem;
    }

    /// The problem under which the sides are compared.
    pub fn problem(&self) -> &'a Problem
        ensures { result.now ≡ self.now.problem }
    {
        self.problem
    }

    /// The left side, which the factor multiplies.
    pub fn left(&self) -> &'a Row
        ensures { result.now ≡ self.now.left }
    {
        self.left
    }

    /// The right side.
    pub fn right(&self) -> &'a Row
        ensures { result.now ≡ self.now.right }
    {
        self.right
    }

    /// The space of the problem.
    pub fn space(&self) -> Space
        ensures value { result ≡ self.now.problem.space }
        ensures problem { IsProblem self.now.problem }
    {
        self.problem.space()
    }

    /// The number of coordinates of the problem's space.
    pub fn size(&self) -> u32
        ensures { result ≡ size_of self.now.problem.space }
    {
        self.problem.size()
    }

    /// The number of the problem's generators.
    pub fn generator_count(&self) -> u32
        ensures { result ≡ length (generators self.now.problem) }
    {
        generator_count(self.problem)
    }
}
