//! The limits and the results of a search for outer bounds.
ghost use Rattle.std.specs.Prelude.{◌≡◌, IfOk};
ghost use Rattle.it_outer.specs.Outer.{limits_under};

use it_problems::{Problem, System};
use it_prove::Effort;
use it_space::{Cause, Certificate, Point, Row};
use std::alloc::{AllocError, Global};

/// The limits of a search.
#[derive(Clone, Copy, Debug, PartialEq, Eq)]
pub struct Limits {
    /// The most rows that a further ray may leave, before those that follow from others are dropped.
    pub rows: usize,
    /// The most rays.
    pub rays: usize,
    /// The effort to decide each row.
    pub effort: Effort,
}

impl Limits {
    /// These limits with the effort for rows under `problem`.
    pub fn under(self, alloc: Global, problem: &Problem) -> Result<Limits, AllocError>
        ensures { IfOk result (λ l. l ≡ limits_under problem.now self) }
    {
        let effort = self.effort.under(alloc, problem)?;
        Ok(Limits {
            rows: self.rows,
            rays: self.rays,
            effort,
        })
    }
}

/// Why bounds stay undecided.
#[derive(Debug, Drop)]
pub enum OuterCause {
    /// The run about this row of a hull has no end within its bounds, and why.
    Run(Row, Cause),
    /// A further ray leaves more rows than are allowed.
    Rows,
    /// A number of a hull passes 2^127 - 1.
    Width,
    /// The limit of rays was reached, and a row of their hull is still refuted.
    Rays,
}

/// The rows at the kept coordinates, as a system over the problem's space; a certificate of each, under the problem; and points
/// that meet the problem, the rays, which span all that the rows allow.
#[derive(Debug, Drop)]
pub struct Bounds {
    pub hull: System,
    pub proofs: Vec<Certificate>,
    pub rays: Vec<Point>,
}

/// The result of a search.
#[derive(Debug, Drop)]
pub enum Outer {
    Bounds(Bounds),
    Undecided(OuterCause),
}

/// The input of a search: the problem, the problem over its space in which all variables are constant, the kept coordinates, the rate at
/// which multipliers of rays are, and the limits.
#[derive(Drop)]
pub struct Frame<'a> {
    pub problem: &'a Problem,
    pub constants: Problem,
    pub kept: Vec<u32>,
    pub spare: u8,
    pub limits: Limits,
}

/// The result of a visit of rows: a certificate of each, or the first row that has none.
#[derive(Debug, Drop)]
pub enum Visit {
    Proved(Vec<Certificate>),
    /// A point refutes the row.
    Refuted(Point),
    /// The run about the row has no end within its bounds.
    Left(Row, Cause),
}

/// A hull, or why there is none.
#[derive(Debug, Drop)]
pub enum Next {
    Hull(System),
    TooMany,
    TooWide,
}

/// The result of a round: a hull and its rays with which the pass goes on, or the end of the pass.
#[derive(Debug, Drop)]
pub enum Round {
    Goes(System, Vec<Point>),
    Ends(Outer),
}
