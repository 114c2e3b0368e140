//! The verdicts on a point that should meet a problem, and on a counterexample.
ghost use Rattle.std.specs.Prelude.{◌≡◌, ◌<◌, length, pos};
ghost use Rattle.it_space.specs.Rows.{IsOver, point_of};
ghost use Rattle.it_space.specs.Spaces.{size_of};
ghost use Rattle.it_polymatroid.specs.Elementals.{elementals};
ghost use Rattle.it_elemental.specs.Generators.{generators};
ghost use Rattle.it_check.specs.Findings.{of_generator};
ghost use Rattle.it_check.specs.Sums.{sum_within};
ghost use Rattle.it_check.specs.Verdicts.{violates, violation, of_generators, of_target, met_verdict, no_verdict};

use crate::values::generator_value;
use crate::verdicts::Verdict;
use it_elemental::{count, generator_count, kind_at};
use it_problems::{Kind, Problem};
use it_space::{Point, Row, value};

/// Whether `value` violates an inequality or an equation.
fn violates(kind: Kind, value: i128) -> bool
    ensures { result ≡ violates kind value }
{
    match kind {
        Kind::Inequality => value < 0,
        Kind::Equation => value != 0,
    }
}

/// The verdict that generator `index`, whose value at the point is `value`, is violated.
fn violation(problem: &Problem, index: u32, value: i128) -> Verdict
    ensures { result ≡ violation (length (elementals problem.now.space.variables)) index value }
{
    if index < count(problem.space().variables) {
        Verdict::BrokenElemental { index, value }
    } else {
        Verdict::UnmetConstraint { index, value }
    }
}

/// The verdict on `point` at generator `index`: that it is violated, or its value is wide; `None` if it is met.
fn of_generator(problem: &Problem, index: u32, point: &Point) -> Option<Verdict>
    requires listed { index < length (generators problem.now) }
    requires complete { length point.now ≡ size_of problem.now.space }
    ensures { result ≡ of_generator problem.now index (point_of point.now) }
{
    let Ok(value) = generator_value(problem, index, point) else {
        return Some(Verdict::Width { place: index });
    };
    if violates(kind_at(problem, index), value) {
        Some(violation(problem, index, value))
    } else {
        None
    }
}

/// The verdict at the first generator that is violated or whose value is wide; `None` if there is none.
fn of_generators(problem: &Problem, point: &Point) -> Option<Verdict>
    requires complete { length point.now ≡ size_of problem.now.space }
    ensures { result ≡ of_generators (length (elementals problem.now.space.variables)) 0 (generators problem.now) (point_of point.now) }
{
    for index in 0..generator_count(problem) {
        if let Some(verdict) = of_generator(problem, index, point) {
            return Some(verdict);
        }
    }
    None
}

/// Whether `point` meets `problem`: `Valid`, or the first fault, in order of the generators.
#[tactic(auto, unfolding(crate::specs::Verdicts::met_verdict))]
pub fn check_met(problem: &Problem, point: &Point) -> Verdict
    requires complete { length point.now ≡ size_of problem.now.space }
    ensures { result ≡ met_verdict (length (elementals problem.now.space.variables)) (generators problem.now) (point_of point.now) }
{
    match of_generators(problem, point) {
        Some(verdict) => verdict,
        None => Verdict::Valid,
    }
}

/// The verdict on `point` at the target: that it isn't violated, or its value is wide; `None` if it is violated.
fn of_target(problem: &Problem, target: &Row, point: &Point) -> Option<Verdict>
    requires target { IsOver (size_of problem.now.space) target.now }
    requires complete { length point.now ≡ size_of problem.now.space }
    ensures { result ≡ of_target (length (generators problem.now)) (sum_within (pos 0) target.now (point_of point.now)) }
{
    let Ok(value) = value(target, point) else {
        let place = generator_count(problem);
        return Some(Verdict::Width { place });
    };
    if value < 0 {
        None
    } else {
        Some(Verdict::NotViolated { value })
    }
}

/// Whether `point` meets `problem` and violates `target`: `Valid`, or the first fault, in order of the generators and then the target.
pub fn check_no(problem: &Problem, target: &Row, point: &Point) -> Verdict
    requires target { IsOver (size_of problem.now.space) target.now }
    requires complete { length point.now ≡ size_of problem.now.space }
    ensures { result ≡ no_verdict (length (elementals problem.now.space.variables)) (generators problem.now) target.now (point_of point.now) }
{
    if let Some(verdict) = of_generators(problem, point) {
        return verdict;
    }
    match of_target(problem, target, point) {
        Some(verdict) => verdict,
        None => Verdict::Valid,
    }
}
