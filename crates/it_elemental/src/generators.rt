//! The generators of a problem by number: its elemental inequalities, then its constraints.
ghost use Rattle.std.specs.Prelude.{◌≡◌, ◌<◌, ◌≤◌, length};
ghost use Rattle.it_space.specs.Rows.{coefficient};
ghost use Rattle.it_polymatroid.specs.Elementals.{elementals, elemental_at};
ghost use Rattle.it_elemental.specs.Rows.{elemental_row};
ghost use Rattle.it_elemental.specs.Generators.{generators, generator_at, is_equation};
ghost use Rattle.it_space.specs.Spaces.{most_variables};

use crate::inequalities::count;
use crate::rows::coefficient;
use it_problems::{Kind, Problem};
use it_space::VarSet;

/// The number of generators of `problem`.
pub fn generator_count(problem: &Problem) -> u32
    ensures { result ≡ length (generators problem.now) }
{
    count(problem.space().variables) + problem.constraints().len() as u32
}

/// The kind of generator `index`: whether it must be at least 0, like each elemental inequality, or must be 0.
pub fn kind_at(problem: &Problem, index: u32) -> Kind
    requires listed { index < length (generators problem.now) }
    ensures { result ≡ (generator_at (generators problem.now) index).kind }
{
    let elementals = count(problem.space().variables);
    if index < elementals {
        return Kind::Inequality;
    }
    problem.constraints()[(index - elementals) as usize].kind
}

/// Whether generator `index` must be 0, so that its weight in a certificate may be negative.
pub fn is_equation(problem: &Problem, index: u32) -> bool
    requires listed { index < length (generators problem.now) }
    ensures { result ≡ is_equation (generator_at (generators problem.now) index).kind }
{
    match kind_at(problem, index) {
        Kind::Inequality => false,
        Kind::Equation => true,
    }
}

/// The coefficient of generator `index` at `coordinate`; coordinates are counted from 1.
pub fn coefficient_at(problem: &Problem, index: u32, coordinate: u32) -> i128
    requires listed { index < length (generators problem.now) }
    requires from_one { 1 ≤ coordinate }
    ensures { result ≡ coefficient (generator_at (generators problem.now) index).row coordinate }
{
    let n = problem.space().variables;
    let elementals = count(n);
    if index >= elementals {
        return problem.constraints()[(index - elementals) as usize]
            .row
            .coefficient(coordinate);
    }
    elemental_coefficient(n, index, coordinate)
}

/// The coefficient of elemental inequality `index` at `coordinate`, which is 0 at rates.
fn elemental_coefficient(n: u8, index: u32, coordinate: u32) -> i128
    requires some { 1 ≤ n }
    requires few { n ≤ most_variables }
    requires listed { index < length (elementals n) }
    requires from_one { 1 ≤ coordinate }
    ensures { result ≡ coefficient (elemental_row n (elemental_at n index)) coordinate }
{
    if coordinate < 1 << n {
        coefficient(n, index, VarSet::from_number(coordinate as u16))
    } else {
        0
    }
}
