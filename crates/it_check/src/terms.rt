//! The terms of rows and generators, by coordinate.
ghost use Rattle.std.specs.Prelude.{◌≡◌, ◌<◌, ◌≤◌, ◌^◌, length};
ghost use Rattle.it_space.specs.Spaces.{most_variables};
ghost use Rattle.it_polymatroid.specs.Elementals.{elementals, elemental_at};
ghost use Rattle.it_elemental.specs.Rows.{elemental_row, set_term};
ghost use Rattle.it_elemental.specs.Generators.{generators, generator_at};
ghost use Rattle.it_check.specs.NextTerms.{IsNextTerm, first_from};

use it_elemental::{Elemental, count, parts};
use it_problems::Problem;
use it_space::Row;

/// The first term of `row` at a coordinate from `from` on; `None` if there is none.
pub fn next_of_row(row: &Row, from: u32) -> Option<(u32, i128)>
    ensures { IsNextTerm from row.now result }
{
    let terms = row.terms();
    let place = terms.partition_point(|term| term.0 < from);
    if place < terms.len() {
        Some(terms[place])
    } else {
        None
    }
}

/// The first term of generator `index` at a coordinate from `from` on; `None` if there is none.
pub fn next_of_generator(problem: &Problem, index: u32, from: u32) -> Option<(u32, i128)>
    requires listed { index < length (generators problem.now) }
    ensures { IsNextTerm from (generator_at (generators problem.now) index).row result }
{
    problem.facts();
    let n = problem.space().variables;
    let elementals = count(n);
    if index >= elementals {
        return next_of_row(
            &problem.constraints()[(index - elementals) as usize].row,
            from,
        );
    }
    next_of_elemental(n, index, from)
}

/// The first term of elemental inequality `index` at a coordinate from `from` on; `None` if there is none.
fn next_of_elemental(n: u8, index: u32, from: u32) -> Option<(u32, i128)>
    requires some { 1 ≤ n }
    requires few { n ≤ most_variables }
    requires listed { index < length (elementals n) }
    ensures { IsNextTerm from (elemental_row n (elemental_at n index)) result }
{
    match parts(n, index) {
        Elemental::Conditional { of } => {
            let all = power(n) - 1;
            term_from(all - power(of), -1, from).or(term_from(all, 1, from))
        }
        Elemental::Mutual { left, right, given } => {
            let given = given.number() as u32;
            let with_left = given + power(left);
            term_from(given, -1, from)
                .or(term_from(with_left, 1, from))
                .or(term_from(given + power(right), 1, from))
                .or(term_from(with_left + power(right), -1, from))
        }
    }
}

/// The term with `coefficient` at `coordinate` where that is from `from` on, else `None`; 0, the empty set, is no coordinate.
fn term_from(coordinate: u32, coefficient: i128, from: u32) -> Option<(u32, i128)>
    ensures { result ≡ first_from from (set_term coordinate coefficient) }
{
    if coordinate == 0 || coordinate < from {
        None
    } else {
        Some((coordinate, coefficient))
    }
}

/// 2 to the power of `i`: the number of the set of variable `i` alone, and one more than that of the set of all `i` variables.
fn power(i: u8) -> u32
    requires { i ≤ most_variables }
    ensures value { result ≡ 2 ^ i }
    ensures small { result ≤ 65536 }
{
    1 << i
}
