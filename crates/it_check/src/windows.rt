//! The sums of weights times coefficients, at a window of consecutive coordinates at a time.
ghost use Rattle.std.specs.Prelude.{◌≡◌, ◌<◌, ◌≤◌, ◌+◌, ◌^◌, All, length};
ghost use Rattle.it_elemental.specs.Generators.{generators, generator_at};
ghost use Rattle.it_check.specs.NextTerms.{IsZeroBetween};
ghost use Rattle.it_check.specs.Windows.{AreAdded, AreSums, plus_product, window_length};

use crate::terms::{next_of_generator, next_of_row};
use it_problems::Problem;
use it_space::{Row, with_product};

/// The number of coordinates of a window: each generator that is weighed is read once for all of them.
pub const WINDOW_LENGTH: usize = 16;

/// The sums at the coordinates from `start` on, `None` where one is wide, and the first coordinate past them at which the target or a
/// generator that is weighed has a coefficient, `u32::MAX` if there is none.
#[derive(Drop)]
pub struct Window {
    pub start: u32,
    pub sums: [Option<i128>; WINDOW_LENGTH],
    pub next: u32,
}

/// `sum` plus the product of `a` and `b`; `None` where there is no sum, or the product or the new sum passes the limit.
fn plus_product(sum: Option<i128>, a: i128, b: i128) -> Option<i128>
    ensures { result ≡ plus_product sum a b }
{
    with_product(sum?, a, b).ok()
}

/// Adds a weight times the coefficients of its generator to the sums at the coordinates from `start` on, and returns the first
/// coordinate past them at which the generator has a coefficient, `u32::MAX` if there is none.
fn add_weighed(
    problem: &Problem,
    weight: &(u32, i128),
    start: u32,
    sums: &mut [Option<i128>],
) -> u32
    requires listed { weight.now.0 < length (generators problem.now) }
    requires few { start + window_length < 2 ^ 32 }
    requires long { length sums.old ≡ window_length }
    ensures sums { AreAdded (generator_at (generators problem.now) weight.now.0).row weight.now.1 start sums.old sums.new }
    ensures later { start + window_length ≤ result }
    ensures rest { IsZeroBetween (start + window_length) result (generator_at (generators problem.now) weight.now.0).row }
{
    let mut from = start;
    while let Some((coordinate, coefficient)) = next_of_generator(problem, weight.0, from) {
        let place = (coordinate - start) as usize;
        if place >= WINDOW_LENGTH {
            return coordinate;
        }
        sums[place] = plus_product(sums[place], weight.1, coefficient);
        from = coordinate + 1;
    }
    u32::MAX
}

/// The first coordinate from `from` on at which `row` has a coefficient, `u32::MAX` if there is none.
fn first_coordinate(row: &Row, from: u32) -> u32
    ensures from { from ≤ result }
    ensures zero { IsZeroBetween from result row.now }
{
    match next_of_row(row, from) {
        Some((coordinate, _)) => coordinate,
        None => u32::MAX,
    }
}

/// The sums of the weights times the generators' coefficients at the coordinates from `start` on.
pub fn window_from(problem: &Problem, target: &Row, weights: &[(u32, i128)], start: u32) -> Window
    requires listed { All (λ w. w.0 < length (generators problem.now)) weights.now }
    requires few { start + window_length < 2 ^ 32 }
    ensures start { result.start ≡ start }
    ensures sums { AreSums (generators problem.now) target.now weights.now result.start result.sums result.next }
{
    let mut sums = [Some(0); WINDOW_LENGTH];
    let mut next = first_coordinate(target, start + WINDOW_LENGTH as u32);
    for weight in weights {
        next = next.min(add_weighed(problem, weight, start, &mut sums));
    }
    Window { start, sums, next }
}
