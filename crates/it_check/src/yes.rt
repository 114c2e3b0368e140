//! The verdict on a certificate.
ghost use Rattle.std.specs.Prelude.{◌≡◌, ◌<◌, ◌≤◌, ◌+◌, ◌-◌, ℤ, length, min, All, OkIff, None, ◌*ℤ◌};
ghost use Rattle.it_number.specs.Limit.{IsWithin};
ghost use Rattle.it_space.specs.Answers.{certificate_view};
ghost use Rattle.it_space.specs.Rows.{IsOver, coefficient};
ghost use Rattle.it_space.specs.Spaces.{size_of};
ghost use Rattle.it_elemental.specs.Generators.{generators};
ghost use Rattle.it_check.specs.Windows.{AreSums, window_length};
ghost use Rattle.it_check.specs.Sums.{product_within};
ghost use Rattle.it_check.specs.Verdicts.{of_scale, of_weight, of_weights, of_numbers, of_coordinates, yes_verdict};

use crate::verdicts::Verdict;
use crate::windows::{WINDOW_LENGTH, Window, window_from};
use it_elemental::{generator_count, is_equation};
use it_fraction::{Wide, signed_product};
use it_problems::Problem;
use it_space::{Certificate, Row};

/// The fault of the scale; `None` if it has none.
fn of_scale(certificate: &Certificate) -> Option<Verdict>
    ensures { result ≡ of_scale certificate.now.scale }
{
    let scale = certificate.scale;
    if scale < 1 {
        Some(Verdict::BadScale { scale })
    } else {
        None
    }
}

/// The fault of a weight: no generator has its number, or it is negative for an inequality; `None` if it has none.
fn of_weight(problem: &Problem, weight: &(u32, i128)) -> Option<Verdict>
    ensures { result ≡ of_weight (generators problem.now) weight.now }
{
    let index = weight.0;
    if index >= generator_count(problem) {
        return Some(Verdict::UnknownGenerator { index });
    }
    if weight.1 < 0 && !is_equation(problem, index) {
        return Some(Verdict::NegativeWeight { index });
    }
    None
}

/// The first fault of a weight; `None` if there is none.
fn of_weights(problem: &Problem, weights: &[(u32, i128)]) -> Option<Verdict>
    ensures { result ≡ of_weights (generators problem.now) weights.now }
{
    for weight in weights {
        if let Some(verdict) = of_weight(problem, weight) {
            return Some(verdict);
        }
    }
    None
}

/// The scale times the target's coefficient at coordinate `at`; `Wide` if it passes the limit.
fn left_number(target: &Row, certificate: &Certificate, at: u32) -> Result<i128, Wide>
    ensures { OkIff result (IsWithin (certificate.now.scale *ℤ coefficient target.now at)) (certificate.now.scale *ℤ coefficient target.now at) }
{
    signed_product(certificate.scale, target.coefficient(at))
}

/// The fault at `coordinate`, where `right` is the sum of weights times coefficients, `None` if it is wide: the two sides differ, or one
/// of them is wide; `None` if there is none.
fn of_coordinate(
    target: &Row,
    certificate: &Certificate,
    coordinate: u32,
    right: Option<i128>,
) -> Option<Verdict>
    ensures { result ≡ of_numbers coordinate (product_within certificate.now.scale (coefficient target.now coordinate)) right }
{
    let Ok(left) = left_number(target, certificate, coordinate) else {
        return Some(Verdict::Width { place: coordinate });
    };
    let Some(right) = right else {
        return Some(Verdict::Width { place: coordinate });
    };
    if left == right {
        return None;
    }
    Some(Verdict::Mismatch {
        coordinate,
        left,
        right,
    })
}

/// The fault at the first coordinate of a window, up to `size`, that has one; `None` if none has.
fn of_window(
    problem: &Problem,
    target: &Row,
    certificate: &Certificate,
    window: &Window,
) -> Option<Verdict>
    requires within { window.now.start ≤ size_of problem.now.space }
    requires sums { AreSums (generators problem.now) target.now certificate.now.weights.items window.now.start window.now.sums window.now.next }
    ensures { result ≡ of_coordinates (generators problem.now) target.now (certificate_view certificate.now) window.now.start (min window_length (size_of problem.now.space + 1 - window.now.start)) }
{
    problem.facts();
    let start = window.start;
    let end = (start + WINDOW_LENGTH as u32).min(problem.size() + 1);
    for coordinate in start..end {
        let right = window.sums[(coordinate - start) as usize];
        if let Some(verdict) = of_coordinate(target, certificate, coordinate, right) {
            return Some(verdict);
        }
    }
    None
}

/// The fault at the first coordinate that has one; `None` if none has. Coordinates between windows have none, since both sides are 0.
fn of_coordinates(problem: &Problem, target: &Row, certificate: &Certificate) -> Option<Verdict>
    requires listed { All (λ w. w.0 < length (generators problem.now)) certificate.now.weights.items }
    ensures { result ≡ of_coordinates (generators problem.now) target.now (certificate_view certificate.now) 1 (size_of problem.now.space) }
{
    problem.facts();
    let size = problem.size();
    let mut start = 1;
    while start <= size {
        let window = window_from(problem, target, certificate.weights.as_slice(), start);
        if let Some(verdict) = of_window(problem, target, certificate, &window) {
            return Some(verdict);
        }
        start = window.next;
    }
    None
}

/// Whether the weights add up to the scale times `target`: `Valid`, or the first fault, in order of the scale, the weights as listed
/// and the coordinates.
pub fn check_yes(problem: &Problem, target: &Row, certificate: &Certificate) -> Verdict
    requires target { IsOver (size_of problem.now.space) target.now }
    ensures { result ≡ yes_verdict (generators problem.now) (size_of problem.now.space) target.now (certificate_view certificate.now) }
{
    if let Some(verdict) = of_scale(certificate) {
        return verdict;
    }
    if let Some(verdict) = of_weights(problem, certificate.weights.as_slice()) {
        return verdict;
    }
    match of_coordinates(problem, target, certificate) {
        Some(verdict) => verdict,
        None => Verdict::Valid,
    }
}
