//! The entropies of a code's variables.
ghost use Rattle.std.specs.Prelude.{◌≡◌, ◌≤◌, ◌<◌, ◌*◌, ◌-◌, ◌^◌, ℕ, pos, length, IfSome, IfNone, IfOk};
ghost use Rattle.std.specs.Bool.{OnFalse, OnTrue};
ghost use Rattle.it_codes.specs.Codes.{code_sets, variables_of, AreEntropies, FirstOtherIs, HasEntropy, IsEntropy, LackEntropy};

use crate::codes::LinearCode;
use crate::counting::{count_around, zero_sets};
use it_space::{Point, Space};
use std::alloc::{AllocError, Global};

/// The exponent of `size` for which `count` times the power is `total`; `None` if there is none.
fn exponent(count: u32, size: u32, total: u32) -> Option<u32>
    requires some { 2 ≤ size }
    requires few { size ≤ 3 }
    requires positive { 1 ≤ total }
    requires most { total ≤ 4096 }
    ensures found { IfSome result (λ h. count * size ^ h ≡ total) }
    ensures small { IfSome result (λ h. h ≤ 4096) }
    ensures none { IfNone result ((h : ℕ) → ¬ (count * size ^ h ≡ total)) }
{
    if count == 0 {
        return None;
    }
    let mut reached = count;
    let mut h = 0;
    while reached < total {
        reached *= size;
        h += 1;
    }
    if reached == total { Some(h) } else { None }
}

/// The entropy of `set`, in units of one symbol, given by `sets` the set of the variables that are 0 at each message. `None` if it
/// isn't a whole number.
#[tactic(auto, using(crate::proofs::EntropyLemmas::zero_set_count, crate::proofs::EntropyLemmas::some_message, crate::proofs::EntropyLemmas::two_elements, crate::proofs::EntropyLemmas::three_elements))]
fn entropy(code: &LinearCode, sets: &[u16], set: u16) -> Option<u32>
    requires sets { sets.now ≡ code_sets code.now }
    ensures found { IfSome result (λ h. IsEntropy code.now set h) }
    ensures small { IfSome result (λ h. h ≤ 4096) }
    ensures none { IfNone result ((h : ℕ) → ¬ IsEntropy code.now set h) }
{
    code.facts();
    exponent(
        count_around(set, sets),
        code.field().size(),
        code.message_count(),
    )
}

/// Whether `value` is `times` times `entropy`.
fn is_product(value: i128, times: u64, entropy: u32) -> bool
    requires { entropy ≤ 4096 }
    ensures yes { OnTrue result (value ≡ pos (times * entropy)) }
    ensures no { OnFalse result (¬ (value ≡ pos (times * entropy))) }
{
    if value == (times as u128 * entropy as u128) as i128 {
        true
    } else {
        false
    }
}

/// Whether the value of `set` at `point` is `times` times its entropy. `sets` are as for `entropy`.
#[tactic(auto, using(crate::proofs::EntropyLemmas::one_entropy))]
fn has_entropy(code: &LinearCode, sets: &[u16], times: u64, point: &Point, set: u16) -> bool
    requires sets { sets.now ≡ code_sets code.now }
    requires from_one { 1 ≤ set }
    requires within { set ≤ length point.now }
    ensures yes { OnTrue result (HasEntropy code.now times point.now set) }
    ensures no { OnFalse result (¬ HasEntropy code.now times point.now set) }
{
    match entropy(code, sets, set) {
        Some(h) => is_product(point.at(set as u32), times, h),
        None => false,
    }
}

/// The first set whose value at `point` isn't `times` times its entropy. `sets` are as for `entropy`.
fn first_other_of(code: &LinearCode, sets: &[u16], times: u64, point: &Point) -> Option<u16>
    requires sets { sets.now ≡ code_sets code.now }
    requires complete { 2 ^ variables_of code.now - 1 ≤ length point.now }
    ensures { FirstOtherIs code.now times point.now result }
{
    for set in 1..1u32 << code.variable_count() {
        if !has_entropy(code, sets, times, point, set as u16) {
            return Some(set as u16);
        }
    }
    None
}

/// The first set, by number, of the code's variables whose value at `point` isn't `times` times its entropy; `None` if all values are.
/// Rates are ignored. `Err` if allocation fails.
pub fn first_other(
    alloc: Global,
    code: &LinearCode,
    times: u64,
    point: &Point,
) -> Result<Option<u16>, AllocError>
    requires complete { 2 ^ variables_of code.now - 1 ≤ length point.now }
    ensures { IfOk result (FirstOtherIs code.now times point.now) }
{
    let sets = zero_sets(alloc, code)?;
    let other = first_other_of(code, sets.as_slice(), times, point);
    Ok(other)
}

/// The entropies of all nonempty sets of the code's variables, by number, in units of one symbol; `None` if one has none.
pub fn entropies_of(alloc: Global, code: &LinearCode) -> Result<Option<Point>, AllocError>
    ensures complete { IfOk result (λ o. IfSome o (λ p. length p ≡ 2 ^ variables_of code.now - 1)) }
    ensures values { IfOk result (λ o. IfSome o (AreEntropies code.now 1)) }
    ensures none { IfOk result (λ o. IfNone o (LackEntropy code.now)) }
{
    let sets = zero_sets(alloc, code)?;
    let space = Space {
        variables: code.variable_count(),
        rates: 0,
    };
    let mut values = Vec::with_capacity(alloc, space.size() as usize)?;
    for set in 1..1u32 << space.variables {
        match entropy(code, sets.as_slice(), set as u16) {
            Some(h) => values.push(h as i128)?,
            None => return Ok(None),
        }
    }
    Ok(Some(Point::new(space, values)))
}
