//! The order of fractions.
ghost use Rattle.std.specs.Prelude.{◌≡◌, ◌<◌, ◌*◌};
ghost use Rattle.std.specs.Ordering.{nat_cmp};

use std::cmp::Ordering;

/// The greatest number of 64 bits, 2^64 - 1.
const SHORT: u128 = u64::MAX as u128;

/// The order of a / b and c / d: by their whole parts, and where these agree by the inverses of the remainders. As soon as all four
/// numbers fit 64 bits, whose division is several times faster, the comparison goes on in 64 bits.
#[tactic(auto, using(crate::proofs::WholeParts::turn_lemmas))]
pub fn compare_parts(a: u128, b: u128, c: u128, d: u128) -> Ordering
    requires b_some { 0 < b }
    requires d_some { 0 < d }
    ensures { result ≡ nat_cmp (a * d) (c * b) }
{
    let mut numerator = a;
    let mut denominator = b;
    let mut other_numerator = c;
    let mut other_denominator = d;
    'rests: loop {
        if numerator <= SHORT
            && denominator <= SHORT
            && other_numerator <= SHORT
            && other_denominator <= SHORT
        {
            return short_compare(
                numerator as u64,
                denominator as u64,
                other_numerator as u64,
                other_denominator as u64,
            );
        }
        let whole = numerator / denominator;
        let other_whole = other_numerator / other_denominator;
        if whole != other_whole {
            return whole.cmp(&other_whole);
        }
        let rest = numerator % denominator;
        let other_rest = other_numerator % other_denominator;
        if rest == 0 || other_rest == 0 {
            return rest.cmp(&other_rest);
        }
        numerator = other_denominator;
        other_numerator = denominator;
        denominator = other_rest;
        other_denominator = rest;
    }
}

/// Like `compare_parts`, in 64 bits.
#[tactic(auto, using(crate::proofs::WholeParts::turn_lemmas))]
fn short_compare(a: u64, b: u64, c: u64, d: u64) -> Ordering
    requires b_some { 0 < b }
    requires d_some { 0 < d }
    ensures { result ≡ nat_cmp (a * d) (c * b) }
{
    let mut numerator = a;
    let mut denominator = b;
    let mut other_numerator = c;
    let mut other_denominator = d;
    'rests: loop {
        let whole = numerator / denominator;
        let other_whole = other_numerator / other_denominator;
        if whole != other_whole {
            return whole.cmp(&other_whole);
        }
        let rest = numerator % denominator;
        let other_rest = other_numerator % other_denominator;
        if rest == 0 || other_rest == 0 {
            return rest.cmp(&other_rest);
        }
        numerator = other_denominator;
        other_numerator = denominator;
        denominator = other_rest;
        other_denominator = rest;
    }
}
