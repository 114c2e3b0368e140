//! Numbers in reports: decimal texts, and integers of JSON.
ghost use Rattle.std.specs.Prelude.{◌≡◌, ◌≤◌, ◌<◌, ◌^◌, ◌+◌, ◌*◌, ◌-◌, SomeIff, option_and_then, Some, ℕ};
ghost use Rattle.serde_json.specs.View.{view};
ghost use Rattle.it_number.specs.Decimals.{value_from};
ghost use Rattle.it_certificate.specs.Numerals.{below, count_of_integer, integer_of, magnitude_of, step_of};
ghost use Rattle.it_certificate.specs.Parts.{count_at, integer_at};

use serde_json::Value;

/// The greatest number, 2^127 - 1.
const GREATEST: u128 = 170141183460469231731687303715884105727;

/// `n` with the digit `d` behind it, unless that passes 2^127 - 1.
fn with_digit(n: u128, d: u8) -> Option<u128>
    requires within { n < 2 ^ 127 }
    requires digit { 48 ≤ d }
    requires last { d ≤ 57 }
    ensures { SomeIff result (10 * n + (d - 48) < 2 ^ 127) (10 * n + (d - 48)) }
{
    if n > 17014118346046923173168730371588410572 {
        return None;
    }
    let more = 10 * n + (d - 48) as u128;
    if more > GREATEST { None } else { Some(more) }
}

/// The value of `digits`; None where it passes 2^127 - 1 or one of them is no digit.
fn value_up_to_limit(digits: &[u8]) -> Option<u128>
    ensures { result ≡ option_and_then (below (2 ^ 127)) (value_from 0 digits.now) }
{
    let mut n: u128 = 0;
    for d in digits {
        if !d.is_ascii_digit() {
            return None;
        }
        // `?` would do; with the match each case is a goal of its own, with the clause of `with_digit` at hand
        match with_digit(n, *d) {
            Some(more) => n = more,
            None => return None,
        }
    }
    Some(n)
}

/// The value of 1 to 39 digits, at most 2^127 - 1.
#[tactic(auto, unfolding(crate::specs::Numerals::magnitude_of))]
fn magnitude_of(digits: &[u8]) -> Option<u128>
    ensures value { result ≡ magnitude_of digits.now }
    ensures within { (m : ℕ) → result ≡ Some m → m < 2 ^ 127 }
{
    if digits.len() >= 1 && digits.len() <= 39 {
        value_up_to_limit(digits)
    } else {
        None
    }
}

/// The value of a decimal text.
#[tactic(auto, unfolding(crate::specs::Numerals::integer_of))]
fn integer_of(text: &[u8]) -> Option<i128>
    ensures { result ≡ integer_of text.now }
{
    match text {
        [] => None,
        [b'-', rest @ ..] => Some(-(magnitude_of(rest)? as i128)),
        _ => Some(magnitude_of(text)? as i128),
    }
}

/// An integer as a decimal text.
#[tactic(auto, unfolding(crate::specs::Parts::integer_at))]
pub fn integer_at(value: &Value) -> Option<i128>
    ensures { result ≡ integer_at (view value.now) }
{
    integer_of(value.as_str()?.as_bytes())
}

/// `n`, unless it has more than 32 bits.
fn count_of(n: u64) -> Option<u32>
    ensures { result ≡ below (2 ^ 32) n }
{
    if n < 4294967296 { Some(n as u32) } else { None }
}

/// A number from 0 to 4294967295, written with digits alone.
#[tactic(auto, unfolding(crate::specs::Parts::count_at))]
pub fn count_at(value: &Value) -> Option<u32>
    ensures { result ≡ count_at (view value.now) }
{
    count_of(value.as_u64()?)
}

/// `z`, if it is from 0 to 4294967295.
fn count_of_integer(z: &i128) -> Option<u32>
    ensures { result ≡ count_of_integer z.now }
{
    if *z >= 0 && *z < 4294967296 {
        Some(*z as u32)
    } else {
        None
    }
}

/// A decimal text with a value from 0 to 4294967295.
#[tactic(auto, unfolding(crate::specs::Numerals::step_of))]
pub fn step_of(text: &str) -> Option<u32>
    ensures { result ≡ step_of text.now }
{
    let number = integer_of(text.as_bytes())?;
    count_of_integer(&number)
}
