//! Comparison of sums that pass the limit.
ghost use Rattle.std.specs.Prelude.{◌≡◌, ◌^◌, pos, neg_ℤ, ◌+ℤ◌, ◌*ℤ◌, ◌≤ℤ◌, ◌<ℤ◌};
ghost use Rattle.std.specs.Int.{w128, int_wrapping_add};
ghost use Rattle.std.specs.Bool.{OnTrue, OnFalse};

/// Whether c + d is at most a + b; the sums may overflow.
pub fn is_at_most(c: i128, d: i128, a: i128, b: i128) -> bool
    ensures yes { OnTrue result ((c +ℤ d) ≤ℤ (a +ℤ b)) }
    ensures no { OnFalse result ((a +ℤ b) <ℤ (c +ℤ d)) }
{
    let left = c.wrapping_add(d);
    let right = a.wrapping_add(b);
    let left_turns = turns(c, d, left);
    let right_turns = turns(a, b, right);
    if left_turns == right_turns {
        // written out, so that the prover sees each case with its test
        if left <= right { true } else { false }
    } else {
        if left_turns < right_turns {
            true
        } else {
            false
        }
    }
}

/// The number of times that 2^128 was subtracted when a + b wrapped to `sum`: -1, 0 or 1.
fn turns(a: i128, b: i128, sum: i128) -> i8
    requires { sum ≡ int_wrapping_add w128 a b }
    ensures low { neg_ℤ (pos 1) ≤ℤ result }
    ensures high { result ≤ℤ pos 1 }
    ensures value { (a +ℤ b) ≡ (sum +ℤ (result *ℤ pos (2 ^ 128))) }
{
    if b >= 0 && sum < a {
        1
    } else if b < 0 && sum > a {
        -1
    } else {
        0
    }
}
