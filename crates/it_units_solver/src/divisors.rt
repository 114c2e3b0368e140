//! Tests: divisors and multiples against exact arithmetic outside this program.

use it_fraction::{gcd, lcm};

/// Greatest common divisors, against Python's math.gcd.
fn are_divisors() -> bool {
    gcd(0, 0) == 0
        && gcd(-12, 18) == 6
        && gcd(0, -i128::MAX) == i128::MAX
        && gcd(1 << 126, 3 << 100) == 1 << 100
}

/// Least common multiples, against Python's math.lcm.
fn are_multiples() -> bool {
    let largest = i128::MAX;
    let big = 1 << 126;
    lcm(6, 4) == Ok(12)
        && lcm(1, 1) == Ok(1)
        && lcm(big, 3).is_err()
        && lcm(big, 1 << 90) == Ok(big)
        && lcm(largest, largest) == Ok(largest)
        && lcm(largest, 2).is_err()
}

#[test]
fn divisors_and_multiples_agree_with_exact_arithmetic(rt: HostRuntime) {
    assert!(rt; are_divisors());
    assert!(rt; are_multiples());
}
