//! Operations on fractions.

use crate::Task;
use crate::output::Output;
use it_fraction::{Fraction, Wide};
use std::alloc::{AllocError, Global};
use std::cmp::Ordering;
use std::str::SplitWhitespace;

/// The two operands of a call.
#[derive(Clone, Copy)]
struct Pair {
    left: Fraction,
    right: Fraction,
}

/// A fraction as a numerator and a denominator.
fn fraction(numerator: &str, denominator: &str) -> Option<Fraction> {
    let num = numerator.parse::<i128>().ok()?;
    let den = denominator.parse::<i128>().ok()?;
    if num == i128::MIN || den == i128::MIN || den == 0 {
        return None;
    }
    Some(Fraction::lowest(num, den))
}

/// The fraction of the next two numbers.
fn next_fraction(numbers: &mut SplitWhitespace<'_>) -> Option<Fraction> {
    fraction(numbers.next()?, numbers.next()?)
}

/// The pair of fractions on a line, if it has one.
fn pair_of(line: &str) -> Option<Pair> {
    let mut numbers = line.split_whitespace();
    let left = next_fraction(&mut numbers)?;
    let right = next_fraction(&mut numbers)?;
    Some(Pair { left, right })
}

/// The pairs of the lines that have one.
fn pairs(alloc: Global, text: &str) -> Result<Vec<Pair>, AllocError> {
    let mut pairs = Vec::new(alloc);
    for line in text.lines() {
        if let Some(pair) = pair_of(line) {
            pairs.push(pair)?;
        }
    }
    Ok(pairs)
}

/// `sum` with the result of one more operation.
fn add_outcome(sum: i128, outcome: Result<Fraction, Wide>) -> i128 {
    match outcome {
        Ok(fraction) => sum
            .wrapping_add(fraction.num())
            .wrapping_add(fraction.den()),
        Err(Wide) => sum.wrapping_sub(1),
    }
}

/// A sum over the sums of the pairs, `turns` times over.
fn sums(pairs: &[Pair], turns: u32) -> i128 {
    let mut sum: i128 = 0;
    for _ in 0..turns {
        for pair in pairs {
            sum = add_outcome(sum, pair.left.add(pair.right));
        }
    }
    sum
}

/// A sum over the products of the pairs, `turns` times over.
fn products(pairs: &[Pair], turns: u32) -> i128 {
    let mut sum: i128 = 0;
    for _ in 0..turns {
        for pair in pairs {
            sum = add_outcome(sum, pair.left.mul(pair.right));
        }
    }
    sum
}

/// The number of times that the left one is greater, less the number of times that it is less.
fn orders(pairs: &[Pair], turns: u32) -> i128 {
    let mut sum: i64 = 0;
    for _ in 0..turns {
        for pair in pairs {
            sum = match pair.left.compare(pair.right) {
                Ordering::Less => sum.wrapping_sub(1),
                Ordering::Equal => sum,
                Ordering::Greater => sum.wrapping_add(1),
            };
        }
    }
    i128::from(sum)
}

/// Writes the result of an operation, a fraction or `wide`, and a space.
fn write_outcome(out: &mut Output, outcome: Result<Fraction, Wide>) {
    match outcome {
        Ok(fraction) => out.put_fraction(&fraction),
        Err(Wide) => out.put("wide"),
    }
    out.put(' ');
}

/// Writes a pair's quotient, where the right one isn't 0.
fn write_quotient(out: &mut Output, pair: &Pair) {
    if pair.right.is_zero() {
        out.put("none ");
    } else {
        write_outcome(out, pair.left.div(pair.right));
    }
}

/// How the left one compares with the right one.
fn order_of(pair: &Pair) -> &'static str {
    match pair.left.compare(pair.right) {
        Ordering::Less => "less\n",
        Ordering::Equal => "equal\n",
        Ordering::Greater => "greater\n",
    }
}

/// Writes each pair's sum, difference, product and quotient, and then how the left one compares with the right one.
fn write_results(out: &mut Output, pairs: &[Pair]) {
    for pair in pairs {
        write_outcome(out, pair.left.add(pair.right));
        write_outcome(out, pair.left.sub(pair.right));
        write_outcome(out, pair.left.mul(pair.right));
        write_quotient(out, pair);
        out.put(order_of(pair));
    }
}

/// A sum over the results of an operation.
fn sum_of(pairs: &[Pair], task: &Task<'_>) -> i128 {
    match task.way {
        "add" => sums(pairs, task.turns),
        "mul" => products(pairs, task.turns),
        _ => orders(pairs, task.turns),
    }
}

/// Does an operation on each pair, and writes a sum over the results; or writes the results of all of them.
pub fn time(
    alloc: Global,
    out: &mut Output,
    text: &str,
    task: &Task<'_>,
) -> Result<(), AllocError> {
    let pairs = pairs(alloc, text)?;
    if task.way == "each" {
        write_results(out, pairs.as_slice());
    } else {
        out.put(sum_of(pairs.as_slice(), task));
        out.put('\n');
    }
    Ok(())
}
