//! Kernels of a step of the simplex method, on lists of whole numbers in 32 and in 64 bits.
//!
//! A step multiplies a list by one whole number and subtracts a multiple of another list. Mostly bounds on both lists show
//! beforehand that the results stay within a limit, and then none is tested; places where the other list is 0 are skipped.
//! The kernels also find a common divisor of a list and a denominator, and divide by it, mostly without a division.
#![tactic(auto)]

mod arithmetic;
mod divisors;
pub mod narrow_numbers;
pub mod numbers;

pub use arithmetic::{
    common_divisor, difference_of_sums, is_zero, lowest_terms, narrow, plus_product, product,
    short_product, short_sum,
};
pub use divisors::Divisor;
pub use numbers::read;
