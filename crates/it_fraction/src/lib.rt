//! Exact rational numbers with 128-bit numerators and denominators, and sums and products of whole numbers within the same limit.
#![tactic(auto)]

mod divisors;
mod fraction;
pub mod laws;
mod order;
mod products;
mod steps;
mod sums;

pub use divisors::{gcd, lcm};
pub use fraction::{Fraction, Wide};
pub use steps::{difference, signed_product, sum};
