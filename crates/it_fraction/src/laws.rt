//! Laws of the arithmetic, over the rational numbers that fractions represent, so that they hold also where a call would be `Wide`.
//! They are proved, and do nothing when they run.
ghost use Rattle.std.specs.Prelude.{◌≡◌, pos};
ghost use Rattle.it_rational.specs.Rational.{inverse, plus, times, integer};
ghost use Rattle.it_fraction.specs.Fits.{DifferenceFits, IsNarrow, SumFits};

use crate::fraction::Fraction;

/// Sums of three numbers are the same in both groupings.
pub fn sums_associate(x: Fraction, y: Fraction, z: Fraction)
    ensures { plus (plus x y) z ≡ plus x (plus y z) }
{}

/// Sums are the same in both orders.
pub fn sums_commute(x: Fraction, y: Fraction)
    ensures { plus x y ≡ plus y x }
{}

/// Products of three numbers are the same in both groupings.
pub fn products_associate(x: Fraction, y: Fraction, z: Fraction)
    ensures { times (times x y) z ≡ times x (times y z) }
{}

/// Products are the same in both orders.
pub fn products_commute(x: Fraction, y: Fraction)
    ensures { times x y ≡ times y x }
{}

/// A product with a sum is the sum of the products.
pub fn products_distribute(x: Fraction, y: Fraction, z: Fraction)
    ensures { times x (plus y z) ≡ plus (times x y) (times x z) }
{}

/// An operation with a zero is never `Wide`.
pub fn zeros_fit(x: Fraction)
    ensures sum { SumFits x (integer (pos 0)) }
    ensures sum_from_zero { SumFits (integer (pos 0)) x }
    ensures difference { DifferenceFits x (integer (pos 0)) }
    ensures difference_from_zero { DifferenceFits (integer (pos 0)) x }
    ensures product { IsNarrow (times x (integer (pos 0))) }
    ensures product_from_zero { IsNarrow (times (integer (pos 0)) x) }
    ensures quotient_of_zero { IsNarrow (times (integer (pos 0)) (inverse x)) }
{
    // called for their contracts, which say that both are within the limit
    let _num = x.num();
    let _den = x.den();
}
