//! Fractions in lowest terms.
ghost use Rattle.std.specs.Prelude.{◌≡◌, ◌≢◌, ◌<◌, ◌≤ℤ◌, ◌*◌, pos, unsigned_abs, true, false, OkIff};
ghost use Rattle.std.specs.Bool.{OnTrue, OnFalse};
ghost use Rattle.std.specs.Cmp.{eq_by_cmp_equiv, partial_equiv_from_equiv, partial_order_from_agreeing_total};
ghost use Rattle.std.specs.Cmp.Rules.{comparing};
ghost use Rattle.std.specs.Int.{IsGcd};
ghost use Rattle.std.specs.Ordering.{as_partial_cmp, eq_by_cmp, nat_cmp};
ghost use Rattle.std.proofs.Common.{rules};
ghost use Rattle.it_number.specs.Limit.{IsWithin};
ghost use Rattle.it_rational.specs.Rational.{inverse, is_at_least_zero, minus, plus, quotient, signed_quotient, rational_cmp, times, integer};
ghost use Rattle.it_rational.proofs.Total.{rational_total};
ghost use Rattle.it_fraction.specs.Fits.{DifferenceFits, IsNarrow, SumFits};
ghost use Rattle.it_fraction.specs.Sign.{sign_of};

use crate::order::compare_parts;
use crate::products::{parts_product, whole_product};
use crate::steps::{common_divisor, quotient, signed_quotient};
use crate::sums::{parts_sum, whole_sum};
use std::cmp::Ordering;
use std::marker::Model;

/// A number that an operation forms is more than 2^127 - 1 in absolute value.
#[derive(Debug, Clone, Copy, PartialEq, Eq)]
pub struct Wide;

/// A rational number in lowest terms, whose numerator is at most 2^127 - 1 in absolute value and
/// whose denominator is from 1 to 2^127 - 1.
#[derive(Debug, Clone, Copy)]
pub struct Fraction {
    numerator: i128,
    denominator: u128,
    ghost some: { 0 < denominator },
    ghost lowest: { IsGcd (unsigned_abs numerator) denominator 1 },
}

impl Model for Fraction {
    ghost use Rattle.std.specs.Prelude.{pos};
    ghost use Rattle.it_number.specs.Limit.{IsWithin};
    ghost use Rattle.it_rational.specs.Rational.{Rational};

    ghost Value = { Rational };

    ghost view = { λ f. record { num = f.numerator; den = f.denominator; positive = f.some; lowest = f.lowest } };

    ghost inverse = { λ q. record { numerator = q.num; denominator = q.den; some = q.positive; lowest = q.lowest } };

    ghost invariant = { λ f. (IsWithin f.numerator) × (IsWithin (pos f.denominator)) };
}

/// The fraction of this numerator and denominator, which have no common divisor above 1.
pub fn in_lowest_terms(numerator: i128, denominator: u128) -> Fraction
    requires numerator_within { IsWithin numerator }
    requires denominator_within { IsWithin (pos denominator) }
    requires some { 0 < denominator }
    requires lowest { IsGcd (unsigned_abs numerator) denominator 1 }
    ensures { result ≡ quotient numerator denominator }
{
    Fraction {
        numerator,
        denominator,
    }
}

/// The fraction num / den.
fn reduce(num: i128, den: u128) -> Fraction
    requires num_within { IsWithin num }
    requires den_within { IsWithin (pos den) }
    requires den_some { 0 < den }
    ensures { result ≡ quotient num den }
{
    let shared = common_divisor(num.unsigned_abs(), den);
    in_lowest_terms(signed_quotient(num, shared), quotient(den, shared))
}

/// Whether the denominators `b` and `d` are both 1. The contract covers `true` only.
#[inline]
#[tactic(auto, using(crate::proofs::DivisorLemmas::both_one))]
fn are_one(b: u128, d: u128) -> bool
    requires b_some { 0 < b }
    requires d_some { 0 < d }
    ensures yes { OnTrue result ((b ≡ 1) × (d ≡ 1)) }
{
    // written out, so that the prover sees each case with its test
    if b | d == 1 { true } else { false }
}

impl Fraction {
    /// The fraction value / 1.
    pub fn whole(value: i128) -> Fraction
        requires { IsWithin value }
        ensures { result ≡ integer value }
    {
        in_lowest_terms(value, 1)
    }

    /// The fraction num / den, where `den` may be below 0.
    pub fn lowest(num: i128, den: i128) -> Fraction
        requires num_within { IsWithin num }
        requires den_within { IsWithin den }
        requires den_some { den ≢ pos 0 }
        ensures { result ≡ signed_quotient num den }
    {
        let size = den.unsigned_abs();
        if den < 0 {
            reduce(-num, size)
        } else {
            reduce(num, size)
        }
    }

    /// The numerator in lowest terms.
    pub fn num(self) -> i128
        ensures value { result ≡ self.num }
        ensures within { IsWithin result }
    {
        self.numerator
    }

    /// The denominator in lowest terms, at least 1.
    pub fn den(self) -> i128
        ensures value { result ≡ pos self.den }
        ensures some { pos 1 ≤ℤ result }
        ensures within { IsWithin result }
    {
        self.denominator as i128
    }

    /// Whether the number is 0.
    #[tactic(auto, using(crate::proofs::ZeroLemmas::numerator_of_zero))]
    pub fn is_zero(self) -> bool
        ensures yes { OnTrue result (self ≡ integer (pos 0)) }
        ensures no { OnFalse result (self ≢ integer (pos 0)) }
    {
        // written out, so that the prover sees each case with its test
        if self.numerator == 0 { true } else { false }
    }

    /// Whether the number is below 0.
    pub fn is_negative(self) -> bool
        ensures yes { OnTrue result (is_at_least_zero self ≡ false) }
        ensures no { OnFalse result (is_at_least_zero self ≡ true) }
    {
        // written out, so that the prover sees each case with its test
        if self.numerator < 0 { true } else { false }
    }

    /// Whether the number is above 0, so that its negation isn't at least 0.
    #[tactic(auto, using(crate::proofs::Signs::minus_below, crate::proofs::Signs::minus_least))]
    pub fn is_positive(self) -> bool
        ensures yes { OnTrue result (is_at_least_zero (minus self) ≡ false) }
        ensures no { OnFalse result (is_at_least_zero (minus self) ≡ true) }
    {
        // written out, so that the prover sees each case with its test
        if self.numerator > 0 { true } else { false }
    }

    /// The sign: -1, 0 or 1.
    pub fn sign(self) -> i8
        ensures { result ≡ sign_of self }
    {
        self.numerator.signum() as i8
    }

    /// The negated number.
    pub fn neg(self) -> Fraction
        ensures { result ≡ minus self }
    {
        in_lowest_terms(-self.numerator, self.denominator)
    }

    /// The sum, by the greatest common divisor of the denominators (Knuth, The Art of Computer Programming vol. 2, 4.5.1). It is
    /// `Wide` exactly if one of the four numbers that this algorithm forms passes the limit, even where the sum itself would fit.
    #[inline]
    pub fn add(self, other: Fraction) -> Result<Fraction, Wide>
        ensures { OkIff result (SumFits self other) (plus self other) }
    {
        if are_one(self.denominator, other.denominator) {
            return whole_sum(self.numerator, other.numerator);
        }
        if self.is_zero() {
            return Ok(other);
        }
        if other.is_zero() {
            return Ok(self);
        }
        parts_sum(
            self.numerator,
            self.denominator,
            other.numerator,
            other.denominator,
        )
    }

    /// The difference, formed as the sum with `other` negated, and `Wide` exactly where that sum is.
    #[inline]
    pub fn sub(self, other: Fraction) -> Result<Fraction, Wide>
        ensures { OkIff result (DifferenceFits self other) (plus self (minus other)) }
    {
        self.add(other.neg())
    }

    /// The product. Common divisors are divided out before anything is multiplied, so that it is `Wide` exactly if the numerator or the
    /// denominator of the result in lowest terms passes the limit.
    #[inline]
    pub fn mul(self, other: Fraction) -> Result<Fraction, Wide>
        ensures { OkIff result (IsNarrow (times self other)) (times self other) }
    {
        if are_one(self.denominator, other.denominator) {
            return whole_product(self.numerator, other.numerator);
        }
        if self.is_zero() || other.is_zero() {
            return Ok(Fraction::whole(0));
        }
        parts_product(
            self.numerator,
            self.denominator,
            other.numerator,
            other.denominator,
        )
    }

    /// The quotient, formed as the product with the inverse of `other`, and `Wide` exactly where that product is.
    #[inline]
    pub fn div(self, other: Fraction) -> Result<Fraction, Wide>
        requires { other.num ≢ pos 0 }
        ensures { OkIff result (IsNarrow (times self (inverse other))) (times self (inverse other)) }
    {
        self.mul(other.inverse())
    }

    /// The inverse, 1 divided by the number.
    fn inverse(self) -> Fraction
        requires { self.num ≢ pos 0 }
        ensures { result ≡ inverse self }
    {
        let denominator = self.numerator.unsigned_abs();
        if self.numerator < 0 {
            in_lowest_terms(-(self.denominator as i128), denominator)
        } else {
            in_lowest_terms(self.denominator as i128, denominator)
        }
    }

    /// The order of the two numbers: by their signs, then by their whole parts, and where these agree by the inverses of the remainders.
    /// It never overflows.
    pub fn compare(self, other: Fraction) -> Ordering
        ensures { result ≡ rational_cmp self other }
    {
        if self.denominator == other.denominator {
            return self.numerator.cmp(&other.numerator);
        }
        match (self.numerator < 0, other.numerator < 0) {
            (false, false) => self.compare_size(other),
            (false, true) => Ordering::Greater,
            (true, false) => Ordering::Less,
            (true, true) => other.compare_size(self),
        }
    }

    /// The order of the absolute values.
    fn compare_size(self, other: Fraction) -> Ordering
        ensures { result ≡ nat_cmp (unsigned_abs self.num * other.den) (unsigned_abs other.num * self.den) }
    {
        let numerator = self.numerator.unsigned_abs();
        let other_numerator = other.numerator.unsigned_abs();
        compare_parts(
            numerator,
            self.denominator,
            other_numerator,
            other.denominator,
        )
    }
}

impl PartialEq for Fraction {
    ghost eq = { eq_by_cmp rational_cmp };

    ghost laws = { partial_equiv_from_equiv (eq_by_cmp_equiv rational_total) };

    fn eq(&self, other: &Fraction) -> bool {
        self.numerator == other.numerator && self.denominator == other.denominator
    }
}

impl Eq for Fraction {
    ghost laws = { eq_by_cmp_equiv rational_total };
}

impl Ord for Fraction {
    ghost cmp = { rational_cmp };

    ghost total = { rational_total };

    ghost matches_partial_cmp = { Prim.search (comparing, rules) };

    ghost matches_eq = { Prim.search (comparing, rules) };

    fn cmp(&self, other: &Fraction) -> Ordering {
        self.compare(*other)
    }
}

impl PartialOrd for Fraction {
    ghost partial_cmp = { as_partial_cmp rational_cmp };

    ghost laws = { partial_order_from_agreeing_total rational_cmp rational_total (Prim.search (comparing, rules)) (Prim.search (comparing, rules)) };

    fn partial_cmp(&self, other: &Fraction) -> Option<Ordering> {
        Some(self.cmp(other))
    }
}
