//! Rows in lowest terms.
ghost use Rattle.std.specs.Prelude.{◌≡◌, ◌<◌, ◌^◌, unsigned_abs};
ghost use Rattle.it_number.specs.Division.{int_quotient};
ghost use Rattle.it_number.specs.Gcd.{gcd};
ghost use Rattle.it_number.specs.Limit.{IsWithin};
ghost use Rattle.it_space.specs.Rows.{IsCanonical, AreLowestTermsOf};
ghost use Rattle.it_space.specs.Divisors.{content, divided_terms, lowest_terms};

use crate::rows::Row;
use it_fraction::gcd;

/// The row divided by the greatest common divisor of its coefficients. The zero row is returned as it is.
pub fn normal(row: Row) -> Row
    ensures meaning { AreLowestTermsOf row result }
    ensures lowest_terms { result ≡ lowest_terms row }
    ensures canonical { IsCanonical result }
{
    Row::new(reduce(row.into_terms()))
}

/// The terms divided by the greatest common divisor of their coefficients.
fn reduce(mut terms: Vec<(u32, i128)>) -> Vec<(u32, i128)>
    requires { IsCanonical terms.items }
    ensures canonical { IsCanonical result.items }
    ensures meaning { AreLowestTermsOf terms.items result.items }
    ensures lowest_terms { result.items ≡ lowest_terms terms.items }
{
    let common = content(terms.as_slice());
    if common > 1 {
        divide(terms.as_mut_slice(), common);
    }
    terms
}

/// The greatest common divisor of the coefficients, 0 where there are none.
fn content(terms: &[(u32, i128)]) -> u128
    requires { IsCanonical terms.now }
    ensures value { result ≡ content 0 terms.now }
    ensures within { result < 2 ^ 127 }
{
    let mut common: u128 = 0;
    for (_, coefficient) in terms {
        common = with_coefficient(common, *coefficient);
    }
    common
}

/// The greatest common divisor of `common` and `coefficient`.
fn with_coefficient(common: u128, coefficient: i128) -> u128
    requires common { common < 2 ^ 127 }
    requires coefficient { IsWithin coefficient }
    ensures { result ≡ gcd common (unsigned_abs coefficient) }
{
    gcd(common as i128, coefficient).unsigned_abs()
}

/// Divides each coefficient by `by`, rounded towards 0.
fn divide(terms: &mut [(u32, i128)], by: u128)
    requires within { IsCanonical terms.old }
    requires positive { 0 < by }
    requires below { by < 2 ^ 127 }
    ensures { terms.new ≡ divided_terms by terms.old }
{
    for term in terms.iter_mut() {
        term.1 = quotient(term.1, by);
    }
}

/// a / b, rounded towards 0.
fn quotient(a: i128, b: u128) -> i128
    requires within { IsWithin a }
    requires positive { 0 < b }
    requires below { b < 2 ^ 127 }
    ensures { result ≡ int_quotient a b }
{
    a / b as i128
}
