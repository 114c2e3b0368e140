//! The numbers of unknowns by the weights of their columns, and these made whole.
ghost use Rattle.std.specs.Prelude.{◌≡◌, ◌<◌, ◌^◌, ◌++◌, ◌+◌, ◌∷◌, [], map, neg_ℤ, length, All, IfErr, IfOk, OkIff, OnOk, take, drop, slice_index_or, pos};
ghost use Rattle.std.specs.List.{AllByRecursion as Every};
ghost use Rattle.it_number.specs.Limit.{IsWithin, signed_limit};
ghost use Rattle.it_rational.specs.Rational.{integer, times};
ghost use Rattle.it_fraction.specs.Fits.{IsNarrow};
ghost use Rattle.it_run.specs.Readings.{AreWeights};
ghost use Rattle.it_space.specs.Answers.{certificate_view};
ghost use Rattle.it_space.specs.Spaces.{IsSpace, size_of};
ghost use Rattle.it_space.specs.Sums.{terms_from};
ghost use Rattle.it_columns.specs.Scaling.{NumbersFit, scaled_point};
ghost use Rattle.it_best.specs.Numbers.{DifferencesFit, NumberFits, WeightsFit, column_weight, multiples, numbers, weights_certificate};
ghost use Rattle.it_best.specs.PhaseSteps.{number_of};
ghost use Rattle.it_best.specs.Phases.{unknown_views};
ghost use Rattle.it_tableau.specs.Operations.{rationals};

use crate::unknowns::Unknown;
use it_closure::column_count;
use it_columns::{common_scale, scaled_values};
use it_fraction::{Fraction, Wide};
use it_problems::Kind;
use it_space::{Certificate, Point, RowFault, Space, push_some};
use std::alloc::{AllocError, Global};

/// The weight of `column`, 0 if it has none.
fn column_weight(weights: &[(usize, Fraction)], column: usize) -> Fraction
    requires { AreWeights rationals signed_limit 0 weights.now }
    ensures { result ≡ column_weight weights.now column }
{
    for weight in weights {
        if weight.0 == column {
            return weight.1;
        }
    }
    Fraction::whole(0)
}

/// The number of an unknown of this kind whose first column is `column`: that column's weight, less the second column's if there is one.
/// `Wide` if a number of the difference passes the limit.
fn number_of(weights: &[(usize, Fraction)], kind: Kind, column: usize) -> Result<Fraction, Wide>
    requires ordered { AreWeights rationals signed_limit 0 weights.now }
    requires few { column < 2 ^ 62 }
    ensures { OkIff result (NumberFits kind (column_weight weights.now) column) (number_of weights.now kind column) }
{
    match kind {
        Kind::Inequality => Ok(column_weight(weights, column)),
        Kind::Equation => {
            let first = column_weight(weights, column);
            first.sub(column_weight(weights, column + 1))
        }
    }
}

/// Appends the number of an unknown. `Wide` as for `number_of`.
fn push_number(
    numbers: &mut Vec<Fraction>,
    weights: &[(usize, Fraction)],
    kind: Kind,
    column: usize,
) -> Result<(), RowFault>
    requires ordered { AreWeights rationals signed_limit 0 weights.now }
    requires few { column < 2 ^ 62 }
    ensures value { OnOk result (numbers.new.items ≡ numbers.old.items ++ number_of weights.now kind column ∷ []) }
    ensures fits { OnOk result (NumberFits kind (column_weight weights.now) column) }
    ensures wide { IfErr result (λ f. f ≡ RowFault.Wide → ¬ (NumberFits kind (column_weight weights.now) column)) }
{
    let number = number_of(weights, kind, column)?;
    numbers.push(number)?;
    Ok(())
}

/// The numbers of `unknowns` by the weights of their columns. `Wide` as for `number_of`.
pub fn numbers(
    alloc: Global,
    unknowns: &[Unknown],
    weights: &[(usize, Fraction)],
) -> Result<Vec<Fraction>, RowFault>
    requires ordered { AreWeights rationals signed_limit 0 weights.now }
    requires few { length unknowns.now < 2 ^ 32 }
    ensures value { IfOk result (λ v. v.items ≡ numbers (unknown_views unknowns.now) weights.now) }
    ensures fits { OnOk result (DifferencesFit 0 (unknown_views unknowns.now) (column_weight weights.now)) }
    ensures wide { IfErr result (λ f. f ≡ RowFault.Wide → ¬ (DifferencesFit 0 (unknown_views unknowns.now) (column_weight weights.now))) }
{
    let mut numbers = Vec::new(alloc);
    let mut column = 0;
    for unknown in unknowns {
        push_number(&mut numbers, weights, unknown.kind, column)?;
        column += column_count(unknown.kind) as usize;
    }
    Ok(numbers)
}

/// Appends `factor` times `number`. `Wide` if that passes the limit in lowest terms.
fn push_multiple(
    multiples: &mut Vec<Fraction>,
    number: &Fraction,
    factor: i128,
) -> Result<(), RowFault>
    requires { IsWithin factor }
    ensures value { OnOk result (multiples.new.items ≡ multiples.old.items ++ times number.now (integer factor) ∷ []) }
    ensures fits { OnOk result (IsNarrow (times number.now (integer factor))) }
    ensures wide { IfErr result (λ f. f ≡ RowFault.Wide → ¬ (IsNarrow (times number.now (integer factor)))) }
{
    let multiple = number.mul(Fraction::whole(factor))?;
    multiples.push(multiple)?;
    Ok(())
}

/// `factor` times each of `numbers`. `Wide` if one of these passes the limit in lowest terms.
fn multiples(alloc: Global, numbers: &[Fraction], factor: i128) -> Result<Vec<Fraction>, RowFault>
    requires { IsWithin factor }
    ensures value { IfOk result (λ v. v.items ≡ multiples factor numbers.now) }
    ensures fits { OnOk result (Every IsNarrow (multiples factor numbers.now)) }
    ensures wide { IfErr result (λ f. f ≡ RowFault.Wide → ¬ (Every IsNarrow (multiples factor numbers.now))) }
{
    let mut multiples = Vec::new(alloc);
    for number in numbers {
        push_multiple(&mut multiples, number, factor)?;
    }
    Ok(multiples)
}

/// The nonzero values, each after its number.
fn weight_terms(alloc: Global, values: &[i128]) -> Result<Vec<(u32, i128)>, AllocError>
    requires { length values.now < 2 ^ 32 }
    ensures { IfOk result (λ v. v.items ≡ terms_from 0 values.now) }
{
    let mut terms = Vec::new(alloc);
    for index in 0..values.len() {
        push_some(&mut terms, index as u32, values[index])?;
    }
    Ok(terms)
}

/// The certificate with `factor` times each weight, over the least common denominator. `Wide` if a number of it passes the limit.
pub fn certificate(
    alloc: Global,
    numbers: &[Fraction],
    factor: i128,
) -> Result<Certificate, RowFault>
    requires factor { IsWithin factor }
    requires few { length numbers.now < 2 ^ 32 }
    ensures value { IfOk result (λ c. certificate_view c ≡ weights_certificate factor numbers.now) }
    ensures fits { OnOk result (WeightsFit factor numbers.now) }
    ensures wide { IfErr result (λ f. f ≡ RowFault.Wide → ¬ (WeightsFit factor numbers.now)) }
{
    let numbers = multiples(alloc, numbers, factor)?;
    let scale = common_scale(numbers.as_slice())?;
    let values = scaled_values(alloc, numbers.as_slice(), scale)?;
    let weights = weight_terms(alloc, values.as_slice())?;
    Ok(Certificate {
        scale: scale as i128,
        weights,
    })
}

/// `numbers` times their least common denominator. `Wide` if one of the products, or that denominator, passes the limit.
fn whole_values(alloc: Global, numbers: &[Fraction]) -> Result<Vec<i128>, RowFault>
    ensures value { IfOk result (λ v. v.items ≡ scaled_point numbers.now) }
    ensures within { OnOk result (All IsWithin (scaled_point numbers.now)) }
    ensures fits { OnOk result (NumbersFit numbers.now) }
    ensures wide { IfErr result (λ f. f ≡ RowFault.Wide → ¬ (NumbersFit numbers.now)) }
{
    let scale = common_scale(numbers)?;
    let values = scaled_values(alloc, numbers, scale)?;
    Ok(values)
}

/// The point with the values `numbers` times their least common denominator. `Wide` as for `whole_values`.
pub fn whole_point(alloc: Global, space: Space, numbers: &[Fraction]) -> Result<Point, RowFault>
    requires space { IsSpace space }
    requires complete { length numbers.now ≡ size_of space }
    ensures value { IfOk result (λ p. p ≡ scaled_point numbers.now) }
    ensures fits { OnOk result (NumbersFit numbers.now) }
    ensures wide { IfErr result (λ f. f ≡ RowFault.Wide → ¬ (NumbersFit numbers.now)) }
{
    let values = whole_values(alloc, numbers)?;
    Ok(Point::new(space, values))
}

/// The negated values.
fn negated_values(alloc: Global, values: &[i128]) -> Result<Vec<i128>, AllocError>
    requires { All IsWithin values.now }
    ensures { IfOk result (λ v. v.items ≡ map neg_ℤ values.now) }
{
    let mut negated = Vec::new(alloc);
    for value in values {
        negated.push(-*value)?;
    }
    Ok(negated)
}

/// The point with the negated values of `whole_point`. `Wide` as for `whole_values`.
pub fn negated_point(alloc: Global, space: Space, numbers: &[Fraction]) -> Result<Point, RowFault>
    requires space { IsSpace space }
    requires complete { length numbers.now ≡ size_of space }
    ensures value { IfOk result (λ p. p ≡ map neg_ℤ (scaled_point numbers.now)) }
    ensures fits { OnOk result (NumbersFit numbers.now) }
    ensures wide { IfErr result (λ f. f ≡ RowFault.Wide → ¬ (NumbersFit numbers.now)) }
{
    let values = whole_values(alloc, numbers)?;
    let negated = negated_values(alloc, values.as_slice())?;
    Ok(Point::new(space, negated))
}

/// The factor: the first number.
pub fn factor_of(numbers: &[Fraction]) -> Fraction
    requires { 0 < length numbers.now }
    ensures { result ≡ slice_index_or numbers.now 0 (integer (pos 0)) }
{
    numbers[0]
}

/// The weights of `count` generators: the numbers after the factor.
pub fn weights_of(numbers: &[Fraction], count: usize) -> &[Fraction]
    requires { count < length numbers.now }
    ensures { result.now ≡ take count (drop 1 numbers.now) }
{
    let others = &numbers[1..];
    &others[..count]
}

/// The values of a point at `size` coordinates: the numbers after the weights of `count` generators.
pub fn values_of(numbers: &[Fraction], count: usize, size: usize) -> &[Fraction]
    requires { count + size < length numbers.now }
    ensures { result.now ≡ take size (drop count (drop 1 numbers.now)) }
{
    let others = &numbers[1..];
    let values = &others[count..];
    &values[..size]
}
