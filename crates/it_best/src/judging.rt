//! Answers, scaled and checked.
ghost use Rattle.std.specs.Prelude.{◌≡◌, ◌<◌, ◌^◌, ◌*ℤ◌, ◌≤ℤ◌, pos, neg_ℤ, map, length, IfErr, IfOk, OkIff, OnOk};
ghost use Rattle.it_number.specs.Limit.{IsWithin};
ghost use Rattle.it_space.specs.Answers.{certificate_view};
ghost use Rattle.it_space.specs.Rows.{IsOver, point_of, negated_terms, value};
ghost use Rattle.it_space.specs.Spaces.{size_of};
ghost use Rattle.it_check.specs.Meaning.{CertificateFits, CertifiesRow, PointFits};
ghost use Rattle.it_columns.specs.Scaling.{scaled_point};
ghost use Rattle.it_best.specs.Ends.{FactorFits, LeastPointFits, NeverFits, ProofFits, RowFits, factor_row};
ghost use Rattle.it_best.specs.Factors.{HasNoFactor, IsPoint, ground_of};
ghost use Rattle.it_best.specs.Numbers.{weights_certificate};
ghost use Rattle.it_best.specs.PhaseSteps.{CertifyBelow, CertifyFactor, SideValuesFit, side_values};

use crate::numbers::{certificate, negated_point, whole_point};
use crate::sides::Sides;
use it_check::{Verdict, check_no, check_yes};
use it_columns::opposite_row;
use it_fraction::{Fraction, Wide, signed_product};
use it_problems::Problem;
use it_ratio::{RowStop, side_row};
use it_space::{Certificate, Point, Row, RowFault, value};
use std::alloc::Global;

/// The numerator of `factor` times `left` less its denominator times `right`. `Wide` if a product or a difference passes the limit.
pub fn factor_row(
    alloc: Global,
    problem: &Problem,
    left: &Row,
    right: &Row,
    factor: &Fraction,
) -> Result<Row, RowFault>
    ensures value { IfOk result (λ r. r ≡ factor_row (size_of problem.now.space) left.now right.now factor.now) }
    ensures fits { OnOk result (RowFits (size_of problem.now.space) left.now right.now factor.now) }
    ensures wide { IfErr result (λ f. f ≡ RowFault.Wide → ¬ (RowFits (size_of problem.now.space) left.now right.now factor.now)) }
{
    match side_row(
        alloc,
        problem.space(),
        left,
        right,
        &factor.num(),
        &factor.den(),
    ) {
        Ok(row) => Ok(row),
        Err(RowStop::Memory) => Err(RowFault::Memory),
        Err(RowStop::Wide { .. }) => Err(RowFault::Wide),
    }
}

/// The row of `factor_row` by `sides`, and `Wide` as there.
fn row_by_sides(alloc: Global, sides: &Sides<'_>, factor: &Fraction) -> Result<Row, RowFault>
    ensures value { IfOk result (λ r. r ≡ factor_row (size_of sides.now.problem.space) sides.now.left sides.now.right factor.now) }
    ensures fits { OnOk result (RowFits (size_of sides.now.problem.space) sides.now.left sides.now.right factor.now) }
    ensures wide { IfErr result (λ f. f ≡ RowFault.Wide → ¬ (RowFits (size_of sides.now.problem.space) sides.now.left sides.now.right factor.now)) }
{
    factor_row(alloc, sides.problem(), sides.left(), sides.right(), factor)
}

/// `proof`, a certificate of `target`, if the check finds it valid; else `Wide`, as then a number of the check passes the limit.
fn if_valid(sides: &Sides<'_>, target: &Row, proof: Certificate) -> Result<Certificate, Wide>
    requires target { IsOver (size_of sides.now.problem.space) target.now }
    requires certifies { CertifiesRow sides.now.problem target.now (certificate_view proof) }
    ensures { OkIff result (CertificateFits sides.now.problem target.now (certificate_view proof)) proof }
{
    sides.facts();
    match check_yes(sides.problem(), target, &proof) {
        Verdict::Valid => Ok(proof),
        _ => Err(Wide),
    }
}

/// The certificate of `factor`, by the weights of the generators. `Wide` if a number of it, of the row or of the check passes the limit.
pub fn factor_proof(
    alloc: Global,
    sides: &Sides<'_>,
    factor: &Fraction,
    weights: &[Fraction],
) -> Result<Certificate, RowFault>
    requires few { length weights.now < 2 ^ 32 }
    requires factor { CertifyFactor sides.now.problem sides.now.left sides.now.right factor.now weights.now }
    ensures value { IfOk result (λ c. certificate_view c ≡ weights_certificate (pos factor.now.den) weights.now) }
    ensures fits { OnOk result (FactorFits sides.now.problem sides.now.left sides.now.right factor.now weights.now) }
    ensures wide { IfErr result (λ f. f ≡ RowFault.Wide → ¬ (FactorFits sides.now.problem sides.now.left sides.now.right factor.now weights.now)) }
{
    let proof = certificate(alloc, weights, factor.den())?;
    let row = row_by_sides(alloc, sides, factor)?;
    let valid = if_valid(sides, &row, proof)?;
    Ok(valid)
}

/// The certificate that `left` is at most 0, by the weights of the generators. `Wide` if a number of it or of the check passes the limit.
pub fn below_proof(
    alloc: Global,
    sides: &Sides<'_>,
    weights: &[Fraction],
) -> Result<Certificate, RowFault>
    requires few { length weights.now < 2 ^ 32 }
    requires certified { CertifyBelow sides.now.problem sides.now.left weights.now }
    ensures value { IfOk result (λ c. certificate_view c ≡ weights_certificate (pos 1) weights.now) }
    ensures fits { OnOk result (ProofFits sides.now.problem (negated_terms sides.now.left) (pos 1) weights.now) }
    ensures wide { IfErr result (λ f. f ≡ RowFault.Wide → ¬ (ProofFits sides.now.problem (negated_terms sides.now.left) (pos 1) weights.now)) }
{
    sides.facts();
    let proof = certificate(alloc, weights, 1)?;
    let row = opposite_row(alloc, sides.left())?;
    let valid = if_valid(sides, &row, proof)?;
    Ok(valid)
}

/// Checks `point`, which meets the problem, as a refutation of the negation of `row`, which is above 0 there. `Wide` if a number of the
/// check passes the limit.
fn check_point(alloc: Global, sides: &Sides<'_>, row: &Row, point: &Point) -> Result<(), RowFault>
    requires row { IsOver (size_of sides.now.problem.space) row.now }
    requires meets { IsPoint (ground_of sides.now.problem) point.now }
    requires above { pos 1 ≤ℤ value row.now (point_of point.now) }
    ensures fits { OnOk result (PointFits sides.now.problem row.now point.now) }
    ensures wide { IfErr result (λ f. f ≡ RowFault.Wide → ¬ (PointFits sides.now.problem row.now point.now)) }
{
    sides.facts();
    let target = opposite_row(alloc, row)?;
    match check_no(sides.problem(), &target, point) {
        Verdict::Valid => Ok(()),
        _ => Err(RowFault::Wide),
    }
}

/// The values of the left side and of the right one at `point`. `Wide` if a product or a partial sum passes the limit.
fn side_values(sides: &Sides<'_>, point: &Point) -> Result<(i128, i128), Wide>
    requires { length point.now ≡ size_of sides.now.problem.space }
    ensures { OkIff result (SideValuesFit sides.now point.now) (side_values sides.now point.now) }
{
    sides.facts();
    let left = value(sides.left(), point)?;
    let right = value(sides.right(), point)?;
    Ok((left, right))
}

/// `Wide` if the product of `left` with the numerator of `factor`, or of `right` with its denominator, passes the limit.
fn check_products(factor: &Fraction, left: i128, right: i128) -> Result<(), Wide>
    ensures { OkIff result (IsWithin (factor.now.num *ℤ left) × IsWithin (pos factor.now.den *ℤ right)) tt }
{
    signed_product(factor.num(), left)?;
    signed_product(factor.den(), right)?;
    Ok(())
}

/// The point at which no factor holds, by the point of the first phase's run. `Wide` if a number of it or of the sides' values passes
/// the limit.
pub fn never_point(alloc: Global, sides: &Sides<'_>, values: &[Fraction]) -> Result<Point, RowFault>
    requires complete { length values.now ≡ size_of sides.now.problem.space }
    requires never { HasNoFactor (ground_of sides.now.problem) (value sides.now.left) (value sides.now.right) (map neg_ℤ (scaled_point values.now)) }
    ensures value { IfOk result (λ p. p ≡ map neg_ℤ (scaled_point values.now)) }
    ensures fits { OnOk result (NeverFits sides.now.problem sides.now.left sides.now.right values.now) }
    ensures wide { IfErr result (λ f. f ≡ RowFault.Wide → ¬ (NeverFits sides.now.problem sides.now.left sides.now.right values.now)) }
{
    sides.facts();
    let point = negated_point(alloc, sides.space(), values)?;
    check_point(alloc, sides, sides.right(), &point)?;
    side_values(sides, &point)?;
    Ok(point)
}

/// The point at which `factor` holds with equality, by its values. `Wide` if a number of it, of the sides' values or of the products
/// passes the limit.
pub fn least_point(
    alloc: Global,
    sides: &Sides<'_>,
    factor: &Fraction,
    values: &[Fraction],
) -> Result<Point, RowFault>
    requires complete { length values.now ≡ size_of sides.now.problem.space }
    requires meets { IsPoint (ground_of sides.now.problem) (scaled_point values.now) }
    requires some { pos 1 ≤ℤ value sides.now.left (point_of (scaled_point values.now)) }
    ensures value { IfOk result (λ p. p ≡ scaled_point values.now) }
    ensures fits { OnOk result (LeastPointFits sides.now.problem sides.now.left sides.now.right factor.now values.now) }
    ensures wide { IfErr result (λ f. f ≡ RowFault.Wide → ¬ (LeastPointFits sides.now.problem sides.now.left sides.now.right factor.now values.now)) }
{
    sides.facts();
    let point = whole_point(alloc, sides.space(), values)?;
    check_point(alloc, sides, sides.left(), &point)?;
    let (above, below) = side_values(sides, &point)?;
    check_products(factor, above, below)?;
    Ok(point)
}
