//! The verdict on what is said of factors, by the rows of both sides of the relation under a problem.
ghost use Rattle.std.specs.Prelude.{◌≡◌, ◌+◌, ℕ, length, pos, IfOk, Some};
ghost use Rattle.it_space.specs.Answers.{certificate_view};
ghost use Rattle.it_space.specs.Rows.{IsOver, point_of};
ghost use Rattle.it_space.specs.Spaces.{size_of};
ghost use Rattle.it_elemental.specs.Generators.{generators};
ghost use Rattle.it_check.specs.Sums.{sum_within};
ghost use Rattle.it_ratio.specs.BestViews.{best_view};
ghost use Rattle.it_report.specs.FactorSteps.{AreSideRows, Gives, IsComplete, IsFactorVerdictOver};
ghost use Rattle.it_report.specs.FactorVerdicts.{best_verdict, first_wrong, least_verdict, never_verdict, tight_verdict, unbounded_verdict, zero_verdict};
ghost use Rattle.it_report.specs.RowVerdicts.{proof_verdict};
ghost use Rattle.it_report.specs.declared.factors.FactorVerdict.TheVariants.{Checked};

use crate::rows::{is_valid, proof_verdict};
use it_check::{Verdict, check_no};
use it_elemental::generator_count;
use it_problems::Problem;
use it_ratio::types::Best;
use it_ratio::{RowStop, side_row};
use it_space::{Certificate, Point, Row, value};
use std::alloc::{AllocError, Global};

/// The verdict on what is said of factors: what is wrong with it, or that nothing is.
#[derive(Clone, Copy)]
pub enum FactorVerdict {
    /// The factor's denominator is below 1.
    BelowOne { den: i128 },
    /// What the checker finds of a certificate or of a point; `Valid` where nothing is wrong. `Width` also where a coefficient
    /// of a row passes the limit, with its coordinate, and where the sum that has to be 0 does, with the place after that of a
    /// point's target.
    Checked(Verdict),
    /// The row that has to be 0 at the point has this value there.
    NotZero { value: i128 },
}

/// The rows of a relation's sides.
#[derive(Clone, Copy)]
pub struct SideRows<'a> {
    pub left: &'a Row,
    pub right: &'a Row,
}

/// A factor as it is reported, with the certificate that it holds.
#[derive(Clone, Copy)]
struct CertifiedFactor<'a> {
    num: &'a i128,
    den: &'a i128,
    proof: &'a Certificate,
}

/// The verdict on whether `row` is 0 at `point`.
fn zero_verdict(problem: &Problem, row: &Row, point: &Point) -> FactorVerdict
    requires row { IsOver (size_of problem.now.space) row.now }
    requires complete { length point.now ≡ size_of problem.now.space }
    ensures verdict { result ≡ zero_verdict (length (generators problem.now) + 1) (sum_within (pos 0) row.now (point_of point.now)) }
    ensures over { IsFactorVerdictOver (size_of problem.now.space + 1) result }
{
    problem.facts();
    let Ok(value) = value(row, point) else {
        let place = generator_count(problem) + 1;
        return FactorVerdict::Checked(Verdict::Width { place });
    };
    if value == 0 {
        FactorVerdict::Checked(Verdict::Valid)
    } else {
        FactorVerdict::NotZero { value }
    }
}

/// The verdict on whether `point` meets `problem`, with `below` at most -1 there and `zero` 0.
fn tight_verdict(problem: &Problem, below: &Row, zero: &Row, point: &Point) -> FactorVerdict
    requires below { IsOver (size_of problem.now.space) below.now }
    requires zero { IsOver (size_of problem.now.space) zero.now }
    requires complete { length point.now ≡ size_of problem.now.space }
    ensures verdict { result ≡ tight_verdict problem.now below.now zero.now point.now }
    ensures over { IsFactorVerdictOver (size_of problem.now.space + 1) result }
{
    let verdict = check_no(problem, below, point);
    if is_valid(&verdict) {
        zero_verdict(problem, zero, point)
    } else {
        FactorVerdict::Checked(verdict)
    }
}

/// The verdict on the certificate of the row `factor`, and then on the point.
fn factor_verdict(
    problem: &Problem,
    factor: &Row,
    negated: &Row,
    proof: &Certificate,
    point: &Point,
) -> FactorVerdict
    requires factor { IsOver (size_of problem.now.space) factor.now }
    requires negated { IsOver (size_of problem.now.space) negated.now }
    requires complete { length point.now ≡ size_of problem.now.space }
    ensures verdict { result ≡ first_wrong (proof_verdict problem.now factor.now (certificate_view proof.now)) (tight_verdict problem.now negated.now factor.now point.now) }
    ensures over { IsFactorVerdictOver (size_of problem.now.space + 1) result }
{
    let verdict = proof_verdict(problem, factor, proof);
    if is_valid(&verdict) {
        tight_verdict(problem, negated, factor, point)
    } else {
        FactorVerdict::Checked(verdict)
    }
}

/// The verdict on the certificates of two rows, the first one first.
fn both_verdict(
    problem: &Problem,
    factor: &Row,
    negated: &Row,
    proof: &Certificate,
    below: &Certificate,
) -> FactorVerdict
    requires factor { IsOver (size_of problem.now.space) factor.now }
    requires negated { IsOver (size_of problem.now.space) negated.now }
    ensures verdict { result ≡ first_wrong (proof_verdict problem.now factor.now (certificate_view proof.now)) (Checked (proof_verdict problem.now negated.now (certificate_view below.now))) }
    ensures over { IsFactorVerdictOver (size_of problem.now.space + 1) result }
{
    let verdict = proof_verdict(problem, factor, proof);
    if is_valid(&verdict) {
        FactorVerdict::Checked(proof_verdict(problem, negated, below))
    } else {
        FactorVerdict::Checked(verdict)
    }
}

/// The verdict on a least factor.
fn least_verdict(
    alloc: Global,
    problem: &Problem,
    sides: &SideRows<'_>,
    factor: &CertifiedFactor<'_>,
    point: &Point,
) -> Result<FactorVerdict, RowStop>
    requires sides { AreSideRows problem.now sides.now.left.now sides.now.right.now }
    requires complete { length point.now ≡ size_of problem.now.space }
    ensures verdict { Gives result (least_verdict problem.now sides.now.left.now sides.now.right.now factor.now.num.now factor.now.den.now (certificate_view factor.now.proof.now) point.now) }
    ensures over { IfOk result (IsFactorVerdictOver (size_of problem.now.space + 1)) }
{
    if *factor.den < 1 {
        return Ok(FactorVerdict::BelowOne { den: *factor.den });
    }
    let space = problem.space();
    let row = side_row(
        alloc,
        space,
        sides.left,
        sides.right,
        factor.num,
        factor.den,
    )?;
    let negated = side_row(alloc, space, sides.left, sides.right, &-1, &0)?;
    Ok(factor_verdict(problem, &row, &negated, factor.proof, point))
}

/// The verdict on a point that shows that no factor holds.
fn never_verdict(
    alloc: Global,
    problem: &Problem,
    sides: &SideRows<'_>,
    point: &Point,
) -> Result<FactorVerdict, RowStop>
    requires sides { AreSideRows problem.now sides.now.left.now sides.now.right.now }
    requires complete { length point.now ≡ size_of problem.now.space }
    ensures verdict { Gives result (never_verdict problem.now sides.now.left.now sides.now.right.now point.now) }
    ensures over { IfOk result (IsFactorVerdictOver (size_of problem.now.space + 1)) }
{
    let negated = side_row(alloc, problem.space(), sides.left, sides.right, &0, &1)?;
    Ok(tight_verdict(problem, &negated, sides.left, point))
}

/// The verdict on a factor where there is no least one, and on the certificate `below` that the left side is at most 0.
fn unbounded_verdict(
    alloc: Global,
    problem: &Problem,
    sides: &SideRows<'_>,
    factor: &CertifiedFactor<'_>,
    below: &Certificate,
) -> Result<FactorVerdict, RowStop>
    requires { AreSideRows problem.now sides.now.left.now sides.now.right.now }
    ensures verdict { Gives result (unbounded_verdict problem.now sides.now.left.now sides.now.right.now factor.now.num.now factor.now.den.now (certificate_view factor.now.proof.now) (certificate_view below.now)) }
    ensures over { IfOk result (IsFactorVerdictOver (size_of problem.now.space + 1)) }
{
    if *factor.den < 1 {
        return Ok(FactorVerdict::BelowOne { den: *factor.den });
    }
    let space = problem.space();
    let row = side_row(
        alloc,
        space,
        sides.left,
        sides.right,
        factor.num,
        factor.den,
    )?;
    let negated = side_row(alloc, space, sides.left, sides.right, &-1, &0)?;
    Ok(both_verdict(problem, &row, &negated, factor.proof, below))
}

/// The verdict `given`; where a row wasn't formed, `Width` with the coordinate of its wide number.
fn verdict_or_wide(given: Result<FactorVerdict, RowStop>) -> Result<FactorVerdict, AllocError>
    ensures verdict { (v : FactorVerdict) → Gives given v → IfOk result (λ w. w ≡ v) }
    ensures over { (bound : ℕ) → IfOk given (IsFactorVerdictOver bound) → IfOk result (IsFactorVerdictOver bound) }
{
    match given {
        Ok(verdict) => Ok(verdict),
        Err(RowStop::Wide { coordinate }) => Ok(FactorVerdict::Checked(Verdict::Width {
            place: coordinate,
        })),
        Err(RowStop::Memory) => Err(AllocError),
    }
}

/// The verdict on what is found of the factors between the rows of both sides; None where nothing is claimed. `Width` comes with the
/// coordinate at which a row isn't formed within the limit, else with the place that the checker gives, or with the one after
/// that of a point's target.
pub fn best_verdict(
    alloc: Global,
    problem: &Problem,
    sides: &SideRows<'_>,
    best: &Best,
) -> Result<Option<FactorVerdict>, AllocError>
    requires sides { AreSideRows problem.now sides.now.left.now sides.now.right.now }
    requires complete { IsComplete (size_of problem.now.space) (best_view best.now) }
    ensures verdict { IfOk result (λ v. v ≡ best_verdict problem.now sides.now.left.now sides.now.right.now (best_view best.now)) }
    ensures over { IfOk result (λ o. (v : FactorVerdict) → o ≡ Some v → IsFactorVerdictOver (size_of problem.now.space + 1) v) }
{
    let given = match best {
        Best::Least {
            num,
            den,
            proof,
            point,
        } => least_verdict(
            alloc,
            problem,
            sides,
            &CertifiedFactor { num, den, proof },
            point,
        ),
        Best::Never(point) => never_verdict(alloc, problem, sides, point),
        Best::Unbounded {
            num,
            den,
            proof,
            below,
        } => unbounded_verdict(
            alloc,
            problem,
            sides,
            &CertifiedFactor { num, den, proof },
            below,
        ),
        Best::Undecided(_) => return Ok(None),
    };
    let verdict = verdict_or_wide(given)?;
    Ok(Some(verdict))
}
