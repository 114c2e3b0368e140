//! The verdict on an answer, against the rows of its question's targets.
ghost use Rattle.std.specs.Prelude.{◌≡◌, ◌<◌, ◌+◌, length, map, All};
ghost use Rattle.it_space.specs.Answers.{certificate_view};
ghost use Rattle.it_space.specs.Rows.{IsOver};
ghost use Rattle.it_space.specs.Spaces.{size_of};
ghost use Rattle.it_report.specs.RowVerdicts.{proofs_verdict, point_verdict, proof_verdict, place_named, is_valid, ray_verdict, rays_verdict};
ghost use Rattle.it_spans.specs.Spans.{step_views};
ghost use Rattle.it_report.specs.Steps.{IsVerdictOver};

use it_check::{Verdict, check_met, check_no, check_yes};
use it_problems::Problem;
use it_space::{Certificate, Point, Row};
use it_spans::Step;

/// The verdict on a certificate.
#[tactic(auto, using(crate::proofs::VerdictLemmas::yes_over))]
pub fn proof_verdict(problem: &Problem, row: &Row, certificate: &Certificate) -> Verdict
    requires row { IsOver (size_of problem.now.space) row.now }
    ensures verdict { result ≡ proof_verdict problem.now row.now (certificate_view certificate.now) }
    ensures over { IsVerdictOver (size_of problem.now.space + 1) result }
{
    check_yes(problem, row, certificate)
}

/// Whether a verdict is `Valid`.
pub fn is_valid(verdict: &Verdict) -> bool
    ensures { result ≡ is_valid verdict.now }
{
    matches!(verdict, Verdict::Valid)
}

/// The first verdict that isn't `Valid`, of one certificate for each row in order, or `Valid`.
pub fn proofs_verdict(problem: &Problem, rows: &[Row], proofs: &[Certificate]) -> Verdict
    requires rows { All (IsOver (size_of problem.now.space)) rows.now }
    ensures verdict { result ≡ proofs_verdict problem.now rows.now (map certificate_view proofs.now) }
    ensures over { IsVerdictOver (size_of problem.now.space + 1) result }
{
    // by index, since the invariant speaks of both lists from i on
    for i in 0..rows.len() {
        if i >= proofs.len() {
            return Verdict::Valid;
        }
        let verdict = proof_verdict(problem, &rows[i], &proofs[i]);
        if !is_valid(&verdict) {
            return verdict;
        }
    }
    Verdict::Valid
}

/// The index of the row that a no is about: 1 if `back`, otherwise 0.
fn place_named(back: bool) -> usize
    ensures { result ≡ place_named back }
{
    if back { 1 } else { 0 }
}

/// The verdict on a point that has to violate the second row if `back`, otherwise the first.
#[tactic(auto, using(crate::proofs::VerdictLemmas::no_over), unfolding(crate::specs::RowVerdicts::point_verdict))]
pub fn point_verdict(problem: &Problem, rows: &[Row], back: bool, point: &Point) -> Verdict
    requires rows { All (IsOver (size_of problem.now.space)) rows.now }
    requires named { place_named back < length rows.now }
    requires complete { length point.now ≡ size_of problem.now.space }
    ensures verdict { result ≡ point_verdict problem.now rows.now back point.now }
    ensures over { IsVerdictOver (size_of problem.now.space + 1) result }
{
    check_no(problem, &rows[place_named(back)], point)
}

/// The verdict on a ray's point, which has to meet the problem.
fn ray_verdict(problem: &Problem, ray: &Point) -> Verdict
    requires complete { length ray.now ≡ size_of problem.now.space }
    ensures verdict { result ≡ ray_verdict problem.now ray.now }
    ensures over { IsVerdictOver (size_of problem.now.space + 1) result }
{
    check_met(problem, ray)
}

/// The first verdict that isn't `Valid`, of each ray's point in order, or `Valid`.
pub fn rays_verdict(problem: &Problem, steps: &[Step]) -> Verdict
    requires complete { All (λ s. length s.ray ≡ size_of problem.now.space) steps.now }
    ensures verdict { result ≡ rays_verdict problem.now (step_views steps.now) }
    ensures over { IsVerdictOver (size_of problem.now.space + 1) result }
{
    for step in steps {
        let verdict = ray_verdict(problem, &step.ray);
        if !is_valid(&verdict) {
            return verdict;
        }
    }
    Verdict::Valid
}
