//! A visit of the rows of a hull.
ghost use Rattle.std.specs.Prelude.{◌≡◌, All, IfOk, OnOk};
ghost use Rattle.it_space.specs.Rows.{IsOver};
ghost use Rattle.it_space.specs.Spaces.{size_of};
ghost use Rattle.it_outer.specs.Rounds.{AreOutcomes, visit_view};
ghost use Rattle.it_outer.specs.Search.{VisitEnds};

use crate::outcomes::Outcomes;
use crate::types::Visit;
use it_problems::Problem;
use it_prove::{Effort, Proof};
use it_space::Row;
use std::alloc::{AllocError, Global};

/// Proves `rows` one after the other, up to the first that has no proof.
pub fn visit(
    alloc: Global,
    problem: &Problem,
    rows: &[Row],
    effort: Effort,
    outcomes: &mut Outcomes,
) -> Result<Visit, AllocError>
    requires rows { All (IsOver (size_of problem.now.space)) rows.now }
    requires outcomes { AreOutcomes problem.now effort outcomes.old }
    ensures ends { IfOk result (λ v. VisitEnds problem.now effort rows.now (visit_view v)) }
    ensures outcomes { OnOk result (AreOutcomes problem.now effort outcomes.new) }
{
    let mut proofs = Vec::new(alloc);
    for row in rows {
        match outcomes.outcome(alloc, problem, row, effort)? {
            Proof::Yes(proof) => proofs.push(proof)?,
            Proof::No(point) => return Ok(Visit::Refuted(point)),
            Proof::Undecided(cause) => {
                let left = row.copy(alloc)?;
                return Ok(Visit::Left(left, cause));
            }
        }
    }
    Ok(Visit::Proved(proofs))
}
