//! The certificates of a region's rows.
ghost use Rattle.std.specs.Prelude.{◌≡◌, IfOk, length, map};
ghost use Rattle.serde_json.specs.View.{view};
ghost use Rattle.it_space.specs.Answers.{answer_view, certificate_view};
ghost use Rattle.it_certificate.specs.OriginReading.{answer_origins, rows_of, tells_origins};
ghost use Rattle.it_certificate.specs.Steps.{GivesKeyed};

use crate::answers::fault;
use crate::keys::{Key, ReportFault};
use crate::members::{origins_at, text_of_member};
use it_space::{Answer, Certificate, Mark, Row};
use serde_json::Value;
use std::alloc::{AllocError, Global};

/// Whether the word of the answer is `region` and there are origins.
#[tactic(auto, unfolding(crate::specs::OriginReading::tells_origins))]
pub fn tells_origins(value: &Value) -> bool
    ensures { result ≡ tells_origins (view value.now) }
{
    match text_of_member(value.get("answer")) {
        Some(text) => text == "region" && value.get("origins").is_some(),
        None => false,
    }
}

/// Rows without their marks.
pub fn unmarked(alloc: Global, rows: &[(Mark, Row)]) -> Result<Vec<Row>, AllocError>
    ensures { IfOk result (λ v. v.items ≡ map (λ r. r.1) rows.now) }
{
    let mut plain = Vec::new(alloc);
    for row in rows {
        let copy = row.1.copy(alloc)?;
        plain.push(copy)?;
    }
    Ok(plain)
}

/// The number of rows of an answer, 0 where it is no region.
fn row_count(answer: &Answer) -> usize
    ensures { result ≡ length (rows_of (answer_view answer.now)) }
{
    match answer {
        Answer::Region(rows) => rows.len(),
        Answer::Yes(_) | Answer::No { .. } | Answer::Undecided(_) => 0,
        Answer::Contained { .. } | Answer::Open { .. } => 0,
    }
}

/// A certificate for each row of an answer.
#[tactic(auto, unfolding(crate::specs::OriginReading::answer_origins))]
pub fn answer_origins(
    alloc: Global,
    value: &Value,
    answer: &Answer,
) -> Result<Vec<Certificate>, ReportFault>
    ensures { GivesKeyed (λ v. map certificate_view v.items) result (answer_origins (answer_view answer.now) (view value.now)) }
{
    match origins_at(alloc, value, row_count(answer)) {
        Ok(origins) => Ok(origins),
        Err(refusal) => Err(fault(refusal, Key::Origins)),
    }
}
