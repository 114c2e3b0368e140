//! The reading of a report line.
ghost use Rattle.std.specs.Prelude.{◌≡◌, false, true, IfOk, None, Some};
ghost use Rattle.serde_json.specs.View.{view};
ghost use Rattle.it_question.specs.Limits.{IsQuestion};
ghost use Rattle.it_certificate.specs.CodeReading.{tells_code};
ghost use Rattle.it_certificate.specs.FactorReading.{factor_kind_at};
ghost use Rattle.it_certificate.specs.OriginReading.{tells_origins};
ghost use Rattle.it_certificate.specs.Reports.{KeepsLimits, Reports, tells_misfit, tells_outer};
ghost use Rattle.it_certificate.specs.ReportSteps.{GivesAsked, ReadsValue};

use crate::answers::fault;
use crate::bounds::question_bounds;
use crate::codes::{question_code, tells_code};
use crate::factors::{factor_kind_at, question_best};
use crate::keys::{Key, ReportFault};
use crate::kinds::{AnswerKind, FactorKind};
use crate::members::{answer_kind_at, tells_misfit, tells_outer};
use crate::origins::{answer_origins, tells_origins};
use crate::sources::{source_at, source_key};
use crate::types::Reported;
use crate::verbs::question_answer;
use it_question::FileLimits;
use it_question::types::Question;
use serde_json::Value;
use std::alloc::Global;

/// The question that a line asks.
#[tactic(auto, using(crate::proofs::ReportLemmas::no_question))]
fn asked_question(alloc: Global, value: &Value, limits: FileLimits) -> Result<Question, ReportFault>
    ensures reading { GivesAsked limits (view value.now) result }
    ensures limits { IfOk result (λ q. IsQuestion q.body) }
{
    match source_at(alloc, value, limits) {
        Ok(question) => Ok(question),
        Err(refusal) => Err(fault(refusal, source_key(value))),
    }
}

/// The reading of a line that tells an outer bound.
#[tactic(auto, using(crate::proofs::ReportLemmas::no_bounds_source, crate::proofs::ReportLemmas::bounds_ok, crate::proofs::ReportLemmas::bounds_err))]
fn bounded(alloc: Global, value: &Value, limits: FileLimits) -> Result<Reported, ReportFault>
    requires told { false ≡ tells_misfit (view value.now) }
    requires outer { true ≡ tells_outer (view value.now) }
    ensures reading { ReadsValue limits (view value.now) result }
    ensures limits { IfOk result KeepsLimits }
{
    let question = asked_question(alloc, value, limits)?;
    // `?` would do; with the match each case is a goal of its own, with the reading's equation at hand
    match question_bounds(alloc, value, &question) {
        Ok(bounds) => Ok(Reported::Bounded { question, bounds }),
        Err(fault) => Err(fault),
    }
}

/// The reading of a line that tells an answer.
#[tactic(auto, using(crate::proofs::ReportLemmas::no_kind, crate::proofs::ReportLemmas::no_source, crate::proofs::ReportLemmas::answer_ok, crate::proofs::ReportLemmas::answer_err))]
fn answered(alloc: Global, value: &Value, limits: FileLimits) -> Result<Reported, ReportFault>
    requires told { false ≡ tells_misfit (view value.now) }
    requires outer { false ≡ tells_outer (view value.now) }
    requires factors { None ≡ factor_kind_at (view value.now) }
    requires code { false ≡ tells_code (view value.now) }
    requires origins { false ≡ tells_origins (view value.now) }
    ensures reading { ReadsValue limits (view value.now) result }
    ensures limits { IfOk result KeepsLimits }
{
    let Some(kind) = answer_kind_at(value) else {
        return Err(ReportFault::Shape { key: Key::Answer });
    };
    let question = asked_question(alloc, value, limits)?;
    // as above
    match question_answer(alloc, value, &question, kind) {
        Ok(answer) => Ok(Reported::Answered { question, answer }),
        Err(fault) => Err(fault),
    }
}

/// The reading of a line that tells a no with a code.
#[tactic(auto, using(crate::proofs::ReportLemmas::no_code_source, crate::proofs::ReportLemmas::no_err))]
fn coded(alloc: Global, value: &Value, limits: FileLimits) -> Result<Reported, ReportFault>
    requires told { false ≡ tells_misfit (view value.now) }
    requires outer { false ≡ tells_outer (view value.now) }
    requires factors { None ≡ factor_kind_at (view value.now) }
    requires code { true ≡ tells_code (view value.now) }
    ensures reading { ReadsValue limits (view value.now) result }
    ensures limits { IfOk result KeepsLimits }
{
    let question = asked_question(alloc, value, limits)?;
    // as above
    let answer = match question_answer(alloc, value, &question, AnswerKind::No) {
        Ok(answer) => answer,
        Err(fault) => return Err(fault),
    };
    match question_code(alloc, value, &question) {
        Ok(code) => Ok(Reported::Coded {
            question,
            answer,
            code,
        }),
        Err(fault) => Err(fault),
    }
}

/// The reading of a line that tells a region with origins.
#[tactic(auto, using(crate::proofs::ReportLemmas::no_origins_source, crate::proofs::ReportLemmas::region_err))]
fn derived(alloc: Global, value: &Value, limits: FileLimits) -> Result<Reported, ReportFault>
    requires told { false ≡ tells_misfit (view value.now) }
    requires outer { false ≡ tells_outer (view value.now) }
    requires factors { None ≡ factor_kind_at (view value.now) }
    requires code { false ≡ tells_code (view value.now) }
    requires origins { true ≡ tells_origins (view value.now) }
    ensures reading { ReadsValue limits (view value.now) result }
    ensures limits { IfOk result KeepsLimits }
{
    let question = asked_question(alloc, value, limits)?;
    // as above
    let answer = match question_answer(alloc, value, &question, AnswerKind::Region) {
        Ok(answer) => answer,
        Err(fault) => return Err(fault),
    };
    match answer_origins(alloc, value, &answer) {
        Ok(origins) => Ok(Reported::Derived {
            question,
            answer,
            origins,
        }),
        Err(fault) => Err(fault),
    }
}

/// The reading of a line about factors, of this kind.
#[tactic(auto, using(crate::proofs::ReportLemmas::no_factor_source, crate::proofs::ReportLemmas::best_err))]
fn factored(
    alloc: Global,
    value: &Value,
    kind: FactorKind,
    limits: FileLimits,
) -> Result<Reported, ReportFault>
    requires told { false ≡ tells_misfit (view value.now) }
    requires outer { false ≡ tells_outer (view value.now) }
    requires factors { Some kind ≡ factor_kind_at (view value.now) }
    ensures reading { ReadsValue limits (view value.now) result }
    ensures limits { IfOk result KeepsLimits }
{
    let question = asked_question(alloc, value, limits)?;
    // as above
    match question_best(alloc, value, &question, kind) {
        Ok(best) => Ok(Reported::Factored { question, best }),
        Err(fault) => Err(fault),
    }
}

/// The reading of a JSON value.
#[tactic(auto, using(crate::proofs::ReportLemmas::told_misfit))]
fn report_of(alloc: Global, value: &Value, limits: FileLimits) -> Result<Reported, ReportFault>
    ensures reading { ReadsValue limits (view value.now) result }
    ensures limits { IfOk result KeepsLimits }
{
    if tells_misfit(value) {
        return Ok(Reported::Misfit);
    }
    if tells_outer(value) {
        return bounded(alloc, value, limits);
    }
    match factor_kind_at(value) {
        Some(kind) => factored(alloc, value, kind, limits),
        None => {
            if tells_code(value) {
                coded(alloc, value, limits)
            } else if tells_origins(value) {
                derived(alloc, value, limits)
            } else {
                answered(alloc, value, limits)
            }
        }
    }
}

/// The reading of a report line, without its end: the question that it asks, within these limits, with the answer that it gives. The
/// question is that of the sharing file `sharing` where there is such a key, else that of the text `question`, with the copies of the head
/// `copies` where there is such a key. `NotJson` comes where the line is no UTF-8 or no JSON value, also where it is nested
/// more than 127 deep. `Shape` names the first key that is missing or of another shape, in this order: `answer`; where no
/// question is asked, the first one of `sharing`, `copies` and `question` that is there, or `question` where none is; `answer`
/// again where the question's verb gives no such answer; and then
/// for `yes` `proofs`;
/// for `no` `point` and `side`, and `code` where there is such a key;
/// for `undecided` `cause` and `at`;
/// for `region` `rows`, and `origins` where there is such a key;
/// for `contained` `parts` and `proofs`;
/// for `open` `tried`;
/// for `outer` `rows`, `proofs` and `rays`.
/// What is said of factors is read for a question `prove E >= F`: for `best` `factor`, `proofs` and `point`, for `none`
/// `point`, for `unbounded` `factor` and `proofs`, and for an `undecided` that has the key `phase` `cause`, `at` and `phase`.
/// Of `misfit` no other key is read. If a key is doubled its last value counts; other keys count for nothing. Nothing is said
/// of whether the answer is right.
pub fn answer_from_json(
    alloc: Global,
    line: &[u8],
    limits: FileLimits,
) -> Result<Reported, ReportFault>
    ensures reading { Reports limits line.now result }
    ensures limits { IfOk result KeepsLimits }
{
    match Value::from_slice(alloc, line) {
        Ok(value) => report_of(alloc, &value, limits),
        Err(error) => Err(if error.is_memory() {
            ReportFault::Memory
        } else {
            ReportFault::NotJson
        }),
    }
}
