//! The verdict on a line of a report.
ghost use Rattle.std.specs.Prelude.{◌≡◌, true, map, IfOk, Ok, Err};
ghost use Rattle.it_space.specs.Answers.{answer_view, certificate_view};
ghost use Rattle.it_space.specs.Answers.AnswerView.{Yes, No, Region, Contained};
ghost use Rattle.it_syntax.specs.Meaning.{relation_view};
ghost use Rattle.it_question.specs.Questions.{Prove};
ghost use Rattle.it_certificate.specs.AnswerShapes.{HasQuestionShape};
ghost use Rattle.it_ratio.specs.BestViews.{best_view};
ghost use Rattle.it_certificate.specs.FactorShapes.{HasFactorShape};
ghost use Rattle.it_certificate.specs.CodeReading.{HasCodedShape, IsNo};
ghost use Rattle.it_certificate.specs.OriginReading.{HasDerivedShape, IsRegion, rows_of};
ghost use Rattle.it_report.specs.Judging.{IsJudgedLine, IsJudgedWhereRead, factor_line_verdict, values_of};
ghost use Rattle.it_report.specs.LineVerdicts.{IsLineOf};
ghost use Rattle.it_certificate.specs.Reports.{KeepsLimits};
ghost use Rattle.it_report.specs.Steps.{IsAboutRelation, IsFaultLine, IsJudgedAnswer, IsJudgedCoded, IsJudgedDerived, IsJudgedReport};

use crate::bounds::bounds_line;
use crate::factors::{SideRows, best_verdict};
use crate::lines::{
    JudgedLine, factor_line, not_json_line, other_line, shape_line, skipped_line, verdict_line,
};
use crate::rows::{point_verdict, proofs_verdict};
use it_canon::{problem, problem_names, sides, target_rows};
use it_certificate::{ReportFault, Reported, ReportedCode, answer_from_json, unmarked};
use it_codes::first_other;
use it_question::FileLimits;
use it_question::types::{Question, Verb};
use it_rates::problem_of_lines;
use it_ratio::types::Best;
use it_region::{candidate, obligations, pair};
use it_space::{Answer, Certificate, Mark, Point, Row, VarSet};
use it_syntax::types::Relation;
use std::alloc::{AllocError, Global};

/// The line about line `k` of a report, whose questions are read within these limits; lines are counted from 1, and `line` comes
/// without its end. The verdict is:
/// of a yes and of a containment, that on the first of its certificates that isn't valid;
/// of a no, that on its point against the target on its side; with a code, where that is valid, the first set whose value is
/// another by the code;
/// of a region with origins, that on the first of its rows' certificates that isn't valid;
/// of a least factor, that on its certificate and then on its point, at which the left side is at least 1 and the factor holds
/// with equality;
/// of no factor, that on its point, at which the left side is 0;
/// of no least factor, that on its two certificates;
/// of an outer bound, that on its rows, its rays and their hull.
/// Answers that claim nothing of polymatroids, or whose claim isn't judged, are skipped: undecided, regions without origins,
/// open questions and misfits.
pub fn judge(
    alloc: Global,
    k: usize,
    line: &[u8],
    limits: FileLimits,
) -> Result<JudgedLine, AllocError>
    ensures { IfOk result (λ j. IsJudgedLine limits k line.now j.text.items j.invalid) }
{
    match answer_from_json(alloc, line, limits) {
        Ok(reported) => judge_reported(alloc, k, &reported),
        Err(fault) => judge_fault(alloc, k, fault),
    }
}

/// The line about line `k` of a report, where `answer_from_json` read this of it; what `judge` says of it.
pub fn judge_reported(
    alloc: Global,
    k: usize,
    reported: &Reported,
) -> Result<JudgedLine, AllocError>
    requires { KeepsLimits reported.now }
    ensures { IfOk result (λ j. IsJudgedWhereRead k (Ok reported.now) j.text.items j.invalid) }
{
    report_line(alloc, k, reported)
}

/// The line about line `k` of a report, where `answer_from_json` refused it with this fault; what `judge` says of it.
pub fn judge_fault(alloc: Global, k: usize, fault: ReportFault) -> Result<JudgedLine, AllocError>
    ensures line { IfOk result (λ j. IsJudgedWhereRead k (Err fault) j.text.items j.invalid) }
    ensures invalid { IfOk result (λ j. j.invalid ≡ true) }
{
    fault_line(alloc, k, fault)
}

/// The line about a line that has no reading.
fn fault_line(alloc: Global, k: usize, fault: ReportFault) -> Result<JudgedLine, AllocError>
    ensures { IfOk result (λ j. IsFaultLine k fault j.text.items j.invalid) }
{
    match fault {
        ReportFault::Memory => Err(AllocError),
        ReportFault::NotJson => not_json_line(alloc, k),
        ReportFault::Shape { key } => shape_line(alloc, k, key),
    }
}

/// The line about what was read.
fn report_line(alloc: Global, k: usize, reported: &Reported) -> Result<JudgedLine, AllocError>
    requires { KeepsLimits reported.now }
    ensures { IfOk result (λ j. IsJudgedReport k reported.now j.text.items j.invalid) }
{
    match reported {
        Reported::Answered { question, answer } => answer_line(alloc, k, question, answer),
        Reported::Coded {
            question,
            answer,
            code,
        } => coded_line(alloc, k, question, answer, code),
        Reported::Derived {
            question,
            answer,
            origins,
        } => derived_line(alloc, k, question, answer, origins.as_slice()),
        Reported::Factored { question, best } => best_line(alloc, k, question, best),
        Reported::Bounded { question, bounds } => bounds_line(alloc, k, question, bounds),
        Reported::Misfit => skipped_line(alloc, k),
    }
}

/// The line about an answer to a question.
fn answer_line(
    alloc: Global,
    k: usize,
    question: &Question,
    answer: &Answer,
) -> Result<JudgedLine, AllocError>
    requires fits { HasQuestionShape question.now.body (answer_view answer.now) }
    ensures { IfOk result (λ j. IsJudgedAnswer k question.now.body (answer_view answer.now) j.text.items j.invalid) }
{
    match answer {
        Answer::Yes(proofs) => yes_line(alloc, k, question, proofs.as_slice()),
        Answer::No { back, point } => no_line(alloc, k, question, *back, point),
        Answer::Undecided(_) => skipped_line(alloc, k),
        Answer::Region(_) => skipped_line(alloc, k),
        Answer::Contained { parts, proofs } => {
            contained_line(alloc, k, question, parts.as_slice(), proofs.as_slice())
        }
        Answer::Open { .. } => skipped_line(alloc, k),
    }
}

/// The relation of a question that is about one.
fn relation_of(question: &Question) -> &Relation
    requires { IsAboutRelation question.now.body.verb }
    ensures { question.now.body.verb ≡ Prove (relation_view result.now) }
{
    let Verb::Prove(relation) = question.verb() else {
        unreachable!()
    };
    relation
}

/// The line about a yes.
fn yes_line(
    alloc: Global,
    k: usize,
    question: &Question,
    proofs: &[Certificate],
) -> Result<JudgedLine, AllocError>
    requires fits { HasQuestionShape question.now.body (Yes (map certificate_view proofs.now)) }
    ensures { IfOk result (λ j. IsJudgedAnswer k question.now.body (Yes (map certificate_view proofs.now)) j.text.items j.invalid) }
{
    question.facts();
    let problem = problem(alloc, question)?;
    let rows = target_rows(alloc, relation_of(question), problem.space())?;
    let verdict = proofs_verdict(&problem, rows.as_slice(), proofs);
    verdict_line(alloc, k, problem_names(question), &verdict)
}

/// The line about a no.
fn no_line(
    alloc: Global,
    k: usize,
    question: &Question,
    back: bool,
    point: &Point,
) -> Result<JudgedLine, AllocError>
    requires fits { HasQuestionShape question.now.body (No back point.now) }
    ensures { IfOk result (λ j. IsJudgedAnswer k question.now.body (No back point.now) j.text.items j.invalid) }
{
    question.facts();
    let problem = problem(alloc, question)?;
    let rows = target_rows(alloc, relation_of(question), problem.space())?;
    let verdict = point_verdict(&problem, rows.as_slice(), back, point);
    verdict_line(alloc, k, problem_names(question), &verdict)
}

/// The point of a no.
fn point_of(answer: &Answer) -> &Point
    requires { IsNo (answer_view answer.now) }
    ensures { values_of (answer_view answer.now) ≡ result.now }
{
    let Answer::No { back: _, point } = answer else {
        unreachable!()
    };
    point
}

/// The line about a no with a code: what is wrong with the no; if nothing is, the first set whose value is another by the code.
fn coded_line(
    alloc: Global,
    k: usize,
    question: &Question,
    answer: &Answer,
    code: &ReportedCode,
) -> Result<JudgedLine, AllocError>
    requires fits { HasCodedShape question.now.body (answer_view answer.now) code.now }
    ensures { IfOk result (λ j. IsJudgedCoded k question.now.body (answer_view answer.now) code.now j.text.items j.invalid) }
{
    let judged = answer_line(alloc, k, question, answer)?;
    if judged.invalid {
        return Ok(judged);
    }
    let point = point_of(answer);
    let other = first_other(alloc, code.code(), code.times() as u64, point)?;
    match other {
        Some(set) => other_line(alloc, k, problem_names(question), set),
        None => Ok(judged),
    }
}

/// The rows of a region, with their marks.
fn rows_of(answer: &Answer) -> &[(Mark, Row)]
    requires { IsRegion (answer_view answer.now) }
    ensures { answer_view answer.now ≡ Region result.now }
{
    let Answer::Region(rows) = answer else {
        unreachable!()
    };
    rows.as_slice()
}

/// The line about a region with origins: the first thing wrong with a certificate of a row. All lines of the question are
/// constraints, `row` lines too.
fn derived_line(
    alloc: Global,
    k: usize,
    question: &Question,
    answer: &Answer,
    origins: &[Certificate],
) -> Result<JudgedLine, AllocError>
    requires fits { HasDerivedShape question.now.body (answer_view answer.now) (map certificate_view origins.now) }
    ensures { IfOk result (λ j. IsJudgedDerived k question.now.body (answer_view answer.now) (map certificate_view origins.now) j.text.items j.invalid) }
{
    let problem = problem_of_lines(alloc, question)?;
    let rows = unmarked(alloc, rows_of(answer))?;
    let verdict = proofs_verdict(&problem, rows.as_slice(), origins);
    verdict_line(alloc, k, question.names(), &verdict)
}

/// The line about a containment: its certificates against the obligations of its parts, under the first region's problem.
fn contained_line(
    alloc: Global,
    k: usize,
    question: &Question,
    parts: &[VarSet],
    proofs: &[Certificate],
) -> Result<JudgedLine, AllocError>
    requires fits { HasQuestionShape question.now.body (Contained parts.now (map certificate_view proofs.now)) }
    ensures { IfOk result (λ j. IsJudgedAnswer k question.now.body (Contained parts.now (map certificate_view proofs.now)) j.text.items j.invalid) }
{
    let pair = pair(alloc, question)?;
    let rows = obligations(alloc, &pair, &candidate(parts))?;
    let verdict = proofs_verdict(&pair.first, rows.as_slice(), proofs);
    verdict_line(alloc, k, problem_names(question), &verdict)
}

/// The line about what is found of the factors of the relation that a question asks about.
fn best_line(
    alloc: Global,
    k: usize,
    question: &Question,
    best: &Best,
) -> Result<JudgedLine, AllocError>
    requires fits { HasFactorShape question.now.body (best_view best.now) }
    ensures { IfOk result (λ j. IsLineOf k (factor_line_verdict question.now.body (best_view best.now)) j.text.items j.invalid) }
{
    question.facts();
    let problem = problem(alloc, question)?;
    let (left, right) = sides(alloc, relation_of(question), problem.space())?;
    let rows = SideRows {
        left: &left,
        right: &right,
    };
    match best_verdict(alloc, &problem, &rows, best)? {
        Some(verdict) => factor_line(alloc, k, problem_names(question), &verdict),
        None => skipped_line(alloc, k),
    }
}
