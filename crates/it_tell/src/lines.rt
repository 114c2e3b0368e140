//! What is told of a line of a report.
ghost use Rattle.std.specs.Prelude.{◌≡◌, length, IfOk};
ghost use Rattle.it_space.specs.Answers.{answer_view};
ghost use Rattle.it_canon.specs.QuestionDemands.{question_demands};
ghost use Rattle.it_certificate.specs.AnswerShapes.{HasQuestionShape};
ghost use Rattle.it_print.specs.Lines.{IsPrintable};
ghost use Rattle.it_certificate.specs.Bounds.{bounds_view};
ghost use Rattle.it_certificate.specs.CodeReading.{HasCodedShape};
ghost use Rattle.it_certificate.specs.Reports.{KeepsLimits};
ghost use Rattle.it_report.specs.LineVerdicts.{numbered_line};
ghost use Rattle.it_tell.specs.Tellings.{bounds_words};
ghost use Rattle.it_tell.specs.Steps.{CanBePrinted, IsAnsweredText, IsCodedText, IsReportedText, IsToldLine};

use crate::codes::code_text;
use crate::details::{write_details, write_indented};
use crate::factors::best_line;
use crate::heads::{head_line, numbered_line};
use crate::settings::Options;
use it_canon::problem;
use it_certificate::{Reported, ReportedBounds, ReportedCode, answer_from_json};
use it_print::write_number;
use it_question::FileLimits;
use it_question::types::Question;
use it_report::{JudgedLine, judge_fault, judge_reported};
use it_space::Answer;
use std::alloc::{AllocError, Global};

/// The lines about an answer to question k.
#[tactic(auto, unfolding(crate::specs::Steps::IsAnsweredText, crate::specs::Steps::AppendsDetails))]
fn answered_text(
    alloc: Global,
    options: Options,
    k: usize,
    question: &Question,
    answer: &Answer,
) -> Result<Vec<u8>, AllocError>
    requires fits { HasQuestionShape question.now.body (answer_view answer.now) }
    requires printable { IsPrintable question.now.body (length (question_demands question.now.body)) answer.now }
    ensures { IfOk result (λ t. IsAnsweredText options k question.now.body (answer_view answer.now) t.items) }
{
    let problem = problem(alloc, question)?;
    let constraints = problem.constraints();
    let mut text = head_line(alloc, k, question, constraints, answer)?;
    write_details(alloc, &mut text, question, options, constraints, answer)?;
    Ok(text)
}

/// The lines about a no with a code: those of the no, and below them the code.
#[tactic(auto, using(crate::proofs::CodeLemmas::coded_appended))]
fn coded_text(
    alloc: Global,
    options: Options,
    k: usize,
    question: &Question,
    answer: &Answer,
    code: &ReportedCode,
) -> Result<Vec<u8>, AllocError>
    requires fits { HasCodedShape question.now.body (answer_view answer.now) code.now }
    requires printable { IsPrintable question.now.body (length (question_demands question.now.body)) answer.now }
    ensures { IfOk result (λ t. IsCodedText options k question.now.body (answer_view answer.now) code.now t.items) }
{
    let mut text = answered_text(alloc, options, k, question, answer)?;
    let code_line = code_text(alloc, question.names(), code)?;
    write_indented(&mut text, code_line.as_slice())?;
    Ok(text)
}

/// The line about an outer bound: the numbers of its rows and rays.
#[tactic(auto, unfolding(crate::specs::Tellings::bounds_words))]
fn bounds_line(alloc: Global, k: usize, bounds: &ReportedBounds) -> Result<Vec<u8>, AllocError>
    ensures { IfOk result (λ t. t.items ≡ numbered_line k (bounds_words (bounds_view bounds.now))) }
{
    let mut words = Vec::new(alloc);
    words.extend_from_slice(b"outer ")?;
    write_number(&mut words, bounds.rows.len())?;
    words.extend_from_slice(b" ")?;
    write_number(&mut words, bounds.steps.len())?;
    numbered_line(alloc, k, words.as_slice())
}

/// The lines about what was read of line k.
fn reported_text(
    alloc: Global,
    options: Options,
    k: usize,
    reported: &Reported,
) -> Result<Vec<u8>, AllocError>
    requires limits { KeepsLimits reported.now }
    requires printable { CanBePrinted reported.now }
    ensures { IfOk result (λ t. IsReportedText options k reported.now t.items) }
{
    match reported {
        Reported::Answered { question, answer } => {
            answered_text(alloc, options, k, question, answer)
        }
        Reported::Coded {
            question,
            answer,
            code,
        } => coded_text(alloc, options, k, question, answer, code),
        Reported::Derived {
            question,
            answer,
            origins: _,
        } => answered_text(alloc, options, k, question, answer),
        Reported::Factored { question: _, best } => best_line(alloc, k, best),
        Reported::Bounded {
            question: _,
            bounds,
        } => bounds_line(alloc, k, bounds),
        Reported::Misfit => numbered_line(alloc, k, b"misfit"),
    }
}

/// What is told of line `k` of a report, whatever the limits of the files that it is about; lines are counted from 1, and `line` comes
/// without its end. A line that is judged invalid is told as mode `check` tells it with the widest limits.
pub fn tell_line(
    alloc: Global,
    options: Options,
    k: usize,
    line: &[u8],
) -> Result<JudgedLine, AllocError>
    ensures { IfOk result (λ t. IsToldLine options k line.now t.text.items t.invalid) }
{
    let reported = match answer_from_json(alloc, line, FileLimits::WIDEST) {
        Ok(reported) => reported,
        Err(fault) => return judge_fault(alloc, k, fault),
    };
    let judged = judge_reported(alloc, k, &reported)?;
    if judged.invalid {
        return Ok(judged);
    }
    let text = reported_text(alloc, options, k, &reported)?;
    Ok(JudgedLine {
        text,
        invalid: false,
    })
}
