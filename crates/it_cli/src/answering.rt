//! Mode `answer`: a question file and its answers.
ghost use Rattle.std.specs.Prelude.{◌≡◌, ◌≤◌, length, map, All, IfOk};
ghost use Rattle.it_space.specs.Answers.{answer_view};
ghost use Rattle.it_space.specs.Rows.{IsOver};
ghost use Rattle.it_space.specs.Spaces.{size_of};
ghost use Rattle.it_question.specs.AsciiTexts.{IsAsciiQuestion};
ghost use Rattle.it_demand.specs.Origins.{AreStated};
ghost use Rattle.it_demand.specs.QuestionSpaces.{space_of};
ghost use Rattle.it_question.specs.ProblemLines.{problem_names};
ghost use Rattle.it_canon.specs.QuestionDemands.{question_demands, question_origins};
ghost use Rattle.it_answer.specs.AnswerKinds.{IsAnswerTo};
ghost use Rattle.it_print.specs.Lines.{IsPrintable};
ghost use Rattle.it_certificate.specs.OriginReading.{rows_of};
ghost use Rattle.it_cli.specs.InnerEnds.{EndsForBytes, EndsForItems, EndsWithLineOrMemory, IsAnswerText, IsToldText, proof_lines_of, text_lines_of};
ghost use Rattle.it_cli.specs.Outputs.{answer_mode};
ghost use Rattle.it_cli.specs.Refusals.{fault_line};
ghost use Rattle.it_question.specs.QuestionLimits.{most_file_bytes};

use crate::json_lines::{derived_line, json_line};
use crate::refusals::fault_line;
use crate::requests::AnswerRequest;
use crate::status::Status;
use crate::telling::tell;
use it_answer::{AnsweredProblem, answer, target_rows};
use it_contain::Proposer;
use it_outside::{Sink, write_all};
use it_print::{answer_line, proof_text};
use it_question::questions;
use it_question::types::{FileFault, Question};
use it_settings::types::Format;
use it_syntax::types::Code;
use std::alloc::{AllocError, Global};

/// Answers a question file.
pub fn answer_file<K: Sink>(
    alloc: Global,
    request: AnswerRequest,
    bytes: &[u8],
    boxes: &mut Vec<Box<dyn Proposer>>,
    sink: &mut K,
) -> Status
    requires { length bytes.now ≤ most_file_bytes }
    ensures { EndsForBytes K.taken K.faults (answer_mode request.limits request.budgets (map plan boxes.old.items) request.format) sink.old sink.new bytes.now result }
{
    match questions(alloc, bytes, request.limits) {
        Ok(questions) => answer_all(alloc, request, questions.as_slice(), boxes, sink),
        Err(FileFault::Fault { line, column, code }) => tell_fault(alloc, line, column, code, sink),
        Err(FileFault::Memory) => Status::Memory,
    }
}

/// Writes each answer as soon as it is there.
fn answer_all<K: Sink>(
    alloc: Global,
    request: AnswerRequest,
    questions: &[Question],
    boxes: &mut Vec<Box<dyn Proposer>>,
    sink: &mut K,
) -> Status
    requires ascii { All IsAsciiQuestion questions.now }
    ensures { EndsForItems K.taken K.faults (answer_mode request.limits request.budgets (map plan boxes.old.items) request.format) sink.old sink.new questions.now result }
{
    for (i, question) in questions.iter().enumerate() {
        let Ok(text) = answer_one(alloc, request, i + 1, question, boxes) else {
            return Status::Memory;
        };
        let Ok(()) = write_all(sink, text.as_slice()) else {
            return Status::WriteFault;
        };
    }
    Status::Done
}

/// The lines of the answer to question `k`, counted from 1.
fn answer_one(
    alloc: Global,
    request: AnswerRequest,
    k: usize,
    question: &Question,
    boxes: &mut Vec<Box<dyn Proposer>>,
) -> Result<Vec<u8>, AllocError>
    requires ascii { IsAsciiQuestion question.now }
    ensures { IfOk result (λ t. IsAnswerText request.budgets (map plan boxes.old.items) request.format k question.now (map plan boxes.new.items) t.items) }
{
    question.facts();
    let answered = answer(alloc, question, request.budgets, boxes)?;
    lines(alloc, request.format, k, question, &answered)
}

/// The lines of an answer in `format`.
fn lines(
    alloc: Global,
    format: Format,
    k: usize,
    question: &Question,
    answered: &AnsweredProblem,
) -> Result<Vec<u8>, AllocError>
    requires ascii { IsAsciiQuestion question.now }
    requires stated { AreStated answered.now.problem.space (question_origins question.now.body) (question_demands question.now.body) answered.now.problem.constraints }
    requires space { answered.now.problem.space ≡ space_of (problem_names question.now.body) }
    requires fits { IsAnswerTo question.now.body (answer_view answered.now.answer) }
    requires printable { IsPrintable question.now.body (length answered.now.problem.constraints) answered.now.answer }
    requires rows { All (IsOver (size_of (space_of question.now.body.names))) (rows_of (answer_view answered.now.answer)) }
    ensures { IfOk result (λ text. IsToldText format k question.now (answer_view answered.now.answer) text.items) }
{
    question.facts();
    match format {
        Format::Text => text_lines(alloc, k, question, answered),
        Format::Json => json_line(alloc, question, &answered.answer),
        Format::Proof => proof_lines(alloc, k, question, answered),
        Format::Derived => derived_line(alloc, question, &answered.answer),
    }
}

/// The lines of an answer in the format `text`.
pub fn text_lines(
    alloc: Global,
    k: usize,
    question: &Question,
    answered: &AnsweredProblem,
) -> Result<Vec<u8>, AllocError>
    requires printable { IsPrintable question.now.body (length answered.now.problem.constraints) answered.now.answer }
    ensures { IfOk result (λ text. text.items ≡ text_lines_of k question.now.body answered.now) }
{
    answer_line(
        alloc,
        k,
        question,
        answered.problem.constraints(),
        &answered.answer,
    )
}

/// The lines of an answer in the format `proof`, with the rows of which it has certificates.
fn proof_lines(
    alloc: Global,
    k: usize,
    question: &Question,
    answered: &AnsweredProblem,
) -> Result<Vec<u8>, AllocError>
    requires stated { AreStated answered.now.problem.space (question_origins question.now.body) (question_demands question.now.body) answered.now.problem.constraints }
    requires space { answered.now.problem.space ≡ space_of (problem_names question.now.body) }
    requires fits { IsAnswerTo question.now.body (answer_view answered.now.answer) }
    requires printable { IsPrintable question.now.body (length answered.now.problem.constraints) answered.now.answer }
    ensures { IfOk result (λ text. text.items ≡ proof_lines_of k question.now.body answered.now) }
{
    let targets = target_rows(alloc, question, &answered.answer)?;
    proof_text(
        alloc,
        k,
        question,
        answered.problem.constraints(),
        targets.as_slice(),
        &answered.answer,
    )
}

/// Writes the line of the file's first fault.
pub fn tell_fault<K: Sink>(
    alloc: Global,
    line: u32,
    column: u32,
    code: Code,
    sink: &mut K,
) -> Status
    ensures { EndsWithLineOrMemory K.taken K.faults sink.old sink.new (fault_line line column code) Status.Refused result }
{
    match fault_line(alloc, line, column, code) {
        Ok(text) => tell(sink, text.as_slice(), Status::Refused),
        Err(_) => Status::Memory,
    }
}
