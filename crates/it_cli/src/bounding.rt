//! Mode `outer`: a question file, and the outer bounds of its eliminations in rates alone.
ghost use Rattle.std.specs.Prelude.{◌≤◌, [], IfOk, length, map};
ghost use Rattle.it_cli.specs.InnerEnds.{EndsForBytes, EndsForItems, IsTextOf};
ghost use Rattle.it_cli.specs.Outputs.{outer_mode};
ghost use Rattle.it_question.specs.QuestionLimits.{most_file_bytes};
ghost use Rattle.it_space.specs.Rows.{most_system_rows};

use crate::answering::tell_fault;
use crate::status::Status;
use it_bounds::{reply, reply_lines, reply_report};
use it_outer::Limits;
use it_outside::{Sink, write_all};
use it_question::types::{FileFault, Question};
use it_question::{FileLimits, questions};
use std::alloc::{AllocError, Global};

/// Writes the outer bounds of the eliminations in a question file with the limits `file`.
pub fn find_bounds<K: Sink>(
    alloc: Global,
    file: FileLimits,
    report: bool,
    limits: Limits,
    bytes: &[u8],
    sink: &mut K,
) -> Status
    requires bytes { length bytes.now ≤ most_file_bytes }
    requires few_rows { limits.rows ≤ most_system_rows }
    ensures { EndsForBytes K.taken K.faults (outer_mode file report limits) sink.old sink.new bytes.now result }
{
    match questions(alloc, bytes, file) {
        Ok(questions) => reply_all(alloc, file, report, limits, questions.as_slice(), sink),
        Err(FileFault::Fault { line, column, code }) => tell_fault(alloc, line, column, code, sink),
        Err(FileFault::Memory) => Status::Memory,
    }
}

/// Writes the lines of each question as soon as they are there.
fn reply_all<K: Sink>(
    alloc: Global,
    file: FileLimits,
    report: bool,
    limits: Limits,
    questions: &[Question],
    sink: &mut K,
) -> Status
    requires few_rows { limits.rows ≤ most_system_rows }
    ensures { EndsForItems K.taken K.faults (outer_mode file report limits) sink.old sink.new questions.now result }
{
    for (i, question) in questions.iter().enumerate() {
        let Ok(text) = bound_lines(alloc, file, report, limits, i + 1, question) else {
            return Status::Memory;
        };
        let Ok(()) = write_all(sink, text.as_slice()) else {
            return Status::WriteFault;
        };
    }
    Status::Done
}

/// The lines of the right reply to question `k`, counted from 1; with `report` the line of a report instead.
fn bound_lines(
    alloc: Global,
    file: FileLimits,
    report: bool,
    limits: Limits,
    k: usize,
    question: &Question,
) -> Result<Vec<u8>, AllocError>
    requires few_rows { limits.rows ≤ most_system_rows }
    ensures { IfOk result (λ text. IsTextOf (outer_mode file report limits) [] k question.now text.items) }
{
    let replied = reply(alloc, question, file, limits)?;
    if report {
        return reply_report(alloc, limits, question, &replied.reply);
    }
    reply_lines(
        alloc,
        limits,
        k,
        question,
        replied.problem.constraints(),
        &replied.reply,
    )
}
