//! Modes `copy` and `best`: replies to the questions of a file whose head may ask for copies.
ghost use Rattle.std.specs.Prelude.{[], ◌≤◌, IfOk, length, map};
ghost use Rattle.it_copy.specs.CopyLines.{AreNamed, copy_view};
ghost use Rattle.it_cli.specs.Copies.{with_copies};
ghost use Rattle.it_cli.specs.InnerEnds.{EndsForBytes, EndsForItems, IsTextOf, questions_with, request_mode};
ghost use Rattle.it_question.specs.QuestionLimits.{most_file_bytes};

use crate::answering::tell_fault;
use crate::copying::answer_text;
use crate::factoring::factor_text;
use crate::requests::Request;
use crate::status::Status;
use it_copy::copy_file;
use it_copy::types::CopyLine;
use it_outside::{Sink, write_all};
use it_question::types::{FileFault, Question};
use std::alloc::{AllocError, Global};

/// What is asked of each question of such a file.
#[derive(Clone, Copy)]
pub enum Wanted {
    /// Their answers, in mode `copy`.
    Answers,
    /// Their least factors, in mode `best`.
    Factors,
}

/// Answers the questions of a file with a head, or finds their factors.
pub fn reply_to_file<K: Sink>(
    alloc: Global,
    wanted: Wanted,
    request: Request,
    bytes: &[u8],
    sink: &mut K,
) -> Status
    requires { length bytes.now ≤ most_file_bytes }
    ensures { EndsForBytes K.taken K.faults (request_mode wanted request) sink.old sink.new bytes.now result }
{
    match copy_file(alloc, bytes, request.limits) {
        Ok(file) => reply_all(
            alloc,
            wanted,
            request,
            file.copies.as_slice(),
            file.questions.as_slice(),
            sink,
        ),
        Err(FileFault::Fault { line, column, code }) => tell_fault(alloc, line, column, code, sink),
        Err(FileFault::Memory) => Status::Memory,
    }
}

/// Writes the lines of each question as soon as they are there.
fn reply_all<K: Sink>(
    alloc: Global,
    wanted: Wanted,
    request: Request,
    copies: &[CopyLine],
    questions: &[Question],
    sink: &mut K,
) -> Status
    requires names { AreNamed copies.now }
    requires few { length copies.now ≤ 4 }
    ensures { EndsForItems K.taken K.faults (request_mode wanted request) sink.old sink.new (questions_with copies.now questions.now) result }
{
    for (i, question) in questions.iter().enumerate() {
        let Ok(text) = text(alloc, wanted, request, copies, i + 1, question) else {
            return Status::Memory;
        };
        let Ok(()) = write_all(sink, text.as_slice()) else {
            return Status::WriteFault;
        };
    }
    Status::Done
}

/// The lines of the right reply to question `k`, counted from 1, with the copies.
fn text(
    alloc: Global,
    wanted: Wanted,
    request: Request,
    copies: &[CopyLine],
    k: usize,
    question: &Question,
) -> Result<Vec<u8>, AllocError>
    requires names { AreNamed copies.now }
    requires few { length copies.now ≤ 4 }
    ensures { IfOk result (λ text. IsTextOf (request_mode wanted request) [] k (with_copies (map copy_view copies.now) question.now) text.items) }
{
    match wanted {
        Wanted::Answers => answer_text(alloc, request, copies, k, question),
        Wanted::Factors => factor_text(alloc, request, copies, k, question),
    }
}
