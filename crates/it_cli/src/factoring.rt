//! Mode `best`: the best factors between the sides of a question's relation, with the copies that the file's head asks for, if there are
//! any.
ghost use Rattle.std.specs.Prelude.{◌≡◌, ◌≤◌, [], IfOk, length, map, true, false};
ghost use Rattle.it_copy.specs.CopyLines.{AreNamed, copy_view};
ghost use Rattle.it_cli.specs.Copies.{with_copies};
ghost use Rattle.it_cli.specs.InnerEnds.{IsFactorText, IsTextOf};
ghost use Rattle.it_cli.specs.Outputs.{best_mode};

use crate::misfits::{misfit_line, misfit_report};
use crate::reporting::{factor_report, head_text};
use crate::requests::Request;
use it_certificate::SourceText;
use it_copy::extend;
use it_copy::types::CopyLine;
use it_factor::{reply, reply_line};
use it_prove::Effort;
use it_question::FileLimits;
use it_question::types::Question;
use std::alloc::{AllocError, Global};

/// The line of the right reply to question `k`, counted from 1; with `report` the line of a report instead.
pub fn factor_text(
    alloc: Global,
    request: Request,
    copies: &[CopyLine],
    k: usize,
    question: &Question,
) -> Result<Vec<u8>, AllocError>
    requires names { AreNamed copies.now }
    requires few { length copies.now ≤ 4 }
    ensures { IfOk result (λ text. IsTextOf (best_mode request.limits request.report request.effort) [] k (with_copies (map copy_view copies.now) question.now) text.items) }
{
    if request.report {
        reply_report(alloc, request.limits, request.effort, copies, k, question)
    } else {
        reply_text(alloc, request.limits, request.effort, copies, k, question)
    }
}

/// The line of the right reply to question `k` as text.
fn reply_text(
    alloc: Global,
    limits: FileLimits,
    effort: Effort,
    copies: &[CopyLine],
    k: usize,
    question: &Question,
) -> Result<Vec<u8>, AllocError>
    requires names { AreNamed copies.now }
    requires few { length copies.now ≤ 4 }
    ensures { IfOk result (λ text. IsTextOf (best_mode limits false effort) [] k (with_copies (map copy_view copies.now) question.now) text.items) }
{
    if copies.is_empty() {
        return factor_line(alloc, effort, k, question);
    }
    match extend(alloc, question, copies, limits) {
        Ok(extended) => factor_line(alloc, effort, k, &extended),
        Err(fault) => misfit_line(alloc, k, fault),
    }
}

/// The line of a report on the right reply to a question; it doesn't depend on its number.
fn reply_report(
    alloc: Global,
    limits: FileLimits,
    effort: Effort,
    copies: &[CopyLine],
    k: usize,
    question: &Question,
) -> Result<Vec<u8>, AllocError>
    requires names { AreNamed copies.now }
    requires few { length copies.now ≤ 4 }
    ensures { IfOk result (λ text. IsTextOf (best_mode limits true effort) [] k (with_copies (map copy_view copies.now) question.now) text.items) }
{
    let text = question.text(alloc)?;
    if copies.is_empty() {
        return factor_report(
            alloc,
            effort,
            SourceText::Question(text.as_slice()),
            question,
        );
    }
    let head = head_text(alloc, copies)?;
    let source = SourceText::Copies {
        head: head.as_slice(),
        question: text.as_slice(),
    };
    match extend(alloc, question, copies, limits) {
        Ok(extended) => factor_report(alloc, effort, source, &extended),
        Err(fault) => misfit_report(alloc, source, fault),
    }
}

/// The line of the right reply to question `k`, counted from 1, without copies.
pub fn factor_line(
    alloc: Global,
    effort: Effort,
    k: usize,
    question: &Question,
) -> Result<Vec<u8>, AllocError>
    ensures { IfOk result (λ text. IsFactorText effort k question.now.body text.items) }
{
    let replied = reply(alloc, question, effort)?;
    reply_line(
        alloc,
        k,
        question,
        replied.problem.constraints(),
        &replied.reply,
    )
}
