//! Mode `copy`: the answers to questions with the copies that the head of their file asks for.
ghost use Rattle.std.specs.Prelude.{[], ◌≤◌, IfOk, length, map, true, false};
ghost use Rattle.it_copy.specs.CopyLines.{AreNamed, copy_view};
ghost use Rattle.it_copy.specs.Extensions.{IsProof};
ghost use Rattle.it_cli.specs.Copies.{with_copies};
ghost use Rattle.it_cli.specs.InnerEnds.{IsProofText, IsTextOf};
ghost use Rattle.it_cli.specs.Outputs.{copy_mode};

use crate::answering::text_lines;
use crate::misfits::{misfit_line, misfit_report};
use crate::reporting::{head_text, proof_report};
use crate::requests::Request;
use it_answer::{Budgets, answer};
use it_certificate::SourceText;
use it_copy::extend;
use it_copy::types::CopyLine;
use it_prove::Effort;
use it_question::FileLimits;
use it_question::types::Question;
use std::alloc::{AllocError, Global};

/// The lines of question `k`, counted from 1: a right answer with the copies, or why it can't have them; with `report` the line
/// of a report instead.
pub fn answer_text(
    alloc: Global,
    request: Request,
    copies: &[CopyLine],
    k: usize,
    question: &Question,
) -> Result<Vec<u8>, AllocError>
    requires names { AreNamed copies.now }
    requires few { length copies.now ≤ 4 }
    ensures { IfOk result (λ text. IsTextOf (copy_mode request.limits request.report request.effort) [] k (with_copies (map copy_view copies.now) question.now) text.items) }
{
    if request.report {
        reply_report(alloc, request.limits, request.effort, copies, k, question)
    } else {
        reply_lines(alloc, request.limits, request.effort, copies, k, question)
    }
}

/// The lines of question `k` as text.
fn reply_lines(
    alloc: Global,
    limits: FileLimits,
    effort: Effort,
    copies: &[CopyLine],
    k: usize,
    question: &Question,
) -> Result<Vec<u8>, AllocError>
    requires names { AreNamed copies.now }
    requires few { length copies.now ≤ 4 }
    ensures { IfOk result (λ text. IsTextOf (copy_mode limits false effort) [] k (with_copies (map copy_view copies.now) question.now) text.items) }
{
    match extend(alloc, question, copies, limits) {
        Ok(extended) => proof_lines(alloc, effort, k, &extended),
        Err(fault) => misfit_line(alloc, k, fault),
    }
}

/// The line of a report on question `k`.
fn reply_report(
    alloc: Global,
    limits: FileLimits,
    effort: Effort,
    copies: &[CopyLine],
    k: usize,
    question: &Question,
) -> Result<Vec<u8>, AllocError>
    requires names { AreNamed copies.now }
    requires few { length copies.now ≤ 4 }
    ensures { IfOk result (λ text. IsTextOf (copy_mode limits true effort) [] k (with_copies (map copy_view copies.now) question.now) text.items) }
{
    let head = head_text(alloc, copies)?;
    let text = question.text(alloc)?;
    let source = SourceText::Copies {
        head: head.as_slice(),
        question: text.as_slice(),
    };
    match extend(alloc, question, copies, limits) {
        Ok(extended) => proof_report(alloc, effort, source, &extended),
        Err(fault) => misfit_report(alloc, source, fault),
    }
}

/// The lines of a right answer to question `k`, which is about a relation.
pub fn proof_lines(
    alloc: Global,
    effort: Effort,
    k: usize,
    question: &Question,
) -> Result<Vec<u8>, AllocError>
    requires proof { IsProof question.now.body.verb }
    ensures { IfOk result (λ text. IsProofText effort k question.now.body text.items) }
{
    question.facts();
    let budgets = Budgets {
        effort,
        rows: 1,
        tries: 1,
    };
    let mut boxes = Vec::new(alloc);
    let answered = answer(alloc, question, budgets, &mut boxes)?;
    text_lines(alloc, k, question, &answered)
}
