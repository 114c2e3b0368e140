//! Mode `sharing`: a file that tells who may know a secret, and the answer to what it asks.
ghost use Rattle.std.specs.Prelude.{◌≡◌, ◌+◌, ◌<◌, ◌≤◌, ◌∷◌, ◌++◌, [], codes, length, IfOk, true, false};
ghost use Rattle.it_question.specs.Limits.{IsQuestion};
ghost use Rattle.it_question.specs.QuestionLimits.{most_lines, most_file_bytes};
ghost use Rattle.it_sharing.specs.Sharings.{made_question, maximal_count, minimal_count};
ghost use Rattle.it_cli.specs.InnerEnds.{EndsForBytes, EndsForItems, IsTextOf};
ghost use Rattle.it_cli.specs.Outputs.{sharing_mode};
ghost use Rattle.it_cli.specs.SharingReplies.{said_by, sharing_heading};
ghost use Rattle.it_certificate.specs.Values.{OfSharing, misfit_members, report_text};

use crate::answering::tell_fault;
use crate::copying::proof_lines;
use crate::factoring::factor_line;
use crate::reporting::{factor_report, proof_report};
use crate::requests::Request;
use crate::status::Status;
use crate::telling::tell;
use it_certificate::{SourceText, misfit_json};
use it_outside::Sink;
use it_print::write_number;
use it_prove::Effort;
use it_question::FileLimits;
use it_question::types::FileFault;
use it_sharing::types::{Made, MadeFault, Sharing};
use it_sharing::{made, sharing};
use std::alloc::{AllocError, Global};

/// The line where the minimal and the maximal sets are too many.
const MANY: &[u8] = b"misfit many\n";

/// Answers what a sharing file asks.
pub fn answer_sharing<K: Sink>(
    alloc: Global,
    request: Request,
    bytes: &[u8],
    sink: &mut K,
) -> Status
    requires { length bytes.now ≤ most_file_bytes }
    ensures { EndsForBytes K.taken K.faults (sharing_mode request.limits request.report request.effort) sink.old sink.new bytes.now result }
{
    match sharing(alloc, bytes, request.limits) {
        Ok(sharing) => reply(alloc, request, bytes, &sharing, sink),
        Err(FileFault::Fault { line, column, code }) => tell_fault(alloc, line, column, code, sink),
        Err(FileFault::Memory) => Status::Memory,
    }
}

/// Writes the lines for what a sharing file asks.
fn reply<K: Sink>(
    alloc: Global,
    request: Request,
    bytes: &[u8],
    sharing: &Sharing,
    sink: &mut K,
) -> Status
    ensures { EndsForItems K.taken K.faults (sharing_mode request.limits request.report request.effort) sink.old sink.new (said_by bytes.now sharing.now ∷ []) result }
{
    match text(alloc, request, bytes, sharing) {
        Ok(text) => tell(sink, text.as_slice(), Status::Done),
        Err(_) => Status::Memory,
    }
}

/// The lines of the right reply to what a sharing file asks; with `report` the line of a report instead.
fn text(
    alloc: Global,
    request: Request,
    bytes: &[u8],
    sharing: &Sharing,
) -> Result<Vec<u8>, AllocError>
    ensures { IfOk result (λ text. IsTextOf (sharing_mode request.limits request.report request.effort) [] 1 (said_by bytes.now sharing.now) text.items) }
{
    if request.report {
        report_line(alloc, request.limits, request.effort, bytes, sharing)
    } else {
        lines(alloc, request.limits, request.effort, bytes, sharing)
    }
}

/// The lines of the right reply to what a sharing file asks.
fn lines(
    alloc: Global,
    limits: FileLimits,
    effort: Effort,
    bytes: &[u8],
    sharing: &Sharing,
) -> Result<Vec<u8>, AllocError>
    ensures { IfOk result (λ text. IsTextOf (sharing_mode limits false effort) [] 1 (said_by bytes.now sharing.now) text.items) }
{
    match made(alloc, sharing) {
        Ok(made) => made_lines(alloc, limits, effort, bytes, sharing, &made),
        Err(MadeFault::Many) => many_line(alloc),
        Err(MadeFault::Memory) => Err(AllocError),
    }
}

/// The line of a report on the right reply to what a sharing file asks.
fn report_line(
    alloc: Global,
    limits: FileLimits,
    effort: Effort,
    bytes: &[u8],
    sharing: &Sharing,
) -> Result<Vec<u8>, AllocError>
    ensures { IfOk result (λ text. IsTextOf (sharing_mode limits true effort) [] 1 (said_by bytes.now sharing.now) text.items) }
{
    match made(alloc, sharing) {
        Ok(made) => made_report(alloc, limits, effort, bytes, sharing, &made),
        Err(MadeFault::Many) => many_report(alloc, bytes),
        Err(MadeFault::Memory) => Err(AllocError),
    }
}

/// The line of a report on a file whose sets are too many.
fn many_report(alloc: Global, bytes: &[u8]) -> Result<Vec<u8>, AllocError>
    ensures { IfOk result (λ text. text.items ≡ report_text (OfSharing bytes.now) (misfit_members (codes "many")) ++ codes "\n") }
{
    let mut line = misfit_json(alloc, SourceText::Sharing(bytes), b"many")?;
    line.extend_from_slice(b"\n")?;
    Ok(line)
}

/// The line of a report on the right reply to the question that a sharing file makes.
fn made_report(
    alloc: Global,
    limits: FileLimits,
    effort: Effort,
    bytes: &[u8],
    sharing: &Sharing,
    made: &Made,
) -> Result<Vec<u8>, AllocError>
    requires question { made.now.question ≡ made_question sharing.now }
    requires limits { IsQuestion made.now.question.body }
    requires minimal { made.now.minimal ≡ minimal_count sharing.now }
    requires maximal { made.now.maximal ≡ maximal_count sharing.now }
    requires few { made.now.minimal + made.now.maximal ≤ most_lines }
    ensures { IfOk result (λ text. IsTextOf (sharing_mode limits true effort) [] 1 (said_by bytes.now sharing.now) text.items) }
{
    if sharing.asks_best() {
        let text = factor_report(alloc, effort, SourceText::Sharing(bytes), &made.question)?;
        Ok(text)
    } else {
        let line = proof_report(alloc, effort, SourceText::Sharing(bytes), &made.question)?;
        Ok(line)
    }
}

/// The line where the sets are too many.
fn many_line(alloc: Global) -> Result<Vec<u8>, AllocError>
    ensures { IfOk result (λ text. text.items ≡ codes "misfit many\n") }
{
    let mut text = Vec::new(alloc);
    text.extend_from_slice(MANY)?;
    Ok(text)
}

/// The lines of the right reply to the question that a sharing file makes.
fn made_lines(
    alloc: Global,
    limits: FileLimits,
    effort: Effort,
    bytes: &[u8],
    sharing: &Sharing,
    made: &Made,
) -> Result<Vec<u8>, AllocError>
    requires question { made.now.question ≡ made_question sharing.now }
    requires limits { IsQuestion made.now.question.body }
    requires minimal { made.now.minimal ≡ minimal_count sharing.now }
    requires maximal { made.now.maximal ≡ maximal_count sharing.now }
    requires few { made.now.minimal + made.now.maximal ≤ most_lines }
    ensures { IfOk result (λ text. IsTextOf (sharing_mode limits false effort) [] 1 (said_by bytes.now sharing.now) text.items) }
{
    if sharing.asks_best() {
        let line = factor_line(alloc, effort, 1, &made.question)?;
        let text = with_heading(alloc, made.minimal, made.maximal, line.as_slice())?;
        Ok(text)
    } else {
        let lines = proof_lines(alloc, effort, 1, &made.question)?;
        let whole = with_heading(alloc, made.minimal, made.maximal, lines.as_slice())?;
        Ok(whole)
    }
}

/// The line with the numbers of minimal and maximal sets, and then `lines`.
#[tactic(auto, unfolding(crate::specs::SharingReplies::sharing_heading))]
fn with_heading(
    alloc: Global,
    minimal: u32,
    maximal: u32,
    lines: &[u8],
) -> Result<Vec<u8>, AllocError>
    ensures { IfOk result (λ text. text.items ≡ sharing_heading minimal maximal ++ lines.now) }
{
    let mut text = Vec::new(alloc);
    text.extend_from_slice(b"sharing ")?;
    write_number(&mut text, minimal as usize)?;
    text.extend_from_slice(b" ")?;
    write_number(&mut text, maximal as usize)?;
    text.extend_from_slice(b"\n")?;
    text.extend_from_slice(lines)?;
    Ok(text)
}
