//! The lines of reports in modes `copy`, `best` and `sharing`.
ghost use Rattle.std.specs.Prelude.{◌≡◌, ◌++◌, IfOk, OnOk, codes, map, true, false};
ghost use Rattle.it_certificate.specs.Values.{report_text, source_texts};
ghost use Rattle.it_copy.specs.CopyLines.{copy_view};
ghost use Rattle.it_copy.specs.Extensions.{IsProof};
ghost use Rattle.it_print.specs.Lines.{joined_texts, or_zero};
ghost use Rattle.it_cli.specs.Copies.{copy_line, head_text};
ghost use Rattle.it_factor.specs.Replies.{reply_view};
ghost use Rattle.it_cli.specs.BestReplies.{reply_members};
ghost use Rattle.it_cli.specs.InnerEnds.{IsFactorReportOf, IsReportOf};

use it_answer::{Budgets, answer};
use it_certificate::{SourceText, best_json, misfit_json, report_json};
use it_copy::types::CopyLine;
use it_factor::{Reply, reply};
use it_prove::Effort;
use it_question::types::Question;
use std::alloc::{AllocError, Global};

/// Appends names, each after a comma.
fn write_more(out: &mut Vec<u8>, names: &[Vec<u8>]) -> Result<(), AllocError>
    ensures { OnOk result (out.new.items ≡ out.old.items ++ joined_texts (codes ",") true (map (λ v. v.items) names.now)) }
{
    for name in names {
        out.extend_from_slice(b",")?;
        out.extend_from_slice(name.as_slice())?;
    }
    Ok(())
}

/// Appends names with commas between them; `0` if there are none.
fn write_set(out: &mut Vec<u8>, names: &[Vec<u8>]) -> Result<(), AllocError>
    ensures { OnOk result (out.new.items ≡ out.old.items ++ joined_texts (codes ",") false (or_zero (map (λ v. v.items) names.now))) }
{
    match names {
        [] => out.extend_from_slice(b"0"),
        [first, rest @ ..] => {
            out.extend_from_slice(first.as_slice())?;
            write_more(out, rest)
        }
    }
}

/// Appends the line that asks for a copy.
#[tactic(auto, unfolding(crate::specs::Copies::copy_line))]
fn write_copy(out: &mut Vec<u8>, copy: &CopyLine) -> Result<(), AllocError>
    ensures { OnOk result (out.new.items ≡ out.old.items ++ copy_line (copy_view copy.now)) }
{
    out.extend_from_slice(b"copy ")?;
    out.extend_from_slice(copy.fresh.as_slice())?;
    out.extend_from_slice(b" of ")?;
    out.extend_from_slice(copy.old.as_slice())?;
    out.extend_from_slice(b" over ")?;
    write_set(out, copy.over.as_slice())?;
    out.extend_from_slice(b"\n")
}

/// The head that asks for these copies.
pub fn head_text(alloc: Global, copies: &[CopyLine]) -> Result<Vec<u8>, AllocError>
    ensures { IfOk result (λ text. text.items ≡ head_text (map copy_view copies.now)) }
{
    let mut text = Vec::new(alloc);
    for copy in copies {
        write_copy(&mut text, copy)?;
    }
    Ok(text)
}

/// The line of a report on a right answer to a question about a relation; `source` is what is asked.
pub fn proof_report(
    alloc: Global,
    effort: Effort,
    source: SourceText<'_>,
    question: &Question,
) -> Result<Vec<u8>, AllocError>
    requires proof { IsProof question.now.body.verb }
    ensures { IfOk result (λ text. IsReportOf effort (source_texts source.entry) question.now.body text.items) }
{
    let budgets = Budgets {
        effort,
        rows: 1,
        tries: 1,
    };
    let mut boxes = Vec::new(alloc);
    let answered = answer(alloc, question, budgets, &mut boxes)?;
    let mut line = report_json(alloc, source, question.names(), &answered.answer)?;
    line.extend_from_slice(b"\n")?;
    Ok(line)
}

/// The line of a report on a reply, without its end; `source` is what is asked.
fn reply_json(alloc: Global, source: SourceText<'_>, reply: &Reply) -> Result<Vec<u8>, AllocError>
    ensures { IfOk result (λ out. out.items ≡ report_text (source_texts source.entry) (reply_members (reply_view reply.now))) }
{
    match reply {
        Reply::Found(best) => best_json(alloc, source, best),
        Reply::Other => misfit_json(alloc, source, b"other"),
    }
}

/// The line of a report on the right reply about the factors that a question asks for; `source` is what is asked.
pub fn factor_report(
    alloc: Global,
    effort: Effort,
    source: SourceText<'_>,
    question: &Question,
) -> Result<Vec<u8>, AllocError>
    ensures { IfOk result (λ text. IsFactorReportOf effort (source_texts source.entry) question.now.body text.items) }
{
    let replied = reply(alloc, question, effort)?;
    let mut line = reply_json(alloc, source, &replied.reply)?;
    line.extend_from_slice(b"\n")?;
    Ok(line)
}
