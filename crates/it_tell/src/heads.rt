//! The first line of an answer.
ghost use Rattle.std.specs.Prelude.{◌≡◌, ◌≤◌, ◌++◌, length, codes, decimal, IfOk};
ghost use Rattle.it_space.specs.Answers.{answer_view};
ghost use Rattle.it_canon.specs.TrueLines.{variable_count};
ghost use Rattle.it_print.specs.Lines.{IsPrintable};
ghost use Rattle.it_report.specs.LineVerdicts.{numbered_line};
ghost use Rattle.it_tell.specs.Tellings.{head_line};

use it_print::{answer_line, write_number};
use it_problems::Constraint;
use it_question::types::Question;
use it_space::Answer;
use std::alloc::{AllocError, Global};

/// The line `words` about line `k`, with a line feed.
#[tactic(auto, unfolding(it_report::specs::LineVerdicts::numbered_line))]
pub fn numbered_line(alloc: Global, k: usize, words: &[u8]) -> Result<Vec<u8>, AllocError>
    ensures { IfOk result (λ t. t.items ≡ numbered_line k words.now) }
{
    let mut out = Vec::new(alloc);
    write_number(&mut out, k)?;
    out.extend_from_slice(b" ")?;
    out.extend_from_slice(words)?;
    out.extend_from_slice(b"\n")?;
    Ok(out)
}

/// The first line of a region of `rows` rows.
fn region_line(alloc: Global, k: usize, rows: usize) -> Result<Vec<u8>, AllocError>
    ensures { IfOk result (λ t. t.items ≡ numbered_line k (codes "region " ++ decimal rows)) }
{
    let mut words = Vec::new(alloc);
    words.extend_from_slice(b"region ")?;
    write_number(&mut words, rows)?;
    numbered_line(alloc, k, words.as_slice())
}

/// The first line of an answer to question `k`: that of the text format, without proofs, values and rows.
#[tactic(auto, unfolding(crate::specs::Tellings::head_line))]
pub fn head_line(
    alloc: Global,
    k: usize,
    question: &Question,
    constraints: &[Constraint],
    answer: &Answer,
) -> Result<Vec<u8>, AllocError>
    requires printable { IsPrintable question.now.body (length constraints.now) answer.now }
    ensures { IfOk result (λ t. t.items ≡ head_line k question.now.body (answer_view answer.now)) }
{
    match answer {
        Answer::Yes(_) => numbered_line(alloc, k, b"yes"),
        Answer::No { .. } => numbered_line(alloc, k, b"no"),
        Answer::Region(rows) => region_line(alloc, k, rows.len()),
        Answer::Undecided(_) | Answer::Contained { .. } | Answer::Open { .. } => {
            answer_line(alloc, k, question, constraints, answer)
        }
    }
}
