//! The lines of a question, and its text.
//! The result of `push` is matched where `?` would do: so each case is a goal of its own.
ghost use Rattle.std.specs.Prelude.{◌≡◌, ◌≤◌, take, drop, map, All, IfOk, OnOk};
ghost use Rattle.std.specs.Vec.Iter.{into_iter_items};
ghost use Rattle.it_question.specs.Bodies.{body_view};
ghost use Rattle.it_question.specs.Cursors.{line_view};
ghost use Rattle.it_question.specs.Limits.{IsQuestion};
ghost use Rattle.it_question.specs.ReaderSteps.{FewLines, FewLinesOf};
ghost use Rattle.it_question.specs.Questions.{verb_view};
ghost use Rattle.it_question.specs.LineTexts.{without_leading, without_trailing};
ghost use Rattle.it_question.specs.Texts.{region_line_count, verb_line_count, question_line_count, with_texts};

use crate::bodies::Body;
use crate::cursor::Line;
use crate::types::{Question, Region, Verb};
use std::alloc::{AllocError, Global};
use std::vec::IntoIter;

/// `line` without the spaces in front.
fn without_leading(line: &[u8]) -> &[u8]
    ensures { result.now ≡ without_leading line.now }
{
    let mut rest = line;
    while let [first, after @ ..] = rest {
        if *first != b' ' {
            return rest;
        }
        rest = after;
    }
    rest
}

/// `line` without the spaces at its end.
fn without_trailing(line: &[u8]) -> &[u8]
    ensures { result.now ≡ without_trailing line.now }
{
    let mut rest = line;
    while let Some((last, front)) = rest.split_last() {
        if *last != b' ' {
            return rest;
        }
        rest = front;
    }
    rest
}

/// `line` without the spaces at both ends.
fn trim(line: &[u8]) -> &[u8]
    ensures { result.now ≡ without_trailing (without_leading line.now) }
{
    without_trailing(without_leading(line))
}

impl Question {
    /// The question's text: its lines from `vars` to the verb, each from its first token to its last with tabs as spaces, and
    /// a line feed after it. It is put together anew at each call, since only a report needs it.
    pub fn text(&self, alloc: Global) -> Result<Vec<u8>, AllocError>
        ensures { IfOk result (λ text. text.items ≡ self.now.text) }
    {
        let mut text = Vec::new(alloc);
        for line in self.source() {
            text.extend_from_slice(trim(line.as_slice()))?;
            match text.push(b'\n') {
                Ok(()) => {}
                Err(_) => return Err(AllocError),
            }
        }
        Ok(text)
    }
}

/// The number of lines of a region, its `region` line among them.
#[tactic(auto, using(crate::proofs::LineCountLemmas::few_givens, crate::proofs::LineCountLemmas::few_rows, crate::proofs::LineCountLemmas::region_lines_are))]
fn region_line_count(region: &Region) -> usize
    requires { FewLines region.now.lines }
    ensures lines { result ≡ region_line_count region.now }
    ensures few { result ≤ 130 }
{
    let auxiliaries = if region.auxiliaries() == 0 { 0 } else { 1 };
    1 + auxiliaries + (region.lines().givens().len() + region.lines().rows().len())
}

/// The number of lines from the verb, or from the first region, to the question's end.
fn verb_line_count(verb: &Verb) -> usize
    requires { FewLinesOf (verb_view verb.now) }
    ensures lines { result ≡ verb_line_count (verb_view verb.now) }
    ensures few { result ≤ 325 }
{
    match verb {
        Verb::Prove(_) => 1,
        Verb::Eliminate(_) => 1,
        Verb::Contain {
            first,
            second,
            tries,
        } => region_line_count(first) + region_line_count(second) + tries.len() + 1,
    }
}

/// The number of lines of a question.
fn question_line_count(question: &Body) -> usize
    requires { IsQuestion (body_view question.now) }
    ensures { result ≡ question_line_count (body_view question.now) }
{
    let rates = if question.names.space().rates == 0 {
        0
    } else {
        1
    };
    1 + rates
        + (question.lines.givens().len() + question.lines.rows().len())
        + verb_line_count(&question.verb)
}

/// Takes the next `n` lines and gives their texts.
fn next_texts(
    alloc: Global,
    lines: &mut IntoIter<Line>,
    n: usize,
) -> Result<Vec<Vec<u8>>, AllocError>
    ensures texts { IfOk result (λ t. map (λ v. v.items) t.items ≡ map (λ l. l.text) (take n (map line_view (into_iter_items lines.old)))) }
    ensures after { OnOk result (into_iter_items lines.new ≡ drop n (into_iter_items lines.old)) }
{
    let mut texts = Vec::new(alloc);
    for _ in 0..n {
        let Some(line) = lines.next() else {
            return Ok(texts);
        };
        match texts.push(line.into_text()) {
            Ok(()) => {}
            Err(failed) => {
                drop(failed);
                return Err(AllocError);
            }
        }
    }
    Ok(texts)
}

/// The questions with their texts: each takes its own lines of `lines`, one question after the other.
pub fn with_texts(
    alloc: Global,
    lines: Vec<Line>,
    bodies: Vec<Body>,
) -> Result<Vec<Question>, AllocError>
    requires { All (λ b. IsQuestion (body_view b)) bodies.items }
    ensures { IfOk result (λ qs. qs.items ≡ with_texts (map line_view lines.items) (map body_view bodies.items)) }
{
    let mut rest = lines.into_iter();
    let mut left = bodies.into_iter();
    let mut questions = Vec::new(alloc);
    while let Some(body) = left.next() {
        let source = next_texts(alloc, &mut rest, question_line_count(&body))?;
        match questions.push(body.with_source(source)) {
            Ok(()) => {}
            Err(failed) => {
                drop(failed);
                return Err(AllocError);
            }
        }
    }
    Ok(questions)
}
