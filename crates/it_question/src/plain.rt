//! The bytes of lines: where a line ends, and what is read of it.
ghost use Rattle.std.specs.Prelude.{◌≡◌, ◌≤◌, ◌∷◌, ◌+◌, ◌-◌, ◌<◌, drop, length, IfOk};
ghost use Rattle.it_syntax.specs.Prefixes.{IsLongestRun};
ghost use Rattle.it_question.specs.Lines.{split_lines, without_return, before_comment, without_tab, plain_text};
ghost use Rattle.it_question.specs.ReaderSteps.{is_other};

use std::alloc::{AllocError, Global};

/// Whether `b` is another byte than `stop`.
#[tactic(auto, unfolding(crate::specs::ReaderSteps::is_other))]
fn is_other(stop: u8, b: u8) -> bool
    ensures { result ≡ is_other stop b }
{
    b != stop
}

/// The number of bytes before the first `stop`.
#[tactic(auto, using(crate::proofs::PlainLemmas::run_lemmas))]
fn count_before(bytes: &[u8], stop: u8) -> usize
    ensures { IsLongestRun (is_other stop) bytes.now result }
{
    for (i, b) in bytes.iter().enumerate() {
        if !is_other(stop, *b) {
            return i;
        }
    }
    bytes.len()
}

/// The first line, without its line feed, and the bytes after that line feed.
pub fn first_line(bytes: &[u8]) -> (&[u8], &[u8])
    requires { 1 ≤ length bytes.now }
    ensures split { split_lines bytes.now ≡ result.0.now ∷ split_lines result.1.now }
    ensures shorter { length result.0.now + length result.1.now ≤ length bytes.now }
    ensures progress { length result.1.now < length bytes.now }
    ensures back { result.1.now ≡ drop (length bytes.now - length result.1.now) bytes.now }
{
    let (line, after) = bytes.split_at(count_before(bytes, b'\n'));
    match after {
        [_, after @ ..] => (line, after),
        [] => (line, after),
    }
}

/// `line` without a carriage return at its end.
#[tactic(auto, using(crate::proofs::PlainLemmas::return_dropped, crate::proofs::PlainLemmas::no_return_kept))]
fn without_return(line: &[u8]) -> &[u8]
    ensures { result.now ≡ without_return line.now }
{
    match line.split_last() {
        Some((last, front)) => { if *last == b'\r' { front } else { line } }
        None => line,
    }
}

/// `line` up to its first `#`.
fn before_comment(line: &[u8]) -> &[u8]
    ensures { result.now ≡ before_comment line.now }
{
    line.split_at(count_before(line, b'#')).0
}

/// `b`, but a space for a tab.
fn without_tab(b: u8) -> u8
    ensures { result ≡ without_tab b }
{
    if b == b'\t' { b' ' } else { b }
}

/// What is read of a line: what stands before a comment, without a carriage return at the line's end, and with tabs as spaces.
pub fn plain_text(alloc: Global, line: &[u8]) -> Result<Vec<u8>, AllocError>
    ensures { IfOk result (λ v. v.items ≡ plain_text line.now) }
{
    before_comment(without_return(line))
        .iter()
        .map(|b| without_tab(*b))
        .collect(alloc)
}
