//! The reader of the head of a file.
ghost use Rattle.std.specs.Prelude.{◌≡◌, ◌≤◌, [], drop, true, IfOk, IfErr, OnOk, length, map, Ok};
ghost use Rattle.it_forms.specs.FormReading.{read};
ghost use Rattle.it_question.specs.Cursors.{letters_left, line_view};
ghost use Rattle.it_question.specs.Lines.{split_lines};
ghost use Rattle.it_copy.specs.CopyForms as forms;
ghost use Rattle.it_copy.specs.CopyLines.{AreNamed, copy_view};
ghost use Rattle.it_copy.specs.Heads.{IsFirstHeadFault, IsHead, begins_questions, lines_before};
ghost use Rattle.it_copy.specs.HeadSteps.{StopsInHead};
ghost use Rattle.it_syntax.specs.Lines.{most_text_bytes};

use crate::copy_lines::copies;
use crate::types::{CopyLine, Head};
use crate::words::VARS;
use it_question::first_line;
use it_question::readers::{Cursor, Line, file_lines, stop_fault};
use it_question::types::FileFault;
use it_syntax::rest::{Piece, Stop};
use it_syntax::types::Code;
use std::alloc::Global;

/// Whether the word `vars` or the end of the file stands there.
fn begins_questions(cursor: Cursor<'_>) -> bool
    ensures { result ≡ begins_questions (letters_left cursor.entry) }
{
    match cursor.front() {
        Some((Piece::Word(word), _)) => word == VARS,
        Some((Piece::Bad(Code::Unfinished), _)) => true,
        _ => false,
    }
}

/// The copies of the head, up to where the questions begin.
fn copies_of_head(alloc: Global, cursor: &mut Cursor<'_>) -> Result<Vec<CopyLine>, Stop>
    ensures read { IfOk result (λ x. read (forms.more_copies []) (letters_left cursor.old) ≡ Ok (map copy_view x.items, letters_left cursor.new)) }
    ensures begins { OnOk result (begins_questions (letters_left cursor.new) ≡ true) }
    ensures names { IfOk result (λ x. AreNamed x.items) }
    ensures few { IfOk result (λ x. length x.items ≤ 4) }
    ensures stops { IfErr result (λ e. StopsInHead e (letters_left cursor.new) (letters_left cursor.old)) }
{
    match copies(alloc, cursor) {
        Ok(copies) => {
            if begins_questions(*cursor) {
                Ok(copies)
            } else {
                Err(cursor.fault())
            }
        }
        Err(stop) => Err(stop),
    }
}

/// `lines` without the first `n`.
fn lines_after(lines: &[Line], n: usize) -> &[Line]
    ensures { map line_view result.now ≡ drop n (map line_view lines.now) }
{
    lines.split_at(n.min(lines.len())).1
}

/// The number of lines of the file before the first of `lines`.
fn lines_before(lines: &[Line]) -> u32
    ensures { result ≡ lines_before (map line_view lines.now) }
{
    match lines {
        [first, ..] => first.number.saturating_sub(1),
        [] => 0,
    }
}

/// The position of the byte with which the line after the first `skipped` ones begins.
fn start_after(bytes: &[u8], skipped: u32) -> usize
    ensures within { result ≤ length bytes.now }
    ensures after { split_lines (drop result bytes.now) ≡ drop skipped (split_lines bytes.now) }
{
    let mut passed: u32 = 0;
    let mut rest = bytes;
    while passed < skipped {
        if rest.is_empty() {
            return bytes.len();
        }
        rest = first_line(rest).1;
        passed += 1;
    }
    bytes.len() - rest.len()
}

/// The head of a file: all lines before the first whose first token is the word `vars`, or all lines where there is none. Each
/// line that has tokens asks for a copy; there are at most four. The fault is the first one of the first of these lines that doesn't
/// ask for a copy, or asks for a fifth one.
pub fn head(alloc: Global, bytes: &[u8]) -> Result<Head, FileFault>
    requires { length bytes.now ≤ most_text_bytes }
    ensures read { IfOk result (λ h. IsHead bytes.now (map copy_view h.lines.items) h.from h.skipped) }
    ensures names { IfOk result (λ h. AreNamed h.lines.items) }
    ensures few { IfOk result (λ h. length h.lines.items ≤ 4) }
    ensures within { IfOk result (λ h. h.skipped ≤ length bytes.now) }
    ensures fault { IfErr result (IsFirstHeadFault bytes.now) }
{
    let lines = file_lines(alloc, bytes)?;
    let mut cursor = Cursor::at(lines.as_slice());
    match copies_of_head(alloc, &mut cursor) {
        Ok(copies) => {
            let skipped = lines_before(lines_after(lines.as_slice(), copies.len()));
            Ok(Head {
                lines: copies,
                from: start_after(bytes, skipped),
                skipped,
            })
        }
        Err(stop) => Err(stop_fault(lines.as_slice(), cursor, stop)),
    }
}
