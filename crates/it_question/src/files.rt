//! The questions of a file.
ghost use Rattle.std.specs.Prelude.{◌≤◌, ◌^◌, length, map, All, IfOk, IfErr};
ghost use Rattle.it_question.specs.Cursors.{line_view, letters_left};
ghost use Rattle.it_question.specs.Files.{IsFileWithin, IsFirstFaultWithin};
ghost use Rattle.it_question.specs.WholeFiles.{place_of};
ghost use Rattle.it_question.specs.Stops.{IsLeft, IfFault, IsFaultAt, IsStopAt};
ghost use Rattle.it_question.specs.Limits.{IsQuestion};
ghost use Rattle.it_question.specs.Lines.{letters_of_lines};
ghost use Rattle.it_syntax.specs.Lines.{most_text_bytes};

use crate::asking::bodies;
use crate::cursor::{Cursor, Line};
use crate::lines::file_lines;
use crate::places::{count, letters_left, place};
use crate::sizes::FileLimits;
use crate::texts::with_texts;
use crate::types::{FileFault, Question};
use it_syntax::rest::Stop;
use it_syntax::types::Code;
use std::alloc::Global;

/// The fault `code` at the first letter that `cursor` leaves of `lines`.
fn fault(lines: &[Line], cursor: Cursor<'_>, code: Code) -> FileFault
    requires few { length (letters_of_lines (map line_view lines.now)) ≤ 2 ^ 32 }
    requires there { IsLeft (map line_view lines.now) (letters_left cursor) }
    ensures { IsFaultAt (place_of (map line_view lines.now) (letters_left cursor.entry)) code result }
{
    let at = count(lines) - letters_left(&cursor);
    let (line, column) = place(lines, at).unwrap();
    FileFault::Fault { line, column, code }
}

/// Why reading stopped with `cursor` left of `lines`: the code of the fault with the line and the column of the piece that is
/// left first, or that memory ran out.
pub fn stop_fault(lines: &[Line], cursor: Cursor<'_>, stop: Stop) -> FileFault
    requires few { length (letters_of_lines (map line_view lines.now)) ≤ 2 ^ 32 }
    requires there { IfFault stop (IsLeft (map line_view lines.now) (letters_left cursor)) }
    ensures { IsStopAt (place_of (map line_view lines.now) (letters_left cursor.entry)) stop result }
{
    match stop {
        Stop::Memory => FileFault::Memory,
        Stop::Fault(code) => fault(lines, cursor, code),
    }
}

/// The questions that a file asks, in order, within these limits. A file has lines that end with a line feed, which the last may lack; a carriage
/// return directly before a line feed or the file's end counts for nothing, `#` begins a comment up to the line's end, a
/// tab is read as a space, and lines without tokens are passed over.
///
/// The fault is the first one at which no rule of the language goes on: `Byte` at a byte that begins no token, `Number` at
/// a number above 2^64 - 1, `Many` at a word of more than 16 bytes and at the first token past a limit, `Word` at what
/// no rule allows there, `Name` at a name of which none of that kind is declared, `Twice` at a new name that is taken or a
/// name that is named again, `Unfinished` at the file's end inside a question. A line's end has the column after its last
/// token, and the file's end the line after the last one and column 1. `Large` is at the word of a verb whose question's table is
/// too large, unless `limits.large_tables`, and at the first `region` of a question with more names than a containment may have.
pub fn questions(
    alloc: Global,
    bytes: &[u8],
    limits: FileLimits,
) -> Result<Vec<Question>, FileFault>
    requires { length bytes.now ≤ most_text_bytes }
    ensures read { IfOk result (λ qs. IsFileWithin limits bytes.now qs.items) }
    ensures limits { IfOk result (λ qs. All (λ q. IsQuestion q.body) qs.items) }
    ensures fault { IfErr result (IsFirstFaultWithin limits bytes.now) }
{
    let lines = file_lines(alloc, bytes)?;
    let mut cursor = Cursor::at(lines.as_slice());
    match bodies(alloc, &mut cursor, limits) {
        Ok(bodies) => {
            // named before it is answered, so that the contract of the call stands at the answer
            let questions = with_texts(alloc, lines, bodies)?;
            Ok(questions)
        }
        Err(stop) => Err(stop_fault(lines.as_slice(), cursor, stop)),
    }
}
