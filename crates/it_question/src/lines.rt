//! The lines of a file that have tokens, and its end.
//! The result of `push` is matched where `?` would do: so each case is a goal of its own.
ghost use Rattle.std.specs.Bool.{OnTrue, OnFalse};
ghost use Rattle.std.specs.Prelude.{◌≡◌, ◌≤◌, [], length, map, None, IfOk, OnOk};
ghost use Rattle.it_question.specs.Cursors.{line_view};
ghost use Rattle.it_question.specs.Lines.{AreLinesOf, IsLine, end_line, IsFilled};
ghost use Rattle.it_question.specs.ReaderSteps.{IsLineAdded};
ghost use Rattle.it_syntax.specs.Lines.{most_text_bytes};

use crate::cursor::Line;
use crate::plain::{first_line, plain_text};
use it_syntax::line_tokens;
use it_syntax::types::{Code, LineTokens, Misspelling};
use std::alloc::{AllocError, Global};

/// The line number `number`, whose bytes are `bytes`, with its tokens.
fn line_of(alloc: Global, number: u32, bytes: &[u8]) -> Result<Line, AllocError>
    requires { length bytes.now ≤ most_text_bytes }
    ensures { IfOk result (λ l. IsLine number bytes.now (line_view l)) }
{
    let text = plain_text(alloc, bytes)?;
    let tokens = line_tokens(alloc, text.as_slice())?;
    Ok(Line {
        number,
        text,
        tokens,
    })
}

/// Whether the line has a token or a misspelling.
fn has_tokens(line: &Line) -> bool
    ensures filled { OnTrue result (IsFilled (line_view line.now).tokens (line_view line.now).misspelling) }
    ensures no_tokens { OnFalse result (line.now.tokens.tokens.items ≡ []) }
    ensures no_misspelling { OnFalse result (line.now.tokens.misspelling ≡ None) }
{
    match line.tokens.misspelling {
        Some(_) => true,
        None => match line.tokens.tokens.as_slice() {
            [] => false,
            _ => true,
        },
    }
}

/// Appends the line of `bytes` to `lines`, if it has tokens or a misspelling.
fn add(alloc: Global, lines: &mut Vec<Line>, number: u32, bytes: &[u8]) -> Result<(), AllocError>
    requires { length bytes.now ≤ most_text_bytes }
    ensures { OnOk result (IsLineAdded number bytes.now (map line_view lines.old.items) (map line_view lines.new.items)) }
{
    let line = line_of(alloc, number, bytes)?;
    if has_tokens(&line) {
        match lines.push(line) {
            Ok(()) => {}
            Err(_) => return Err(AllocError),
        }
    }
    Ok(())
}

/// The end of a file, as a line of its own with the number `number`, which is one more than the last line's.
fn end(alloc: Global, number: u32) -> Line
    ensures { line_view result ≡ end_line number }
{
    Line {
        number,
        text: Vec::new(alloc),
        tokens: LineTokens {
            tokens: Vec::new(alloc),
            misspelling: Some(Misspelling {
                column: 1,
                code: Code::Unfinished,
            }),
        },
    }
}

/// The lines of a file that have tokens or a misspelling, in order, and then the file's end.
pub fn file_lines(alloc: Global, bytes: &[u8]) -> Result<Vec<Line>, AllocError>
    requires { length bytes.now ≤ most_text_bytes }
    ensures { IfOk result (λ lines. AreLinesOf bytes.now (map line_view lines.items)) }
{
    let mut lines = Vec::new(alloc);
    let mut number: u32 = 1;
    let mut rest = bytes;
    while !rest.is_empty() {
        let (line, after) = first_line(rest);
        add(alloc, &mut lines, number, line)?;
        number += 1;
        rest = after;
    }
    match lines.push(end(alloc, number)) {
        Ok(()) => Ok(lines),
        Err(_) => Err(AllocError),
    }
}
