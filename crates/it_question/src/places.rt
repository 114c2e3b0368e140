//! Where the letters of a file stand.
ghost use Rattle.std.specs.Prelude.{◌≡◌, ◌≤◌, ◌^◌, length, map, slice_get, Some, flat_map};
ghost use Rattle.it_question.specs.Cursors.{line_view, letters_left};
ghost use Rattle.it_question.specs.Lines.{letters_of_lines, line_places};

use crate::cursor::{Cursor, Line};
use it_syntax::rest::Rest;

/// The number of letters of `lines`: their tokens, and one for each line's end.
pub fn count(lines: &[Line]) -> usize
    requires { length (letters_of_lines (map line_view lines.now)) ≤ 2 ^ 32 }
    ensures { result ≡ length (letters_of_lines (map line_view lines.now)) }
{
    let mut total = 0;
    for line in lines {
        total += line.tokens.tokens.len() + 1;
    }
    total
}

/// The number of letters that are left.
#[tactic(auto, unfolding(crate::specs::Cursors::letters_left))]
pub fn letters_left(cursor: &Cursor<'_>) -> usize
    requires { length (letters_left cursor.now) ≤ 2 ^ 32 }
    ensures { result ≡ length (letters_left cursor.now) }
{
    match cursor.rest {
        Some(rest) => rest.tokens.len() + 1 + count(cursor.after),
        None => 0,
    }
}

/// The line and the column of letter number `at` of a line, counted from 0.
fn place_in(line: &Line, at: usize) -> (u32, u32)
    requires { at ≤ length line.now.tokens.tokens.items }
    ensures { slice_get (line_places (line_view line.now)) at ≡ Some result }
{
    let whole = Rest {
        line: line.text.as_slice(),
        tokens: line.tokens.tokens.as_slice(),
        misspelling: line.tokens.misspelling,
    };
    (line.number, whole.column(line.tokens.tokens.len() - at))
}

/// The line and the column, both counted from 1, of letter number `at` of `lines`, counted from 0; None where there is none.
pub fn place(lines: &[Line], at: usize) -> Option<(u32, u32)>
    ensures { result ≡ slice_get (flat_map line_places (map line_view lines.now)) at }
{
    let mut rest = at;
    for line in lines {
        let tokens = line.tokens.tokens.len();
        if rest <= tokens {
            return Some(place_in(line, rest));
        }
        rest -= tokens + 1;
    }
    None
}
