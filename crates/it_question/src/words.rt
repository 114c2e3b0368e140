//! Readers of single words, commas and line ends.
ghost use Rattle.std.specs.Bool.{OnTrue, OnFalse};
ghost use Rattle.std.specs.Prelude.{◌≡◌, Some, None, IfSome, IfNone};
ghost use Rattle.it_forms.specs.declared.types.Symbol.TheVariants as symbols;
ghost use Rattle.it_forms.specs.Forms.{Take};
ghost use Rattle.it_forms.specs.FormReading.{read, after};
ghost use Rattle.it_forms.specs.Words as words;
ghost use Rattle.it_question.specs.Cursors.{Parses, letters_left};

use crate::cursor::Cursor;
use it_syntax::rest::{Piece, Stop};
use it_syntax::types::{Code, Symbol};

/// Begins a question, before its variables.
pub const VARS: &[u8] = b"vars";

/// Before the names of rates.
pub const RATES: &[u8] = b"rates";

/// Before a constraint.
pub const GIVEN: &[u8] = b"given";

/// Before a relation on rates too.
pub const ROW: &[u8] = b"row";

/// A line of its own, before a region.
pub const REGION: &[u8] = b"region";

/// Before the names of a region's own variables.
pub const AUXILIARIES: &[u8] = b"aux";

/// Before sets for the auxiliaries of the second region.
pub const TRY: &[u8] = b"try";

/// Before the relation to prove.
pub const PROVE: &[u8] = b"prove";

/// Before the rates to eliminate.
pub const ELIMINATE: &[u8] = b"eliminate";

/// A line of its own, after the second region.
pub const CONTAIN: &[u8] = b"contain";

/// What is after the word `text`; None if another piece stands there.
pub fn after_word<'a>(cursor: Cursor<'a>, text: &[u8]) -> Option<Cursor<'a>>
    ensures found { IfSome result (λ c. after (words.word text.now) (letters_left cursor.entry) ≡ Some ((None, tt), letters_left c)) }
    ensures none { IfNone result (after (words.word text.now) (letters_left cursor.entry) ≡ None) }
{
    match cursor.front() {
        Some((Piece::Word(word), after)) => { if word == text { Some(after) } else { None } }
        _ => None,
    }
}

/// Reads the word `text`, which must stand there. The fault is `Word` at another piece, or that piece's own.
#[tactic(auto, unfolding(it_forms::specs::FormReading::read))]
pub fn word(cursor: &mut Cursor<'_>, text: &[u8]) -> Result<(), Stop>
    ensures { Parses result (Take (words.word text.now)) cursor.old cursor.new }
{
    match cursor.front() {
        Some((Piece::Word(word), after)) => {
            if word == text {
                *cursor = after;
                Ok(())
            } else {
                Err(Stop::Fault(Code::Word))
            }
        }
        _ => Err(cursor.fault()),
    }
}

/// Reads the end of a line, which must stand there. The fault is `Word` at another piece, or that piece's own.
#[tactic(auto, unfolding(it_forms::specs::FormReading::read))]
pub fn line_end(cursor: &mut Cursor<'_>) -> Result<(), Stop>
    ensures { Parses result words.line_end cursor.old cursor.new }
{
    match cursor.front() {
        Some((Piece::End, after)) => {
            *cursor = after;
            Ok(())
        }
        _ => Err(cursor.fault()),
    }
}

/// Takes a comma, if one stands there, and says whether.
pub fn comma(cursor: &mut Cursor<'_>) -> bool
    ensures taken { OnTrue result (after (words.symbol symbols.Comma) (letters_left cursor.old) ≡ Some ((None, tt), letters_left cursor.new)) }
    ensures none { OnFalse result (after (words.symbol symbols.Comma) (letters_left cursor.old) ≡ None) }
    ensures same { OnFalse result (letters_left cursor.new ≡ letters_left cursor.old) }
{
    match cursor.front() {
        Some((Piece::Symbol(Symbol::Comma), after)) => {
            *cursor = after;
            true
        }
        _ => false,
    }
}
