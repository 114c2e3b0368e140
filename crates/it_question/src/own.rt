//! The reader of `given` and `row` lines.
//! A reader's result is matched where `?` would do: so each case is a goal of its own, with the reading's equation at hand.
ghost use Rattle.std.specs.Prelude.{◌≡◌, Some, None, IfSome, IfNone, OnOk, IfErr, if◌then◌else◌};
ghost use Rattle.it_forms.specs.FormReading.{read, after};
ghost use Rattle.it_syntax.specs.declared.rest.Stop.TheVariants.{Memory};
ghost use Rattle.it_syntax.specs.Givens.{given_view};
ghost use Rattle.it_syntax.specs.Meaning.{relation_view};
ghost use Rattle.it_question.specs.Cursors.{Parses, ParsesBy, letters_left};
ghost use Rattle.it_question.specs.QuestionForms as forms;
ghost use Rattle.it_question.specs.ReaderSteps.{own_word, with_given, with_row};
ghost use Rattle.it_question.specs.QuestionLimits.{givens_left, rows_left};

use crate::cursor::Cursor;
use crate::parts::{given, relation};
use crate::types::OwnLines;
use crate::words::{GIVEN, ROW};
use it_syntax::Names;
use it_syntax::rest::{Piece, Stop};
use it_syntax::types::{Code, Given, Relation};
use std::alloc::Global;

/// The most lines of each kind of a question: `given`, `row` and `try` lines.
pub const MOST_LINES: usize = 64;

impl OwnLines {
    /// The number of `given` lines that may still follow, of `most` in all.
    pub fn givens_left(&self, most: usize) -> usize
        ensures { result ≡ givens_left most self.now }
    {
        most.saturating_sub(self.givens().len())
    }

    /// The number of `row` lines that may still follow, of `most` in all.
    pub fn rows_left(&self, most: usize) -> usize
        ensures { result ≡ rows_left most self.now }
    {
        most.saturating_sub(self.rows().len())
    }
}

/// Appends the constraint of a `given` line.
fn add_given(own: &mut OwnLines, given: Given) -> Result<(), Stop>
    ensures added { OnOk result (own.new ≡ with_given own.old (given_view given)) }
    ensures memory { IfErr result (λ e. e ≡ Memory) }
{
    own.givens.push(given)?;
    Ok(())
}

/// Appends the relation of a `row` line.
fn add_row(own: &mut OwnLines, row: Relation) -> Result<(), Stop>
    ensures added { OnOk result (own.new ≡ with_row own.old (relation_view row)) }
    ensures memory { IfErr result (λ e. e ≡ Memory) }
{
    own.rows.push(row)?;
    Ok(())
}

/// Whether a `given` line (true) or a `row` line (false) begins there, and what is after its word; None where neither does.
fn own_word(cursor: Cursor<'_>) -> Option<(bool, Cursor<'_>)>
    ensures found { IfSome result (λ x. after own_word (letters_left cursor.entry) ≡ Some ((None, x.0), letters_left x.1)) }
    ensures none { IfNone result (after own_word (letters_left cursor.entry) ≡ None) }
{
    match cursor.front() {
        Some((Piece::Word(word), after)) => {
            if word == GIVEN {
                Some((true, after))
            } else if word == ROW {
                Some((false, after))
            } else {
                None
            }
        }
        _ => None,
    }
}

/// The number of lines of this kind that may still follow.
fn lines_left(own: &OwnLines, is_given: bool, most_givens: usize, most_rows: usize) -> usize
    ensures { result ≡ (if is_given then givens_left most_givens own.now else rows_left most_rows own.now) }
{
    if is_given {
        own.givens_left(most_givens)
    } else {
        own.rows_left(most_rows)
    }
}

/// Reads a `given` line or a `row` line after its word, and appends it to `own`.
#[tactic(auto, unfolding(crate::specs::QuestionForms::own_line, it_forms::specs::FormReading::read))]
fn own_line(
    alloc: Global,
    is_given: bool,
    own: &mut OwnLines,
    cursor: &mut Cursor<'_>,
    names: &Names,
) -> Result<(), Stop>
    ensures { ParsesBy (λ x. own.new) result (forms.own_line names.now own.old is_given) cursor.old cursor.new }
{
    if is_given {
        match given(alloc, cursor, names) {
            Ok(next) => add_given(own, next),
            Err(stop) => Err(stop),
        }
    } else {
        match relation(alloc, cursor, names) {
            Ok(next) => add_row(own, next),
            Err(stop) => Err(stop),
        }
    }
}

/// The own lines that stand there: at most `most_givens` `given` lines and `most_rows` `row` lines.
pub fn own_lines(
    alloc: Global,
    cursor: &mut Cursor<'_>,
    names: &Names,
    most_givens: usize,
    most_rows: usize,
) -> Result<OwnLines, Stop>
    ensures { Parses result (forms.own_lines most_givens most_rows names.now) cursor.old cursor.new }
{
    let mut own = OwnLines {
        givens: Vec::new(alloc),
        rows: Vec::new(alloc),
    };
    while let Some((is_given, after)) = own_word(*cursor) {
        if lines_left(&own, is_given, most_givens, most_rows) == 0 {
            return Err(Stop::Fault(Code::Many));
        }
        *cursor = after;
        match own_line(alloc, is_given, &mut own, cursor, names) {
            Ok(()) => {}
            Err(stop) => return Err(stop),
        }
    }
    Ok(own)
}
