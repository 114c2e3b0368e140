//! Readers of new names.
ghost use Rattle.std.specs.Prelude.{◌≡◌, ◌≤◌, false, length, OnOk, IfErr};
ghost use Rattle.it_forms.specs.FormReading.{read};
ghost use Rattle.it_syntax.specs.declared.rest.Stop.TheVariants.{Memory};
ghost use Rattle.it_question.specs.Cursors.{ParsesBy};
ghost use Rattle.it_question.specs.NewNames.{with_name, is_taken};
ghost use Rattle.it_question.specs.QuestionForms as forms;
ghost use Rattle.it_question.specs.Sorts.{name_sort_view, HasRoom, IsWithinLimit};

use crate::cursor::Cursor;
use crate::sorts::NameSort;
use crate::words::{after_word, comma, line_end};
use it_syntax::rest::{Piece, Stop};
use it_syntax::types::Code;
use it_syntax::{Names, is_measure};

/// Whether a variable or a rate is named `word`.
#[tactic(auto, unfolding(crate::specs::NewNames::is_taken))]
fn is_taken(names: &Names, word: &[u8]) -> bool
    ensures { result ≡ is_taken names.now word.now }
{
    names.variable(word).is_some() || names.rate(word).is_some()
}

/// The number of names of this sort.
fn count(names: &Names, sort: NameSort) -> usize
    ensures { result ≡ forms.count (name_sort_view sort) names.now }
{
    match sort {
        NameSort::Variable => names.space().variables as usize,
        NameSort::Rate => names.space().rates as usize,
    }
}

/// Declares `word` as the next name of its sort.
fn declare(names: &mut Names, sort: NameSort, word: &[u8]) -> Result<(), Stop>
    requires new { is_taken names.old word.now ≡ false }
    requires some { 1 ≤ length word.now }
    requires short { length word.now ≤ 16 }
    requires room { HasRoom sort names.old }
    ensures added { OnOk result (names.new ≡ with_name (name_sort_view sort) names.old word.now) }
    ensures memory { IfErr result (λ e. e ≡ Memory) }
{
    let added = match sort {
        NameSort::Variable => names.add_variable(word),
        NameSort::Rate => names.add_rate(word),
    };
    added?;
    Ok(())
}

/// Reads a new name and declares it; there may be `most` of its sort. The fault is `Word` at a piece that is no name, `Twice` at a
/// name that is taken, and `Many` at one where no more are allowed.
#[tactic(auto, unfolding(crate::specs::QuestionForms::new_name, it_forms::specs::FormReading::read), using(crate::proofs::NewNameLemmas::flag_lemmas))]
pub fn new_name(
    cursor: &mut Cursor<'_>,
    names: &mut Names,
    sort: NameSort,
    most: usize,
) -> Result<(), Stop>
    requires { IsWithinLimit sort most }
    ensures { ParsesBy (λ x. names.new) result (forms.new_name (name_sort_view sort) most names.old) cursor.old cursor.new }
{
    match cursor.front() {
        Some((Piece::Word(word), after)) => {
            if is_measure(word) {
                return Err(Stop::Fault(Code::Word));
            }
            if is_taken(names, word) {
                return Err(Stop::Fault(Code::Twice));
            }
            if most <= count(names, sort) {
                return Err(Stop::Fault(Code::Many));
            }
            declare(names, sort, word)?;
            *cursor = after;
            Ok(())
        }
        _ => Err(cursor.fault()),
    }
}

/// Reads further new names, each after a comma, and declares them.
fn more_names(
    cursor: &mut Cursor<'_>,
    names: &mut Names,
    sort: NameSort,
    most: usize,
) -> Result<(), Stop>
    requires { IsWithinLimit sort most }
    ensures { ParsesBy (λ x. names.new) result (forms.more_new (name_sort_view sort) most names.old) cursor.old cursor.new }
{
    while comma(cursor) {
        // `?` would do; with the match each case is a goal of its own, with the reading's equation at hand
        match new_name(cursor, names, sort, most) {
            Ok(()) => {}
            Err(stop) => return Err(stop),
        }
    }
    Ok(())
}

/// Reads one or more new names with commas between them, up to the line's end, and declares them; there may be `most` of their sort.
/// The faults are those of `new_name`, and `Word` at another piece than a comma or the line's end after a name.
#[tactic(auto, unfolding(crate::specs::QuestionForms::new_names, it_forms::specs::FormReading::read))]
pub fn names_to_end(
    cursor: &mut Cursor<'_>,
    names: &mut Names,
    sort: NameSort,
    most: usize,
) -> Result<(), Stop>
    requires { IsWithinLimit sort most }
    ensures { ParsesBy (λ x. names.new) result (forms.new_names (name_sort_view sort) most names.old) cursor.old cursor.new }
{
    new_name(cursor, names, sort, most)?;
    more_names(cursor, names, sort, most)?;
    line_end(cursor)
}

/// Reads a line of new names after `keyword` and declares them, if the keyword stands there.
#[tactic(auto, unfolding(crate::specs::QuestionForms::names_line, it_forms::specs::FormReading::read), using(it_syntax::proofs::Loops::front_lemmas))]
pub fn names_line(
    cursor: &mut Cursor<'_>,
    names: &mut Names,
    sort: NameSort,
    most: usize,
    keyword: &[u8],
) -> Result<(), Stop>
    requires { IsWithinLimit sort most }
    ensures { ParsesBy (λ x. names.new) result (forms.names_line (name_sort_view sort) most keyword.now names.old) cursor.old cursor.new }
{
    match after_word(*cursor, keyword) {
        Some(after) => {
            *cursor = after;
            names_to_end(cursor, names, sort, most)
        }
        None => Ok(()),
    }
}
