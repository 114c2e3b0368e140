//! Readers of the rates of an `eliminate` line.
ghost use Rattle.std.specs.Prelude.{◌≡◌, ◌++◌, [], ◌∷◌, OnOk, IfErr};
ghost use Rattle.it_forms.specs.FormReading.{read};
ghost use Rattle.it_forms.specs.Words.{to_end};
ghost use Rattle.it_syntax.specs.declared.rest.Stop.TheVariants.{Memory};
ghost use Rattle.it_syntax.specs.NamesViews.{index_of};
ghost use Rattle.it_question.specs.Cursors.{Parses, ParsesBy};
ghost use Rattle.it_question.specs.QuestionForms as forms;

use crate::cursor::Cursor;
use crate::words::{comma, line_end};
use it_syntax::rest::{Piece, Stop};
use it_syntax::types::Code;
use it_syntax::{Names, is_measure};
use std::alloc::Global;

/// The number of the rate `name`; None if no rate has this name.
fn rate(names: &Names, name: &[u8]) -> Option<u8>
    ensures { result ≡ index_of names.now.rates name.now }
{
    names.rate(name)
}

/// Reads a rate that isn't in `seen`.
#[tactic(auto, unfolding(crate::specs::QuestionForms::once, it_forms::specs::FormReading::read))]
fn new_rate(cursor: &mut Cursor<'_>, names: &Names, seen: &[u8]) -> Result<u8, Stop>
    ensures { Parses result (forms.once (index_of names.now.rates) seen.now) cursor.old cursor.new }
{
    match cursor.front() {
        Some((Piece::Word(word), after)) => {
            if is_measure(word) {
                return Err(Stop::Fault(Code::Word));
            }
            match rate(names, word) {
                Some(i) => {
                    if seen.contains(&i) {
                        return Err(Stop::Fault(Code::Twice));
                    }
                    *cursor = after;
                    Ok(i)
                }
                None => Err(Stop::Fault(Code::Name)),
            }
        }
        _ => Err(cursor.fault()),
    }
}

/// Appends `rate` to `rates`.
fn add(rates: &mut Vec<u8>, rate: u8) -> Result<(), Stop>
    ensures added { OnOk result (rates.new.items ≡ rates.old.items ++ rate ∷ []) }
    ensures memory { IfErr result (λ e. e ≡ Memory) }
{
    rates.push(rate)?;
    Ok(())
}

/// `first` and further rates, each after a comma, none twice.
fn more_rates(first: Vec<u8>, cursor: &mut Cursor<'_>, names: &Names) -> Result<Vec<u8>, Stop>
    ensures { ParsesBy (λ x. x.items) result (forms.more_once (index_of names.now.rates) first.items) cursor.old cursor.new }
{
    let mut found = first;
    while comma(cursor) {
        // `?` would do; with the match each case is a goal of its own, with the reading's equation at hand
        match new_rate(cursor, names, found.as_slice()) {
            Ok(next) => add(&mut found, next)?,
            Err(stop) => return Err(stop),
        }
    }
    Ok(found)
}

/// One or more rates, none twice.
#[tactic(auto, unfolding(crate::specs::QuestionForms::distinct, it_forms::specs::FormReading::read))]
fn distinct_rates(alloc: Global, cursor: &mut Cursor<'_>, names: &Names) -> Result<Vec<u8>, Stop>
    ensures { ParsesBy (λ x. x.items) result (forms.distinct (index_of names.now.rates)) cursor.old cursor.new }
{
    let first = new_rate(cursor, names, &[])?;
    let found = Vec::from_slice(alloc, &[first])?;
    more_rates(found, cursor, names)
}

/// One or more rates, none twice, up to the line's end.
#[tactic(auto, unfolding(it_forms::specs::FormReading::read))]
pub fn rates(alloc: Global, cursor: &mut Cursor<'_>, names: &Names) -> Result<Vec<u8>, Stop>
    ensures { ParsesBy (λ x. x.items) result (to_end (forms.distinct (index_of names.now.rates))) cursor.old cursor.new }
{
    let rates = distinct_rates(alloc, cursor, names)?;
    line_end(cursor)?;
    Ok(rates)
}
