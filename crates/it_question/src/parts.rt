//! Readers of what a line has after its first word.
ghost use Rattle.std.specs.Prelude.{true};
ghost use Rattle.it_syntax.specs.GivenLines.{given_line};
ghost use Rattle.it_syntax.specs.Givens.{given_view};
ghost use Rattle.it_syntax.specs.LineForms as forms;
ghost use Rattle.it_syntax.specs.Meaning.{relation_view};
ghost use Rattle.it_syntax.specs.RelationLines.{relation_line};
ghost use Rattle.it_syntax.specs.Scopes.{env_of};
ghost use Rattle.it_question.specs.Cursors.{Parses, ParsesBy};

use crate::cursor::Cursor;
use it_space::VarSet;
use it_syntax::Names;
use it_syntax::parts::{given_to_end, list, relation_to_end};
use it_syntax::rest::Stop;
use it_syntax::types::{Code, Given, Relation};
use std::alloc::Global;

/// Reads a relation of variables and rates, with the line's end. The fault is the first: one that `relation` of `it_syntax` lists, or
/// `Word` at what stands after the relation.
pub fn relation(alloc: Global, cursor: &mut Cursor<'_>, names: &Names) -> Result<Relation, Stop>
    ensures { ParsesBy relation_view result (relation_line names.now true) cursor.old cursor.new }
{
    match cursor.rest {
        Some(mut rest) => match relation_to_end(alloc, &mut rest, names, true) {
            Ok(relation) => {
                *cursor = Cursor::at(cursor.after);
                Ok(relation)
            }
            Err(stop) => {
                cursor.rest = Some(rest);
                Err(stop)
            }
        },
        None => Err(Stop::Fault(Code::Word)),
    }
}

/// A constraint, with the line's end.
pub fn given(alloc: Global, cursor: &mut Cursor<'_>, names: &Names) -> Result<Given, Stop>
    ensures { ParsesBy given_view result (given_line names.now) cursor.old cursor.new }
{
    match cursor.rest {
        Some(mut rest) => match given_to_end(alloc, &mut rest, names) {
            Ok(given) => {
                *cursor = Cursor::at(cursor.after);
                Ok(given)
            }
            Err(stop) => {
                cursor.rest = Some(rest);
                Err(stop)
            }
        },
        None => Err(Stop::Fault(Code::Word)),
    }
}

/// Reads a list of names of variables, with commas between them, and gives their set; what stands after it is left. The fault is
/// `Word` at a piece that is no name, and `Name` at a name of which no variable is declared.
pub fn names_set(cursor: &mut Cursor<'_>, names: &Names) -> Result<VarSet, Stop>
    ensures { Parses result (forms.names (env_of names.now)) cursor.old cursor.new }
{
    match cursor.rest {
        Some(mut rest) => match list(&mut rest, names) {
            Ok(set) => {
                cursor.rest = Some(rest);
                Ok(set)
            }
            Err(stop) => {
                cursor.rest = Some(rest);
                Err(stop)
            }
        },
        None => Err(Stop::Fault(Code::Word)),
    }
}
