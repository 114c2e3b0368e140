//! Readers of what is asked.
ghost use Rattle.std.specs.Prelude.{true, false};
ghost use Rattle.it_forms.specs.FormReading.{read};
ghost use Rattle.it_forms.specs.Words.{to_end};
ghost use Rattle.it_syntax.specs.Gives.{GivesAll};
ghost use Rattle.it_syntax.specs.Gives as line;
ghost use Rattle.it_syntax.specs.Meaning.{relation_view};
ghost use Rattle.it_syntax.specs.Scopes.{scope_of};
ghost use Rattle.it_question.specs.Cursors.{ParsesBy};
ghost use Rattle.it_sharing.specs.SharingForms as forms;

use it_question::readers::{Cursor, relation};
use it_syntax::Names;
use it_syntax::parts::{MOST_TERMS, line_end, sum, symbol};
use it_syntax::rest::{Piece, Rest, Stop};
use it_syntax::types::{Code, Expr, Relation, Sign, Symbol};
use std::alloc::Global;

/// Before the relation to prove.
const PROVE: &[u8] = b"prove";

/// Before the two sides of which the least factor is asked for.
const BEST: &[u8] = b"best";

/// Reads two sums with `>=` between them.
#[tactic(auto, unfolding(crate::specs::SharingForms::bound, it_forms::specs::FormReading::read))]
fn bound_part(alloc: Global, rest: &mut Rest<'_>, names: &Names) -> Result<Relation, Stop>
    ensures { line.ParsesBy relation_view result (forms.bound (scope_of names.now true)) rest.old rest.new }
{
    let (left, multiple) = sum(alloc, MOST_TERMS, 1, rest, names, true)?;
    symbol(rest, Symbol::AtLeast)?;
    let more = MOST_TERMS.saturating_sub(left.len());
    let (right, _) = sum(alloc, more, multiple, rest, names, true)?;
    Ok(Relation {
        left: Expr { terms: left },
        sign: Sign::AtLeast,
        right: Expr { terms: right },
    })
}

/// Like `bound_part`, up to the line's end.
#[tactic(auto, unfolding(it_forms::specs::FormReading::read))]
fn bound_to_end(alloc: Global, rest: &mut Rest<'_>, names: &Names) -> Result<Relation, Stop>
    ensures { GivesAll relation_view result (line.letters_left rest.new) (read (to_end (forms.bound (scope_of names.now true))) (line.letters_left rest.old)) }
{
    let bound = bound_part(alloc, rest, names)?;
    line_end(rest)?;
    Ok(bound)
}

/// Reads two sums with `>=` between them, up to the line's end, from a file's cursor.
fn bound(alloc: Global, cursor: &mut Cursor<'_>, names: &Names) -> Result<Relation, Stop>
    ensures { ParsesBy relation_view result (to_end (forms.bound (scope_of names.now true))) cursor.old cursor.new }
{
    match cursor.rest {
        Some(mut rest) => match bound_to_end(alloc, &mut rest, names) {
            Ok(bound) => {
                *cursor = Cursor::at(cursor.after);
                Ok(bound)
            }
            Err(stop) => {
                cursor.rest = Some(rest);
                Err(stop)
            }
        },
        None => Err(Stop::Fault(Code::Word)),
    }
}

/// What is asked: whether the least factor is asked for (`best`) or a proof (`prove`), and of which relation.
#[tactic(auto, unfolding(crate::specs::SharingForms::aim, it_forms::specs::FormReading::read))]
pub fn aim(alloc: Global, cursor: &mut Cursor<'_>, names: &Names) -> Result<(bool, Relation), Stop>
    ensures { ParsesBy (λ x. (x.0, relation_view x.1)) result (forms.aim names.now) cursor.old cursor.new }
{
    match cursor.front() {
        Some((Piece::Word(word), after)) => {
            if word == PROVE {
                *cursor = after;
                let relation = relation(alloc, cursor, names)?;
                Ok((false, relation))
            } else if word == BEST {
                *cursor = after;
                let relation = bound(alloc, cursor, names)?;
                Ok((true, relation))
            } else {
                Err(Stop::Fault(Code::Word))
            }
        }
        _ => Err(cursor.fault()),
    }
}
