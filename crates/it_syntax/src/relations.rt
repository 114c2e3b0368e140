//! The reader of a relation between two sums.
ghost use Rattle.std.specs.Prelude.{◌≤◌, length, IfOk, IfErr};
ghost use Rattle.it_forms.specs.FormReading.{read};
ghost use Rattle.it_syntax.specs.Givens.{IsRelationOf};
ghost use Rattle.it_syntax.specs.Gives.{ParsesBy, GivesAll, letters_left};
ghost use Rattle.it_syntax.specs.LineForms as forms;
ghost use Rattle.it_syntax.specs.Lines.{IsFirstFault, most_text_bytes};
ghost use Rattle.it_syntax.specs.Meaning.{relation_view};
ghost use Rattle.it_syntax.specs.RelationLines.{IsRelation, relation_line};
ghost use Rattle.it_syntax.specs.Scopes.{scope_of};
ghost use Rattle.it_syntax.specs.Spans.{InLine};

use crate::names::Names;
use crate::rest::{Rest, Stop};
use crate::signs::compare;
use crate::sums::sum;
use crate::terminals::line_end;
use crate::types::{Expr, LineTokens, Relation, SyntaxFault};
use std::alloc::Global;

/// The most terms of a relation, both sides together.
pub const MOST_TERMS: usize = 256;

/// A relation.
#[tactic(auto, unfolding(crate::specs::LineForms::relation, it_forms::specs::FormReading::read))]
pub fn relation_part(
    alloc: Global,
    rest: &mut Rest<'_>,
    names: &Names,
    rates: bool,
) -> Result<Relation, Stop>
    ensures { ParsesBy relation_view result (forms.relation (scope_of names.now rates)) rest.old rest.new }
{
    let (left, multiple) = sum(alloc, MOST_TERMS, 1, rest, names, rates)?;
    let sign = compare(rest)?;
    let more = MOST_TERMS.saturating_sub(left.len());
    let (right, _) = sum(alloc, more, multiple, rest, names, rates)?;
    Ok(Relation {
        left: Expr { terms: left },
        sign,
        right: Expr { terms: right },
    })
}

/// A relation, up to the line's end.
#[tactic(auto, unfolding(it_forms::specs::FormReading::read))]
pub fn relation_to_end(
    alloc: Global,
    rest: &mut Rest<'_>,
    names: &Names,
    rates: bool,
) -> Result<Relation, Stop>
    ensures { GivesAll relation_view result (letters_left rest.new) (read (relation_line names.now rates) (letters_left rest.old)) }
{
    let relation = relation_part(alloc, rest, names, rates)?;
    line_end(rest)?;
    Ok(relation)
}

/// The relation that a line is from its token number `from` on, with `>=`, `<=` or `=` between two sums. `tokens` are what
/// the call `line_tokens` gave for this line.
///
/// A term is a coefficient and then an entropy `H(A)` or `H(A|C)`, a mutual information `I(A;B)` or `I(A;B|C)`, or a rate,
/// or such a thing without a coefficient, or 0; A, B and C are names of variables with `,` between them. A coefficient is a
/// number, or a number, `/` and a denominator. `rates` says whether rates may stand there. At most 256 terms are read, both
/// sides together. The fault is the first: `Word` at what no rule allows there, `Name` at a name that is unknown or at a
/// rate where none may stand, `Number` at a denominator that is 0 or with which the least common multiple of the
/// denominators, as they are written, both sides together, passes 2^32, `Many` at the first token of the term past the
/// limit, after its sign, and what `tokens` has for a misspelling; the line's end has the column after its last token.
pub fn relation(
    alloc: Global,
    line: &[u8],
    tokens: &LineTokens,
    from: usize,
    names: &Names,
    rates: bool,
) -> Result<Relation, SyntaxFault>
    requires short { length line.now ≤ most_text_bytes }
    requires inside { InLine line.now tokens.now.tokens.items }
    requires within { from ≤ length tokens.now.tokens.items }
    ensures read { IfOk result (λ r. IsRelation names.now rates line.now tokens.now from (relation_view r)) }
    ensures limits { IfOk result (λ r. IsRelationOf (length names.now.variables) (length names.now.rates) (relation_view r)) }
    ensures fault { IfErr result (IsFirstFault (relation_line names.now rates) line.now tokens.now from) }
{
    let all = Rest {
        line,
        tokens: tokens.tokens.as_slice(),
        misspelling: tokens.misspelling,
    };
    let mut rest = Rest {
        line,
        tokens: all.tokens.split_at(from).1,
        misspelling: tokens.misspelling,
    };
    match relation_to_end(alloc, &mut rest, names, rates) {
        Ok(relation) => Ok(relation),
        Err(Stop::Memory) => Err(SyntaxFault::Memory),
        Err(Stop::Fault(code)) => Err(SyntaxFault::Fault {
            column: all.column(rest.tokens.len()),
            code,
        }),
    }
}
