//! The reader of the constraint of a `given` line.
ghost use Rattle.std.specs.Prelude.{◌≤◌, false, length, IfOk, IfErr};
ghost use Rattle.it_forms.specs.FormReading.{read};
ghost use Rattle.it_syntax.specs.GivenLines.{IsGiven, given_line};
ghost use Rattle.it_syntax.specs.Givens.{given_view, IsGivenOf};
ghost use Rattle.it_syntax.specs.Gives.{Parses, ParsesBy, GivesAll, letters_left};
ghost use Rattle.it_syntax.specs.LineForms as forms;
ghost use Rattle.it_syntax.specs.Lines.{IsFirstFault, most_text_bytes};
ghost use Rattle.it_syntax.specs.Scopes.{env_of, scope_of};
ghost use Rattle.it_syntax.specs.Spans.{InLine};

use crate::lists::list;
use crate::members::more_members;
use crate::names::Names;
use crate::relations::relation_part;
use crate::rest::{Rest, Stop};
use crate::terminals::{line_end, symbol, takes, takes_word, word};
use crate::types::{Given, LineTokens, Symbol, SyntaxFault};
use it_space::VarSet;
use std::alloc::Global;

/// The word in front of a chain.
const MARKOV: &[u8] = b"markov";

/// The word in front of an independence.
const INDEPENDENT: &[u8] = b"indep";

/// The word in front of a function.
const FUNCTION: &[u8] = b"func";

/// The word between the two sets of a function.
const OF: &[u8] = b"of";

/// The set after `|`; the empty set where none stands there.
#[tactic(auto, unfolding(crate::specs::LineForms::after_bar, it_forms::specs::FormReading::read), using(crate::proofs::Loops::front_lemmas))]
fn after_bar(rest: &mut Rest<'_>, names: &Names) -> Result<VarSet, Stop>
    ensures { Parses result (forms.after_bar (env_of names.now)) rest.old rest.new }
{
    if takes(rest, Symbol::Bar) {
        list(rest, names)
    } else {
        Ok(VarSet::empty())
    }
}

/// A chain, after its `markov`.
#[tactic(auto, unfolding(crate::specs::LineForms::chain, it_forms::specs::FormReading::read))]
fn chain(alloc: Global, rest: &mut Rest<'_>, names: &Names) -> Result<Given, Stop>
    ensures { ParsesBy given_view result (forms.chain (env_of names.now)) rest.old rest.new }
{
    let first = list(rest, names)?;
    symbol(rest, Symbol::Arrow)?;
    let second = list(rest, names)?;
    symbol(rest, Symbol::Arrow)?;
    let third = list(rest, names)?;
    let sets = Vec::from_slice(alloc, &[first, second, third])?;
    let sets = more_members(sets, Symbol::Arrow, rest, names)?;
    Ok(Given::Markov(sets))
}

/// An independence, after its `indep`.
#[tactic(auto, unfolding(crate::specs::LineForms::independence, it_forms::specs::FormReading::read))]
fn independence(alloc: Global, rest: &mut Rest<'_>, names: &Names) -> Result<Given, Stop>
    ensures { ParsesBy given_view result (forms.independence (env_of names.now)) rest.old rest.new }
{
    let first = list(rest, names)?;
    symbol(rest, Symbol::Semicolon)?;
    let second = list(rest, names)?;
    let sets = Vec::from_slice(alloc, &[first, second])?;
    let members = more_members(sets, Symbol::Semicolon, rest, names)?;
    let given = after_bar(rest, names)?;
    Ok(Given::Independent { members, given })
}

/// A function, after its `func`.
#[tactic(auto, unfolding(crate::specs::LineForms::function, it_forms::specs::FormReading::read))]
fn function(rest: &mut Rest<'_>, names: &Names) -> Result<Given, Stop>
    ensures { ParsesBy given_view result (forms.function (env_of names.now)) rest.old rest.new }
{
    let value = list(rest, names)?;
    word(rest, OF)?;
    let argument = list(rest, names)?;
    Ok(Given::Function { value, argument })
}

/// A constraint, without the line's end.
#[tactic(auto, unfolding(crate::specs::LineForms::given, it_forms::specs::FormReading::read), using(crate::proofs::TermLemmas::given_lemmas))]
pub fn given_part(alloc: Global, rest: &mut Rest<'_>, names: &Names) -> Result<Given, Stop>
    ensures { ParsesBy given_view result (forms.given (scope_of names.now false)) rest.old rest.new }
{
    if takes_word(rest, MARKOV) {
        chain(alloc, rest, names)
    } else if takes_word(rest, INDEPENDENT) {
        independence(alloc, rest, names)
    } else if takes_word(rest, FUNCTION) {
        function(rest, names)
    } else {
        let relation = relation_part(alloc, rest, names, false)?;
        Ok(Given::Relation(relation))
    }
}

/// A constraint, up to the line's end.
#[tactic(auto, unfolding(it_forms::specs::FormReading::read))]
pub fn given_to_end(alloc: Global, rest: &mut Rest<'_>, names: &Names) -> Result<Given, Stop>
    ensures { GivesAll given_view result (letters_left rest.new) (read (given_line names.now) (letters_left rest.old)) }
{
    let given = given_part(alloc, rest, names)?;
    line_end(rest)?;
    Ok(given)
}

/// The constraint that a `given` line is from its token number `from` on. `tokens` are what the call `line_tokens` gave for
/// this line.
///
/// A constraint is a relation without rates, as the call `relation` reads it; `markov A -> B -> C` with further members,
/// 3 to 16 in all; `indep A ; B` with further members, 2 to 16 in all, and then perhaps `| W`; or `func Z of X`. What
/// begins with the word `markov`, `indep` or `func` is never a relation. The fault is the first; `Many` also comes at the
/// first name of the member past the limit.
pub fn given(
    alloc: Global,
    line: &[u8],
    tokens: &LineTokens,
    from: usize,
    names: &Names,
) -> Result<Given, SyntaxFault>
    requires short { length line.now ≤ most_text_bytes }
    requires inside { InLine line.now tokens.now.tokens.items }
    requires within { from ≤ length tokens.now.tokens.items }
    ensures read { IfOk result (λ g. IsGiven names.now line.now tokens.now from (given_view g)) }
    ensures limits { IfOk result (λ g. IsGivenOf (length names.now.variables) (given_view g)) }
    ensures fault { IfErr result (IsFirstFault (given_line names.now) line.now tokens.now from) }
{
    let all = Rest {
        line,
        tokens: tokens.tokens.as_slice(),
        misspelling: tokens.misspelling,
    };
    let mut rest = Rest {
        line,
        tokens: all.tokens.split_at(from).1,
        misspelling: tokens.misspelling,
    };
    match given_to_end(alloc, &mut rest, names) {
        Ok(given) => Ok(given),
        Err(Stop::Memory) => Err(SyntaxFault::Memory),
        Err(Stop::Fault(code)) => Err(SyntaxFault::Fault {
            column: all.column(rest.tokens.len()),
            code,
        }),
    }
}
