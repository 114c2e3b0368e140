//! Readers of `try` lines.
//! A reader's result is matched where `?` would do: so each case is a goal of its own, with the reading's equation at hand.
ghost use Rattle.std.specs.List.{list_all};
ghost use Rattle.std.specs.Bool.{OnTrue, OnFalse};
ghost use Rattle.std.specs.Prelude.{◌≡◌, ◌++◌, [], ◌∷◌, Some, None, OnOk, IfErr, unwrap_or, map, is_some};
ghost use Rattle.it_forms.specs.declared.types.Symbol.TheVariants as symbols;
ghost use Rattle.it_forms.specs.Forms.{Take};
ghost use Rattle.it_forms.specs.FormReading.{read, after};
ghost use Rattle.it_forms.specs.Words.{symbol};
ghost use Rattle.it_syntax.specs.declared.rest.Stop.TheVariants.{Memory};
ghost use Rattle.it_syntax.specs.Scopes.{env_of};
ghost use Rattle.it_question.specs.Cursors.{Parses, ParsesBy, letters_left};
ghost use Rattle.it_question.specs.QuestionForms as forms;
ghost use Rattle.it_question.specs.ReaderSteps.{auxiliaries_of, variables_of, tries_of};
ghost use Rattle.it_question.specs.TrySets.{is_named, with_set, unnamed_sets};

use crate::cursor::Cursor;
use crate::own::MOST_LINES;
use crate::parts::names_set;
use crate::words::{TRY, after_word, line_end};
use it_space::VarSet;
use it_syntax::rest::{Piece, Stop};
use it_syntax::types::{Code, Symbol};
use it_syntax::{Names, is_measure};
use std::alloc::Global;

/// The set of each auxiliary of the second region, by number; None where it isn't named yet. The places after the
/// auxiliaries have the empty set.
pub type Sets = [Option<VarSet>; 4];

/// The regions that substitutions go between: the names of the question, and those of each region.
#[derive(Clone, Copy)]
pub struct Regions<'a> {
    pub question: &'a Names,
    pub first: &'a Names,
    pub second: &'a Names,
}

/// The number of the auxiliary of the second region that is named `name`; None if there is none.
#[tactic(auto, unfolding(crate::specs::TrySets::auxiliary_env))]
fn auxiliary_of(regions: Regions<'_>, name: &[u8]) -> Option<u8>
    ensures { result ≡ auxiliaries_of regions.entry name.now }
{
    let own = regions.question.space().variables;
    match regions.second.variable(name) {
        Some(i) => if i < own { None } else { Some(i - own) },
        None => None,
    }
}

/// Whether auxiliary `i` has a set; a place that isn't there counts as named.
#[tactic(auto, using(crate::proofs::SetLemmas::set_lemmas))]
fn is_named(sets: &Sets, i: u8) -> bool
    ensures { result ≡ is_named sets.now i }
{
    if (i as usize) < sets.len() {
        sets[i as usize].is_some()
    } else {
        true
    }
}

/// Whether each auxiliary has a set.
#[tactic(auto, using(crate::proofs::SetLemmas::set_lemmas))]
fn is_whole(sets: &Sets) -> bool
    ensures { result ≡ list_all is_some sets.now }
{
    for set in sets.iter() {
        if set.is_none() {
            return false;
        }
    }
    true
}

/// Gives auxiliary `i` its set.
#[tactic(auto, using(crate::proofs::SetLemmas::set_lemmas))]
fn put(sets: &mut Sets, i: u8, set: VarSet)
    ensures { sets.new ≡ with_set sets.old i set }
{
    if (i as usize) < sets.len() {
        sets[i as usize] = Some(set);
    }
}

/// Reads the name of an auxiliary that has no set yet, and gives its number.
#[tactic(auto, unfolding(crate::specs::QuestionForms::auxiliary, it_forms::specs::FormReading::read))]
fn auxiliary(cursor: &mut Cursor<'_>, regions: Regions<'_>, sets: &Sets) -> Result<u8, Stop>
    ensures { Parses result (forms.auxiliary (auxiliaries_of regions.entry) sets.now) cursor.old cursor.new }
{
    match cursor.front() {
        Some((Piece::Word(word), after)) => {
            if is_measure(word) {
                return Err(Stop::Fault(Code::Word));
            }
            match auxiliary_of(regions, word) {
                Some(i) => {
                    if is_named(sets, i) {
                        return Err(Stop::Fault(Code::Twice));
                    }
                    *cursor = after;
                    Ok(i)
                }
                None => Err(Stop::Fault(Code::Name)),
            }
        }
        _ => Err(cursor.fault()),
    }
}

/// Reads a `:=`, which must stand there.
#[tactic(auto, unfolding(it_forms::specs::FormReading::read))]
fn assign(cursor: &mut Cursor<'_>) -> Result<(), Stop>
    ensures { Parses result (Take (symbol symbols.Assign)) cursor.old cursor.new }
{
    match cursor.front() {
        Some((Piece::Symbol(Symbol::Assign), after)) => {
            *cursor = after;
            Ok(())
        }
        _ => Err(cursor.fault()),
    }
}

/// `0`, which is the empty set, or a list of names.
#[tactic(auto, unfolding(crate::specs::QuestionForms::set, it_forms::specs::FormReading::read), using(it_forms::proofs::SymbolLemmas::not_zero))]
fn set(cursor: &mut Cursor<'_>, names: &Names) -> Result<VarSet, Stop>
    ensures { Parses result (forms.set (env_of names.now)) cursor.old cursor.new }
{
    match cursor.front() {
        Some((Piece::Number(number), after)) => {
            if number == 0 {
                *cursor = after;
                Ok(VarSet::empty())
            } else {
                names_set(cursor, names)
            }
        }
        _ => names_set(cursor, names),
    }
}

/// Reads `name := set` and gives the auxiliary of this name its set.
#[tactic(auto, unfolding(crate::specs::QuestionForms::part, it_forms::specs::FormReading::read))]
fn part(cursor: &mut Cursor<'_>, regions: Regions<'_>, sets: &mut Sets) -> Result<(), Stop>
    ensures { ParsesBy (λ x. sets.new) result (forms.part (auxiliaries_of regions.entry) (variables_of regions.entry) sets.old) cursor.old cursor.new }
{
    let i = auxiliary(cursor, regions, sets)?;
    assign(cursor)?;
    let set = set(cursor, regions.first)?;
    put(sets, i, set);
    Ok(())
}

/// Takes a `;`, if one stands there, and says whether.
fn semicolon(cursor: &mut Cursor<'_>) -> bool
    ensures taken { OnTrue result (after (symbol symbols.Semicolon) (letters_left cursor.old) ≡ Some ((None, tt), letters_left cursor.new)) }
    ensures none { OnFalse result (after (symbol symbols.Semicolon) (letters_left cursor.old) ≡ None) }
    ensures same { OnFalse result (letters_left cursor.new ≡ letters_left cursor.old) }
{
    match cursor.front() {
        Some((Piece::Symbol(Symbol::Semicolon), after)) => {
            *cursor = after;
            true
        }
        _ => false,
    }
}

/// Reads further parts, each after a `;`.
fn parts(cursor: &mut Cursor<'_>, regions: Regions<'_>, sets: &mut Sets) -> Result<(), Stop>
    ensures { ParsesBy (λ x. sets.new) result (forms.more_parts (auxiliaries_of regions.entry) (variables_of regions.entry) sets.old) cursor.old cursor.new }
{
    while semicolon(cursor) {
        match part(cursor, regions, sets) {
            Ok(()) => {}
            Err(stop) => return Err(stop),
        }
    }
    Ok(())
}

/// Reads the line's end, where each auxiliary must have its set.
#[tactic(auto, unfolding(it_forms::specs::FormReading::read))]
fn try_end(cursor: &mut Cursor<'_>, sets: &Sets) -> Result<(), Stop>
    ensures { Parses result (Take (forms.try_end sets.now)) cursor.old cursor.new }
{
    if is_whole(sets) {
        return line_end(cursor);
    }
    Err(cursor.fault())
}

/// The set, or the empty set for None.
fn set_or_empty(set: &Option<VarSet>) -> VarSet
    ensures { result ≡ unwrap_or set.now 0 }
{
    match set {
        Some(set) => *set,
        None => VarSet::empty(),
    }
}

/// The sets of the auxiliaries in order.
fn sets_of(sets: &Sets) -> [VarSet; 4]
    ensures { result ≡ map (λ s. unwrap_or s 0) sets.now }
{
    [
        set_or_empty(&sets[0]),
        set_or_empty(&sets[1]),
        set_or_empty(&sets[2]),
        set_or_empty(&sets[3]),
    ]
}

/// The empty set, in the place of an auxiliary that isn't there.
fn filled_place() -> Option<VarSet>
    ensures { result ≡ Some 0 }
{
    Some(VarSet::empty())
}

/// No set yet for each of the `auxiliaries` first places, and the empty set in the others.
#[tactic(auto, using(crate::proofs::SetLemmas::all_unnamed))]
fn unnamed_sets(auxiliaries: u8) -> Sets
    ensures { result ≡ unnamed_sets auxiliaries }
{
    match auxiliaries {
        0 => [
            filled_place(),
            filled_place(),
            filled_place(),
            filled_place(),
        ],
        1 => [None, filled_place(), filled_place(), filled_place()],
        2 => [None, None, filled_place(), filled_place()],
        3 => [None, None, None, filled_place()],
        _ => [None, None, None, None],
    }
}

/// A substitution, up to the line's end.
#[tactic(auto, unfolding(crate::specs::QuestionForms::try_line, it_forms::specs::FormReading::read))]
fn substitution(
    cursor: &mut Cursor<'_>,
    regions: Regions<'_>,
    auxiliaries: u8,
) -> Result<[VarSet; 4], Stop>
    ensures { Parses result (forms.try_line (auxiliaries_of regions.entry) (variables_of regions.entry) (unnamed_sets auxiliaries)) cursor.old cursor.new }
{
    let mut sets = unnamed_sets(auxiliaries);
    part(cursor, regions, &mut sets)?;
    parts(cursor, regions, &mut sets)?;
    try_end(cursor, &sets)?;
    Ok(sets_of(&sets))
}

/// Appends the sets of a `try` line to `tries`.
fn add(tries: &mut Vec<[VarSet; 4]>, sets: [VarSet; 4]) -> Result<(), Stop>
    ensures added { OnOk result (tries.new.items ≡ tries.old.items ++ sets ∷ []) }
    ensures memory { IfErr result (λ e. e ≡ Memory) }
{
    tries.push(sets)?;
    Ok(())
}

/// The `try` lines that stand there, at most `MOST_LINES`. `auxiliaries` is the number of the second region's auxiliaries.
pub fn tries(
    alloc: Global,
    cursor: &mut Cursor<'_>,
    regions: Regions<'_>,
    auxiliaries: u8,
) -> Result<Vec<[VarSet; 4]>, Stop>
    ensures { ParsesBy (λ x. x.items) result (tries_of regions.entry auxiliaries) cursor.old cursor.new }
{
    let mut found = Vec::new(alloc);
    while let Some(after) = after_word(*cursor, TRY) {
        if auxiliaries == 0 {
            return Err(Stop::Fault(Code::Word));
        }
        if MOST_LINES <= found.len() {
            return Err(Stop::Fault(Code::Many));
        }
        *cursor = after;
        match substitution(cursor, regions, auxiliaries) {
            Ok(next) => add(&mut found, next)?,
            Err(stop) => return Err(stop),
        }
    }
    Ok(found)
}
