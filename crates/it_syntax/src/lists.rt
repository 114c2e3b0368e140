//! Readers of names and lists of names.
ghost use Rattle.std.specs.Prelude.{◌≡◌, ◌<◌, IfSome, OnOk, IfOk, length};
ghost use Rattle.it_forms.specs.Words.{allowed};
ghost use Rattle.it_syntax.specs.Gives.{Parses, letters_left};
ghost use Rattle.it_syntax.specs.LineForms as forms;
ghost use Rattle.it_syntax.specs.MeasureWords.{is_measure};
ghost use Rattle.it_syntax.specs.ReaderSteps.{StopsAtOnce};
ghost use Rattle.it_syntax.specs.Scopes.{env_of};

use crate::names::Names;
use crate::rest::{Piece, Rest, Stop};
use crate::terminals::takes;
use crate::types::{Code, Symbol};
use it_space::VarSet;

/// The word that stands for an entropy.
pub const ENTROPY: &[u8] = b"H";

/// The word that stands for a mutual information.
pub const MUTUAL: &[u8] = b"I";

/// Whether `text` is `H` or `I`, which stand for entropy and mutual information and are no names.
pub fn is_measure(text: &[u8]) -> bool
    ensures { result ≡ is_measure text.now }
{
    text == ENTROPY || text == MUTUAL
}

/// The number of the variable `name`; None if no variable has this name.
#[tactic(auto, unfolding(crate::specs::Scopes::env_of))]
fn variable(names: &Names, name: &[u8]) -> Option<u8>
    ensures found { result ≡ env_of names.now name.now }
    ensures small { IfSome result (λ i. i < 16) }
{
    names.variable(name)
}

/// Reads the name of a variable, which must stand there, and gives the variable's number.
#[tactic(auto, unfolding(crate::specs::LineForms::variable, it_forms::specs::FormReading::read))]
fn name(rest: &mut Rest<'_>, names: &Names) -> Result<u8, Stop>
    ensures gives { Parses result (forms.variable (env_of names.now)) rest.old rest.new }
    ensures shorter { OnOk result (length (letters_left rest.new) < length (letters_left rest.old)) }
    ensures small { IfOk result (λ i. i < 16) }
{
    match rest.front() {
        (Piece::Word(word), after) => {
            if is_measure(word) {
                return Err(Stop::Fault(Code::Word));
            }
            match variable(names, word) {
                Some(i) => {
                    *rest = after;
                    Ok(i)
                }
                None => Err(Stop::Fault(Code::Name)),
            }
        }
        _ => Err(rest.fault()),
    }
}

/// Reads further names, each after a comma, and gives `first` with their variables.
fn more(first: VarSet, rest: &mut Rest<'_>, names: &Names) -> Result<VarSet, Stop>
    ensures { Parses result (forms.more_names (env_of names.now) first) rest.old rest.new }
{
    let mut set = first;
    while takes(rest, Symbol::Comma) {
        // a match, so that each case is a goal of its own, with the reading's equation at hand
        match name(rest, names) {
            Ok(i) => set = set.union(VarSet::single(i)),
            Err(stop) => return Err(stop),
        }
    }
    Ok(set)
}

/// Reads a list of names, with commas between them, and gives the set of their variables.
#[tactic(auto, unfolding(crate::specs::LineForms::names, it_forms::specs::FormReading::read))]
pub fn list(rest: &mut Rest<'_>, names: &Names) -> Result<VarSet, Stop>
    ensures { Parses result (forms.names (env_of names.now)) rest.old rest.new }
{
    let first = name(rest, names)?;
    more(VarSet::single(first), rest, names)
}

/// The fault where no more lists are allowed: `Many` at the name of a variable, else what is wrong there.
#[tactic(auto, using(crate::proofs::NameLists::surplus_many))]
fn surplus_list_fault(rest: &Rest<'_>, names: &Names) -> Stop
    ensures { StopsAtOnce result (allowed 0 (forms.names (env_of names.now))) rest.now }
{
    let mut after = *rest;
    match name(&mut after, names) {
        Ok(_) => Stop::Fault(Code::Many),
        Err(stop) => stop,
    }
}

/// Like `list`, where `left` more lists are allowed.
#[tactic(auto, using(it_forms::proofs::FlagLemmas::read_allowed))]
pub fn allowed_list(left: usize, rest: &mut Rest<'_>, names: &Names) -> Result<VarSet, Stop>
    ensures { Parses result (allowed left (forms.names (env_of names.now))) rest.old rest.new }
{
    if left == 0 {
        Err(surplus_list_fault(rest, names))
    } else {
        list(rest, names)
    }
}
