//! Readers of sums of terms.
//! A reader's result is matched where `?` would do: so each case is a goal of its own, with the reading's equation at hand.
ghost use Rattle.std.specs.Prelude.{◌≡◌, ◌≤◌, ◌++◌, [], ◌∷◌, OnOk, IfOk, IfErr};
ghost use Rattle.it_forms.specs.FormReading.{read};
ghost use Rattle.it_syntax.specs.declared.rest.Stop.TheVariants.{Memory};
ghost use Rattle.it_syntax.specs.Gives.{ParsesBy};
ghost use Rattle.it_syntax.specs.LineForms as forms;
ghost use Rattle.it_syntax.specs.Meaning.{multiple_from};
ghost use Rattle.it_syntax.specs.ReaderSteps.{EachBefore, after_first, known_scope};
ghost use Rattle.it_syntax.specs.Scopes.{scope_of};

use crate::atoms::{TermNames, allowed_term};
use crate::names::Names;
use crate::rest::{Rest, Stop};
use crate::signs::sign;
use crate::terminals::takes;
use crate::types::{Symbol, Term};
use std::alloc::Global;

/// Appends `term` to `terms`.
fn add(terms: &mut Vec<Term>, term: Term) -> Result<(), Stop>
    ensures added { OnOk result (terms.new.items ≡ terms.old.items ++ term ∷ []) }
    ensures memory { IfErr result (λ e. e ≡ Memory) }
{
    // Built anew from its parts, since the push of a `Term` as it came gets no generated proof.
    let Term {
        negative,
        number,
        denominator,
        atom,
    } = term;
    terms.push(Term {
        negative,
        number,
        denominator,
        atom,
    })?;
    Ok(())
}

/// `first` and further terms, each after a sign, at most `most` in all; with the least common multiple of `multiple` and the
/// denominators of the further ones. `multiple` takes in the denominator of `first` already.
fn more_terms(
    alloc: Global,
    first: Term,
    most: usize,
    multiple: u64,
    rest: &mut Rest<'_>,
    known: &TermNames<'_>,
) -> Result<(Vec<Term>, u64), Stop>
    requires some { 1 ≤ multiple }
    ensures read { EachBefore multiple first (λ m. ParsesBy (λ x. x.0.items) result (after_first most m (known_scope known.now) first) rest.old rest.new) }
    ensures multiple { IfOk result (λ x. (1 ≤ x.1) × EachBefore multiple first (λ m. x.1 ≡ multiple_from m x.0.items)) }
{
    let mut found = Vec::new(alloc);
    add(&mut found, first)?;
    let mut so_far = multiple;
    while let Some(negative) = sign(rest) {
        let left = most.saturating_sub(found.len());
        match allowed_term(left, negative, so_far, rest, known) {
            Ok((next, both)) => {
                add(&mut found, next)?;
                so_far = both;
            }
            Err(stop) => return Err(stop),
        }
    }
    Ok((found, so_far))
}

/// One to `most` terms, the first negative if `negative`; with the least common multiple of `multiple` and their denominators.
#[tactic(auto, unfolding(crate::specs::LineForms::terms, it_forms::specs::FormReading::read))]
fn terms(
    alloc: Global,
    most: usize,
    multiple: u64,
    negative: bool,
    rest: &mut Rest<'_>,
    known: &TermNames<'_>,
) -> Result<(Vec<Term>, u64), Stop>
    requires some { 1 ≤ multiple }
    ensures read { ParsesBy (λ x. x.0.items) result (forms.terms most multiple (known_scope known.now) negative) rest.old rest.new }
    ensures multiple { IfOk result (λ x. (1 ≤ x.1) × (x.1 ≡ multiple_from multiple x.0.items)) }
{
    match allowed_term(most, negative, multiple, rest, known) {
        Ok((first, both)) => more_terms(alloc, first, most, both, rest, known),
        Err(stop) => Err(stop),
    }
}

/// Reads a sum of one to `most` terms and gives them, with the least common multiple of `multiple` and their denominators. `rates`
/// says whether rates may stand there. The fault is the first one; `relation` says which faults there are.
#[tactic(auto, unfolding(crate::specs::LineForms::sum, it_forms::specs::FormReading::read), using(crate::proofs::Loops::front_lemmas))]
pub fn sum(
    alloc: Global,
    most: usize,
    multiple: u64,
    rest: &mut Rest<'_>,
    names: &Names,
    rates: bool,
) -> Result<(Vec<Term>, u64), Stop>
    requires some { 1 ≤ multiple }
    ensures read { ParsesBy (λ x. x.0.items) result (forms.sum most multiple (scope_of names.now rates)) rest.old rest.new }
    ensures multiple { IfOk result (λ x. (1 ≤ x.1) × (x.1 ≡ multiple_from multiple x.0.items)) }
{
    let known = TermNames { names, rates };
    if takes(rest, Symbol::Plus) {
        terms(alloc, most, multiple, false, rest, &known)
    } else {
        let negative = takes(rest, Symbol::Minus);
        terms(alloc, most, multiple, negative, rest, &known)
    }
}
