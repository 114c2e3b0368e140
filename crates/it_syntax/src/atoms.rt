//! Readers of entropies, mutual informations and rates, and of terms, which are multiples of these.
ghost use Rattle.std.specs.Prelude.{◌≡◌, ◌≤◌, ℕ, Bool, IfOk};
ghost use Rattle.it_forms.specs.Forms.{Take};
ghost use Rattle.it_forms.specs.Words.{allowed};
ghost use Rattle.it_number.specs.Gcd.{lcm};
ghost use Rattle.it_syntax.specs.Gives.{Parses, ParsesBy};
ghost use Rattle.it_syntax.specs.LineForms as forms;
ghost use Rattle.it_syntax.specs.ReaderSteps.{StopsAtOnce, after_number, known_scope, over, counted_by};

use crate::denominators::denominator;
use crate::lists::{ENTROPY, MUTUAL, is_measure};
use crate::measures::{entropy, mutual_information};
use crate::names::Names;
use crate::rest::{Piece, Rest, Stop};
use crate::terminals::{takes, takes_word};
use crate::types::{Atom, Code, Symbol, Term};

/// The names that a term may have: those of the variables, and where `rates` says so those of the rates.
#[derive(Clone, Copy)]
pub struct TermNames<'a> {
    pub names: &'a Names,
    pub rates: bool,
}

/// The number of the rate `name`; None if no rate has this name, or if none may stand there.
#[tactic(auto, unfolding(crate::specs::Scopes::scope_of))]
fn rate_number(known: &TermNames<'_>, name: &[u8]) -> Option<u8>
    ensures { result ≡ (known_scope known.now).rates name.now }
{
    if known.rates {
        known.names.rate(name)
    } else {
        None
    }
}

/// A rate.
#[tactic(auto, unfolding(it_forms::specs::FormReading::read))]
fn rate(rest: &mut Rest<'_>, known: &TermNames<'_>) -> Result<Atom, Stop>
    ensures { Parses result (Take (forms.rate (known_scope known.now).rates)) rest.old rest.new }
{
    match rest.front() {
        (Piece::Word(word), after) => {
            if is_measure(word) {
                return Err(Stop::Fault(Code::Word));
            }
            match rate_number(known, word) {
                Some(i) => {
                    *rest = after;
                    Ok(Atom::Rate(i))
                }
                None => Err(Stop::Fault(Code::Name)),
            }
        }
        _ => Err(rest.fault()),
    }
}

/// An entropy, a mutual information or a rate.
#[tactic(auto, unfolding(crate::specs::LineForms::atom, it_forms::specs::FormReading::read), using(crate::proofs::TermLemmas::atom_lemmas))]
fn atom(rest: &mut Rest<'_>, known: &TermNames<'_>) -> Result<Atom, Stop>
    ensures { Parses result (forms.atom (known_scope known.now)) rest.old rest.new }
{
    if takes_word(rest, ENTROPY) {
        entropy(rest, known.names)
    } else if takes_word(rest, MUTUAL) {
        mutual_information(rest, known.names)
    } else {
        rate(rest, known)
    }
}

/// An entropy, a mutual information, a rate or, where no word stands, nothing.
#[tactic(auto, unfolding(crate::specs::LineForms::atom_or_nothing, crate::specs::LineForms::atom, it_forms::specs::FormReading::read))]
fn atom_or_nothing(rest: &mut Rest<'_>, known: &TermNames<'_>) -> Result<Atom, Stop>
    ensures { Parses result (forms.atom_or_nothing (known_scope known.now)) rest.old rest.new }
{
    match rest.front() {
        (Piece::Word(_), _) => atom(rest, known),
        _ => Ok(Atom::Nothing),
    }
}

/// The atom that `number` multiplies; after 0 it may be missing.
#[tactic(auto, using(crate::proofs::TermLemmas::counted_some))]
fn counted(number: u64, rest: &mut Rest<'_>, known: &TermNames<'_>) -> Result<Atom, Stop>
    ensures { Parses result (counted_by number (known_scope known.now)) rest.old rest.new }
{
    if number == 0 {
        atom_or_nothing(rest, known)
    } else {
        atom(rest, known)
    }
}

/// A term from its denominator on, with the least common multiple of `multiple` and the denominator.
#[tactic(auto, unfolding(it_forms::specs::FormReading::read))]
fn term_over(
    negative: bool,
    number: u64,
    multiple: u64,
    rest: &mut Rest<'_>,
    known: &TermNames<'_>,
) -> Result<(Term, u64), Stop>
    requires some { 1 ≤ multiple }
    ensures read { ParsesBy (λ x. x.0) result (over multiple (known_scope known.now) negative number) rest.old rest.new }
    ensures multiple { IfOk result (λ x. (1 ≤ x.1) × (x.1 ≡ lcm multiple x.0.denominator)) }
{
    let (denominator, multiple) = denominator(multiple, rest)?;
    let atom = atom(rest, known)?;
    Ok((
        Term {
            negative,
            number,
            denominator,
            atom,
        },
        multiple,
    ))
}

/// A term after its number, with the least common multiple of `multiple` and the term's denominator.
#[tactic(auto, unfolding(it_forms::specs::FormReading::read), using(crate::proofs::MultipleLemmas::lcm_one, crate::proofs::Loops::front_lemmas))]
fn after_number(
    negative: bool,
    number: u64,
    multiple: u64,
    rest: &mut Rest<'_>,
    known: &TermNames<'_>,
) -> Result<(Term, u64), Stop>
    requires some { 1 ≤ multiple }
    ensures read { ParsesBy (λ x. x.0) result (after_number multiple (known_scope known.now) negative number) rest.old rest.new }
    ensures multiple { IfOk result (λ x. (1 ≤ x.1) × (x.1 ≡ lcm multiple x.0.denominator)) }
{
    if takes(rest, Symbol::Slash) {
        term_over(negative, number, multiple, rest, known)
    } else {
        let atom = counted(number, rest, known)?;
        Ok((whole_term(negative, number, atom), multiple))
    }
}

/// A term without a denominator.
fn whole_term(negative: bool, number: u64, atom: Atom) -> Term
    ensures { result ≡ record { negative = negative; number = number; denominator = 1; atom = atom } }
{
    Term {
        negative,
        number,
        denominator: 1,
        atom,
    }
}

/// A term after its sign, with the least common multiple of `multiple` and the term's denominator.
#[tactic(auto, unfolding(crate::specs::LineForms::term, it_forms::specs::FormReading::read), using(crate::proofs::MultipleLemmas::lcm_one))]
fn term(
    negative: bool,
    multiple: u64,
    rest: &mut Rest<'_>,
    known: &TermNames<'_>,
) -> Result<(Term, u64), Stop>
    requires some { 1 ≤ multiple }
    ensures read { ParsesBy (λ x. x.0) result (forms.term multiple (known_scope known.now) negative) rest.old rest.new }
    ensures multiple { IfOk result (λ x. (1 ≤ x.1) × (x.1 ≡ lcm multiple x.0.denominator)) }
{
    match rest.front() {
        (Piece::Number(number), after) => {
            *rest = after;
            after_number(negative, number, multiple, rest, known)
        }
        _ => {
            let atom = atom(rest, known)?;
            Ok((whole_term(negative, 1, atom), multiple))
        }
    }
}

/// The fault where no more terms are allowed: `Many` at the first token of a term, else what is wrong there.
#[tactic(auto, unfolding(it_forms::specs::Words::flagged, crate::specs::LineForms::term, crate::specs::LineForms::atom, it_forms::specs::FormReading::read))]
fn surplus_term_fault(rest: &Rest<'_>, known: &TermNames<'_>) -> Stop
    ensures { (m : ℕ) (minus : Bool) → StopsAtOnce result (allowed 0 (forms.term m (known_scope known.now) minus)) rest.now }
{
    match rest.front() {
        (Piece::Number(_), _) => Stop::Fault(Code::Many),
        (Piece::Word(word), _) => {
            if is_measure(word) {
                return Stop::Fault(Code::Many);
            }
            match rate_number(known, word) {
                Some(_) => Stop::Fault(Code::Many),
                None => Stop::Fault(Code::Name),
            }
        }
        _ => rest.fault(),
    }
}

/// A term, where `left` more terms are allowed, with the least common multiple of `multiple` and the term's denominator.
#[tactic(auto, using(it_forms::proofs::FlagLemmas::read_allowed))]
pub fn allowed_term(
    left: usize,
    negative: bool,
    multiple: u64,
    rest: &mut Rest<'_>,
    known: &TermNames<'_>,
) -> Result<(Term, u64), Stop>
    requires some { 1 ≤ multiple }
    ensures read { ParsesBy (λ x. x.0) result (allowed left (forms.term multiple (known_scope known.now) negative)) rest.old rest.new }
    ensures multiple { IfOk result (λ x. (1 ≤ x.1) × (x.1 ≡ lcm multiple x.0.denominator)) }
{
    if left == 0 {
        Err(surplus_term_fault(rest, known))
    } else {
        term(negative, multiple, rest, known)
    }
}
