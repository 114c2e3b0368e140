//! Readers of symbols and words that must stand there, and of those that may.
ghost use Rattle.std.specs.Bool.{OnTrue, OnFalse};
ghost use Rattle.std.specs.Prelude.{◌≡◌, Some, None};
ghost use Rattle.it_forms.specs.Forms.{Take};
ghost use Rattle.it_forms.specs.FormReading.{read, after};
ghost use Rattle.it_forms.specs.Words as words;
ghost use Rattle.it_syntax.specs.Gives.{Parses, GivesAll, letters_left};

use crate::rest::{Piece, Rest, Stop};
use crate::types::Symbol;

/// Takes a symbol, if it stands there, and says whether.
#[tactic(auto, using(it_forms::proofs::SymbolLemmas::other_symbol, it_forms::proofs::SymbolLemmas::same_symbol))]
pub fn takes(rest: &mut Rest<'_>, symbol: Symbol) -> bool
    ensures taken { OnTrue result (after (words.symbol symbol) (letters_left rest.old) ≡ Some ((None, tt), letters_left rest.new)) }
    ensures none { OnFalse result (after (words.symbol symbol) (letters_left rest.old) ≡ None) }
    ensures same { OnFalse result (letters_left rest.new ≡ letters_left rest.old) }
{
    match rest.front() {
        (Piece::Symbol(other), after) => {
            if other == symbol {
                *rest = after;
                true
            } else {
                false
            }
        }
        _ => false,
    }
}

/// A symbol that must stand there.
#[tactic(auto, unfolding(it_forms::specs::FormReading::read), using(crate::proofs::Loops::front_lemmas))]
pub fn symbol(rest: &mut Rest<'_>, symbol: Symbol) -> Result<(), Stop>
    ensures { Parses result (Take (words.symbol symbol)) rest.old rest.new }
{
    if takes(rest, symbol) {
        Ok(())
    } else {
        Err(rest.fault())
    }
}

/// Takes a word, if it stands there, and says whether.
pub fn takes_word(rest: &mut Rest<'_>, word: &[u8]) -> bool
    ensures taken { OnTrue result (after (words.word word.now) (letters_left rest.old) ≡ Some ((None, tt), letters_left rest.new)) }
    ensures none { OnFalse result (after (words.word word.now) (letters_left rest.old) ≡ None) }
    ensures same { OnFalse result (letters_left rest.new ≡ letters_left rest.old) }
{
    match rest.front() {
        (Piece::Word(other), after) => {
            if other == word {
                *rest = after;
                true
            } else {
                false
            }
        }
        _ => false,
    }
}

/// A word that must stand there.
#[tactic(auto, unfolding(it_forms::specs::FormReading::read), using(crate::proofs::Loops::front_lemmas))]
pub fn word(rest: &mut Rest<'_>, word: &[u8]) -> Result<(), Stop>
    ensures { Parses result (Take (words.word word.now)) rest.old rest.new }
{
    if takes_word(rest, word) {
        Ok(())
    } else {
        Err(rest.fault())
    }
}

/// Whether the line ends there; nothing is taken. The fault is `Word` at another piece, or that piece's own.
#[tactic(auto, unfolding(it_forms::specs::FormReading::read))]
pub fn line_end(rest: &Rest<'_>) -> Result<(), Stop>
    ensures { GivesAll (λ x. x) result (letters_left rest.now) (read words.line_end (letters_left rest.now)) }
{
    match rest.front() {
        (Piece::End, _) => Ok(()),
        _ => Err(rest.fault()),
    }
}
