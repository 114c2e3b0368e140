//! What stands at the front of a slice of bytes: spaces, digits, the bytes of a word, a symbol.
ghost use Rattle.std.specs.Prelude.{◌≡◌};
ghost use Rattle.std.specs.Char.{is_ascii_alphabetic, is_ascii_digit};
ghost use Rattle.it_syntax.specs.Spelling.{is_word_byte, is_space};
ghost use Rattle.it_syntax.specs.Prefixes.{IsLongestRun, symbol_of};

use crate::types::Symbol;

/// Whether `b` is a letter, a digit or `_`.
#[tactic(auto, unfolding(crate::specs::Spelling::is_word_byte))]
fn is_word_byte(b: u8) -> bool
    ensures { result ≡ is_word_byte b }
{
    b.is_ascii_alphabetic() || (b.is_ascii_digit() || b == b'_')
}

/// The number of spaces at the front of `bytes`.
#[tactic(auto, using(crate::proofs::RunLemmas::run_lemmas))]
pub fn spaces(bytes: &[u8]) -> usize
    ensures { IsLongestRun is_space bytes.now result }
{
    for (i, b) in bytes.iter().enumerate() {
        if *b != b' ' {
            return i;
        }
    }
    bytes.len()
}

/// The number of word bytes at the front of `bytes`.
#[tactic(auto, using(crate::proofs::RunLemmas::run_lemmas))]
pub fn word_bytes(bytes: &[u8]) -> usize
    ensures { IsLongestRun is_word_byte bytes.now result }
{
    for (i, b) in bytes.iter().enumerate() {
        if !is_word_byte(*b) {
            return i;
        }
    }
    bytes.len()
}

/// The number of digits at the front of `bytes`.
#[tactic(auto, using(crate::proofs::RunLemmas::run_lemmas))]
pub fn digits(bytes: &[u8]) -> usize
    ensures { IsLongestRun is_ascii_digit bytes.now result }
{
    for (i, b) in bytes.iter().enumerate() {
        if !b.is_ascii_digit() {
            return i;
        }
    }
    bytes.len()
}

/// The longest symbol at the front of `bytes`, if there is one.
#[tactic(auto, unfolding(crate::specs::Prefixes::symbol_of))]
pub fn symbol(bytes: &[u8]) -> Option<Symbol>
    ensures { result ≡ symbol_of bytes.now }
{
    match bytes {
        [b'(', ..] => Some(Symbol::LeftParen),
        [b')', ..] => Some(Symbol::RightParen),
        [b',', ..] => Some(Symbol::Comma),
        [b';', ..] => Some(Symbol::Semicolon),
        [b'|', ..] => Some(Symbol::Bar),
        [b'+', ..] => Some(Symbol::Plus),
        [b'-', b'>', ..] => Some(Symbol::Arrow),
        [b'-', ..] => Some(Symbol::Minus),
        [b'>', b'=', ..] => Some(Symbol::AtLeast),
        [b'<', b'=', ..] => Some(Symbol::AtMost),
        [b'=', ..] => Some(Symbol::Equal),
        [b'/', ..] => Some(Symbol::Slash),
        [b':', b'=', ..] => Some(Symbol::Assign),
        _ => None,
    }
}
