//! The tokens of a line.
ghost use Rattle.std.specs.Prelude.{◌≡◌, ◌≤◌, ◌<◌, ◌^◌, length, drop, Some, None, IfOk, IfErr, IfSome, IfNone, IsSomeAnd};
ghost use Rattle.it_number.specs.Decimals.{value_from};
ghost use Rattle.it_syntax.specs.ReaderSteps.{IsTokenPrefix};
ghost use Rattle.it_syntax.specs.Misspellings.{IsWrong, SpellsUntil, IsMisspelled};
ghost use Rattle.it_syntax.specs.Spans.{InLine};
ghost use Rattle.std.specs.Char.{is_ascii_alphabetic, is_ascii_digit};
ghost use Rattle.it_syntax.specs.Spelling.{is_space, AreAll, StartsWith, Stops};
ghost use Rattle.it_forms.specs.SymbolTexts.{symbol_text};
ghost use Rattle.it_syntax.specs.Lines.{most_text_bytes};

use crate::runs::{digits, spaces, symbol, word_bytes};
use crate::types::{Code, LineTokens, Misspelling, Symbol, SyntaxFault, Token, TokenKind};
use std::alloc::{AllocError, Global};

/// The most bytes that a word has.
const LONGEST_WORD: usize = 16;

/// `bytes` without the first `n`.
fn bytes_after(bytes: &[u8], n: usize) -> &[u8]
    requires { n ≤ length bytes.now }
    ensures { result.now ≡ drop n bytes.now }
{
    bytes.split_at(n).1
}

/// The number of bytes of `symbol`.
fn symbol_len(symbol: Symbol) -> usize
    ensures { result ≡ length (symbol_text symbol) }
{
    match symbol {
        Symbol::Arrow | Symbol::AtLeast | Symbol::AtMost | Symbol::Assign => 2,
        _ => 1,
    }
}

/// The value of `text`, a string of decimal digits; None if it is 2^64 or more.
#[tactic(auto, using(crate::proofs::RunLemmas::value_lemmas))]
fn value(text: &[u8]) -> Option<u64>
    requires { AreAll is_ascii_digit text.now }
    ensures value { IfSome result (λ n. value_from 0 text.now ≡ Some n) }
    ensures large { IfNone result (IsSomeAnd (value_from 0 text.now) (λ n. 2 ^ 64 ≤ n)) }
{
    let mut n: u64 = 0;
    for b in text {
        n = n.checked_mul(10)?.checked_add((*b - b'0') as u64)?;
    }
    Some(n)
}

/// The word at the front of `body` and its length, or `Many` if it has more than 16 bytes.
fn word(body: &[u8]) -> Result<(TokenKind, usize), Code>
    requires { StartsWith is_ascii_alphabetic body.now }
    ensures shape { IfOk result (λ x. IsTokenPrefix x.0 x.1 body.now) }
    ensures wrong { IfErr result (λ c. IsWrong c body.now) }
{
    let n = word_bytes(body);
    if n <= LONGEST_WORD {
        Ok((TokenKind::Word, n))
    } else {
        Err(Code::Many)
    }
}

/// The number at the front of `body` and its length, or `Number` if it is above 2^64 - 1.
fn number(body: &[u8]) -> Result<(TokenKind, usize), Code>
    requires { StartsWith is_ascii_digit body.now }
    ensures shape { IfOk result (λ x. IsTokenPrefix x.0 x.1 body.now) }
    ensures wrong { IfErr result (λ c. IsWrong c body.now) }
{
    let n = digits(body);
    match value(body.split_at(n).0) {
        Some(v) => Ok((TokenKind::Number(v), n)),
        None => Err(Code::Number),
    }
}

/// The kind and the length of the token at the front of `body`, or what is wrong there.
fn front(body: &[u8]) -> Result<(TokenKind, usize), Code>
    requires some { 1 ≤ length body.now }
    requires stops { Stops is_space body.now }
    ensures shape { IfOk result (λ x. IsTokenPrefix x.0 x.1 body.now) }
    ensures wrong { IfErr result (λ c. IsWrong c body.now) }
{
    match body {
        [first, ..] if first.is_ascii_alphabetic() => word(body),
        [first, ..] if first.is_ascii_digit() => number(body),
        _ => match symbol(body) {
            Some(s) => Ok((TokenKind::Symbol(s), symbol_len(s))),
            None => Err(Code::Byte),
        },
    }
}

/// How many tokens a line has room for at first, unless it has fewer bytes.
const FIRST_TOKENS: usize = 32;

/// The tokens of a line that has neither a comment nor tabs, up to its first misspelling: a byte that begins no token, a
/// word of more than 16 bytes, or a number of more than 2^64 - 1. Spaces stand between tokens.
pub fn line_tokens(alloc: Global, line: &[u8]) -> Result<LineTokens, AllocError>
    requires { length line.now ≤ most_text_bytes }
    ensures read { IfOk result (λ ts. SpellsUntil 0 line.now ts.tokens.items ts.misspelling) }
    ensures inside { IfOk result (λ ts. InLine line.now ts.tokens.items) }
{
    let mut tokens = Vec::with_capacity(alloc, line.len().min(FIRST_TOKENS))?;
    let mut at: u32 = 0;
    let mut rest = line;
    loop {
        let gap = spaces(rest);
        let body = bytes_after(rest, gap);
        if body.is_empty() {
            return Ok(LineTokens {
                tokens,
                misspelling: None,
            });
        }
        let start = at + gap as u32;
        let (kind, n) = match front(body) {
            Ok(shape) => shape,
            Err(code) => {
                return Ok(LineTokens {
                    tokens,
                    misspelling: Some(Misspelling {
                        column: start + 1,
                        code,
                    }),
                });
            }
        };
        let end = start + n as u32;
        // `?` would do; with the match each case is a goal of its own
        match tokens.push(Token { kind, start, end }) {
            Ok(()) => {}
            Err(_) => return Err(AllocError),
        }
        at = end;
        rest = bytes_after(body, n);
    }
}

/// The tokens of a line that has neither a comment nor tabs. The fault is the line's first misspelling, with its column: `Byte`
/// at a byte that begins no token, `Many` at a word of more than 16 bytes, `Number` at a number of more than 2^64 - 1.
pub fn tokens(alloc: Global, line: &[u8]) -> Result<Vec<Token>, SyntaxFault>
    requires { length line.now ≤ most_text_bytes }
    ensures read { IfOk result (λ ts. SpellsUntil 0 line.now ts.items None) }
    ensures inside { IfOk result (λ ts. InLine line.now ts.items) }
    ensures fault { IfErr result (IsMisspelled line.now) }
{
    let found = line_tokens(alloc, line)?;
    match found.misspelling {
        None => Ok(found.tokens),
        Some(Misspelling { column, code }) => Err(SyntaxFault::Fault { column, code }),
    }
}
