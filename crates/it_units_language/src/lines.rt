//! Tests: lines cut into tokens, and two bytes that a line has none of: they stand elsewhere in files.

use crate::fixtures::LONGEST_FILE;
use it_syntax::tokens;
use it_syntax::types::{Code, Symbol, SyntaxFault, Token, TokenKind};
use std::alloc::Global;

/// Whether `tokens` are the tokens `want`, each by its kind, its start and its end.
fn are_tokens(tokens: &[Token], want: &[(TokenKind, u32, u32)]) -> bool {
    if tokens.len() != want.len() {
        return false;
    }
    for i in 0..want.len() {
        let (token, (kind, start, end)) = (&tokens[i], want[i]);
        if token.kind != kind || token.start != start || token.end != end {
            return false;
        }
    }
    true
}

/// Whether a line is cut into the tokens `want`.
fn is_cut(alloc: Global, line: &[u8], want: &[(TokenKind, u32, u32)]) -> bool {
    if line.len() > LONGEST_FILE {
        return false;
    }
    match tokens(alloc, line) {
        Ok(tokens) => are_tokens(tokens.as_slice(), want),
        Err(_) => false,
    }
}

/// Whether a line is cut into its longest tokens.
fn are_longest(alloc: Global) -> bool {
    let want: &[(TokenKind, u32, u32)] = &[
        (TokenKind::Word, 1, 4),
        (TokenKind::Symbol(Symbol::Arrow), 4, 6),
        (TokenKind::Word, 6, 7),
        (TokenKind::Symbol(Symbol::Assign), 7, 9),
        (TokenKind::Number(3), 9, 10),
        (TokenKind::Symbol(Symbol::AtMost), 10, 12),
        (TokenKind::Number(7), 12, 15),
    ];
    is_cut(alloc, b" a1_->b:=3<=007 ", want) && is_cut(alloc, b"   ", &[])
}

/// Whether each other symbol is a token.
fn are_symbols(alloc: Global) -> bool {
    let want: &[(TokenKind, u32, u32)] = &[
        (TokenKind::Symbol(Symbol::Minus), 0, 1),
        (TokenKind::Symbol(Symbol::AtLeast), 2, 4),
        (TokenKind::Symbol(Symbol::Semicolon), 4, 5),
        (TokenKind::Symbol(Symbol::Bar), 5, 6),
        (TokenKind::Symbol(Symbol::Plus), 6, 7),
        (TokenKind::Symbol(Symbol::Comma), 7, 8),
        (TokenKind::Symbol(Symbol::Equal), 8, 9),
    ];
    is_cut(alloc, b"- >=;|+,=", want)
}

#[test]
fn a_line_is_cut_into_its_longest_tokens(rt: HostRuntime) {
    assert!(rt; are_longest(rt.alloc()));
    assert!(rt; are_symbols(rt.alloc()));
}

/// Whether a line is refused at the byte of column `column`.
fn is_refused(alloc: Global, line: &[u8], column: u32) -> bool {
    if line.len() > LONGEST_FILE {
        return false;
    }
    let fault = SyntaxFault::Fault {
        column,
        code: Code::Byte,
    };
    match tokens(alloc, line) {
        Ok(_) => false,
        Err(found) => found == fault,
    }
}

/// Whether a tab and a comment are refused: a file's lines have neither.
fn are_refused(alloc: Global) -> bool {
    is_refused(alloc, b"H(X)\t", 5) && is_refused(alloc, b"# H(X)", 1)
}

#[test]
fn a_line_has_neither_a_tab_nor_a_comment(rt: HostRuntime) {
    assert!(rt; are_refused(rt.alloc()));
}
