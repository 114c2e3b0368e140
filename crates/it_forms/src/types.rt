//! The symbols of a text, and the codes of its faults.

/// The symbols, in order: `(` `)` `,` `;` `|` `+` `-` `->` `>=` `<=` `=` `:=` `/`.
#[derive(Clone, Copy, Debug, PartialEq, Eq)]
pub enum Symbol {
    LeftParen,
    RightParen,
    Comma,
    Semicolon,
    Bar,
    Plus,
    Minus,
    Arrow,
    AtLeast,
    AtMost,
    Equal,
    Assign,
    Slash,
}

/// What is wrong with a line: a byte that begins no token; a word that no rule allows there; an unknown name; a name
/// that is taken; a number that is too large, or a denominator that is 0 or makes the least common multiple too large;
/// something past a limit; a file that ends too early; a question whose table is too large.
#[derive(Clone, Copy, Debug, PartialEq, Eq)]
pub enum Code {
    Byte,
    Word,
    Name,
    Twice,
    Number,
    Many,
    Unfinished,
    Large,
}
