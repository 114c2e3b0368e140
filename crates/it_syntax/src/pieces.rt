//! The pieces of a line, one after the other.
ghost use Rattle.std.specs.Prelude.{◌≡◌, ◌≤◌, length};
ghost use Rattle.it_syntax.specs.declared.rest.Stop.TheVariants.{Fault};
ghost use Rattle.it_forms.specs.FirstFault.{own_code};
ghost use Rattle.it_syntax.specs.Gives.{letters_left};
ghost use Rattle.it_syntax.specs.ReaderSteps.{HasLength, with_front, token_text};

use crate::rest::{Piece, Rest, Stop};
use crate::types::{Code, Token, TokenKind};

/// The bytes of a token of this line.
fn text<'a>(line: &'a [u8], token: &Token) -> &'a [u8]
    requires order { token.now.start ≤ token.now.end }
    requires inside { token.now.end ≤ length line.now }
    ensures { result.now ≡ token_text line.now token.now }
{
    &line[token.start as usize..token.end as usize]
}

impl<'a> Rest<'a> {
    /// The first piece, and what is after it; nothing is after the end or a misspelling. A word has 1 to 16 bytes.
    pub fn front(self) -> (Piece<'a>, Rest<'a>)
        ensures front { letters_left self.entry ≡ with_front result.0 (letters_left result.1) }
        ensures length { HasLength result.0 }
    {
        match self.tokens {
            [first, tail @ ..] => {
                let piece = match first.kind {
                    TokenKind::Word => Piece::Word(text(self.line, first)),
                    TokenKind::Number(n) => Piece::Number(n),
                    TokenKind::Symbol(s) => Piece::Symbol(s),
                };
                (
                    piece,
                    Rest {
                        line: self.line,
                        tokens: tail,
                        misspelling: self.misspelling,
                    },
                )
            }
            [] => match self.misspelling {
                Some(misspelling) => (Piece::Bad(misspelling.code), self),
                None => (Piece::End, self),
            },
        }
    }

    /// The fault at the first piece where no rule goes on: its own, if it is a misspelling.
    pub fn fault(self) -> Stop
        ensures { result ≡ Fault (own_code (letters_left self.entry)) }
    {
        match self.front() {
            (Piece::Bad(code), _) => Stop::Fault(code),
            _ => Stop::Fault(Code::Word),
        }
    }
}
