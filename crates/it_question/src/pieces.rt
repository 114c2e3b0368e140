//! The pieces of a file, one by one.
ghost use Rattle.std.specs.Prelude.{◌≡◌, [], map, IfSome, IfNone};
ghost use Rattle.it_syntax.specs.declared.rest.Stop.TheVariants.{Fault};
ghost use Rattle.it_forms.specs.FirstFault.{own_code};
ghost use Rattle.it_syntax.specs.ReaderSteps.{HasLength};
ghost use Rattle.it_question.specs.Cursors.{line_view, letters_left, with_letter};
ghost use Rattle.it_question.specs.Lines.{letters_of_lines};

use crate::cursor::{Cursor, Line};
use it_syntax::rest::{Piece, Rest, Stop};
use it_syntax::types::Code;

impl<'a> Cursor<'a> {
    /// A cursor at the first of `lines`.
    #[tactic(auto, unfolding(crate::specs::Cursors::letters_left))]
    pub fn at(lines: &'a [Line]) -> Cursor<'a>
        ensures { letters_left result ≡ letters_of_lines (map line_view lines.entry.now) }
    {
        match lines {
            [first, after @ ..] => Cursor {
                rest: Some(Rest {
                    line: first.text.as_slice(),
                    tokens: first.tokens.tokens.as_slice(),
                    misspelling: first.tokens.misspelling,
                }),
                after,
            },
            [] => Cursor {
                rest: None,
                after: lines,
            },
        }
    }

    /// The first piece and what is after it, if anything is left.
    #[tactic(auto, unfolding(crate::specs::Cursors::letters_left))]
    pub fn front(self) -> Option<(Piece<'a>, Cursor<'a>)>
        ensures front { IfSome result (λ x. letters_left self.entry ≡ with_letter x.0 (letters_left x.1)) }
        ensures length { IfSome result (λ x. HasLength x.0) }
        ensures none { IfNone result (letters_left self.entry ≡ []) }
    {
        let rest = self.rest?;
        let (piece, tail) = rest.front();
        let after = match piece {
            Piece::End | Piece::Bad(_) => Cursor::at(self.after),
            _ => Cursor {
                rest: Some(tail),
                after: self.after,
            },
        };
        Some((piece, after))
    }

    /// The fault at the first piece where no rule goes on: its own, if it is a misspelling or the file's end.
    pub fn fault(self) -> Stop
        ensures { result ≡ Fault (own_code (letters_left self.entry)) }
    {
        match self.rest {
            Some(rest) => rest.fault(),
            None => Stop::Fault(Code::Word),
        }
    }
}
