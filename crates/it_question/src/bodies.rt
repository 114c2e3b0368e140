//! Questions as they are read, without their texts.
ghost use Rattle.std.specs.Prelude.{◌≡◌, map};
ghost use Rattle.it_question.specs.Bodies.{body_view};
ghost use Rattle.it_question.specs.Limits.{IsQuestion};
ghost use Rattle.it_question.specs.LineTexts.{text_of_lines};

use crate::types::{OwnLines, Question, Verb};
use it_syntax::Names;

/// A question without its text.
pub struct Body {
    pub names: Names,
    pub lines: OwnLines,
    pub verb: Verb,
}

impl Drop for Body {
    fn drop(self) {
        let Body {
            names: _,
            lines: _,
            verb: _,
        } = self;
    }
}

impl Body {
    /// The question with the lines `source`.
    pub fn with_source(self, source: Vec<Vec<u8>>) -> Question
        requires { IsQuestion (body_view self) }
        ensures { result ≡ record { body = body_view self; text = text_of_lines (map (λ v. v.items) source.items) } }
    {
        let Body { names, lines, verb } = self;
        Question {
            names,
            source,
            lines,
            verb,
        }
    }
}
