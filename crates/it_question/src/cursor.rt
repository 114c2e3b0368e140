//! The rest of a file, which is still to be read.
ghost use Rattle.std.specs.Prelude.{◌≡◌, ◌≤◌, length};
ghost use Rattle.it_syntax.specs.Spans.{InLine, InLine-prop};
ghost use Rattle.it_syntax.specs.Lines.{most_text_bytes};

use it_syntax::rest::Rest;
use it_syntax::types::LineTokens;

/// A line that has tokens or a misspelling, by its number, counted from 1; its text has neither a comment nor tabs. The last
/// line of a file is its end: no text and no tokens, with `Unfinished` in the place of a misspelling.
pub struct Line {
    pub number: u32,
    pub text: Vec<u8>,
    pub tokens: LineTokens,
    pub ghost short: { length text.items ≤ most_text_bytes },
    pub ghost inside: { InLine text.items tokens.tokens.items } by { InLine-prop text.items tokens.tokens.items },
}

impl Drop for Line {
    fn drop(self) {
        let Line {
            number: _,
            text: _,
            tokens: _,
        } = self;
    }
}

impl Line {
    /// The line's text alone.
    pub(crate) fn into_text(self) -> Vec<u8>
        ensures { result.items ≡ self.text.items }
    {
        let Line {
            number: _,
            text,
            tokens: _,
        } = self;
        text
    }
}

/// What is left of a line, if anything is left, and the lines after it. A reader takes from the front what it reads, and at
/// a fault leaves the cursor at the piece that the fault is at.
#[derive(Clone, Copy)]
pub struct Cursor<'a> {
    pub rest: Option<Rest<'a>>,
    pub after: &'a [Line],
}
