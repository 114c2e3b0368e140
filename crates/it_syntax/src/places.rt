//! The columns of faults.
ghost use Rattle.std.specs.Prelude.{◌≡◌, ◌≤◌, ◌-◌, length};
ghost use Rattle.it_syntax.specs.Lines.{column_after, column_at, most_text_bytes};

use crate::rest::Rest;

impl<'a> Rest<'a> {
    /// The column of what stands after the tokens: a misspelling's, or the one after the last token.
    fn column_after(self) -> u32
        requires { length self.line.now ≤ most_text_bytes }
        ensures { result ≡ column_after self.entry.tokens.now self.entry.misspelling }
    {
        match self.misspelling {
            Some(misspelling) => misspelling.column,
            None => match self.tokens {
                [.., last] => last.end + 1,
                [] => 1,
            },
        }
    }

    /// The column, counted from 1, at which the last `left` tokens begin.
    pub fn column(self, left: usize) -> u32
        requires short { length self.line.now ≤ most_text_bytes }
        requires within { left ≤ length self.tokens.now }
        ensures { result ≡ column_at (length self.entry.tokens.now - left) self.entry.tokens.now self.entry.misspelling }
    {
        let after = self.column_after();
        match self.tokens.split_at(self.tokens.len() - left).1 {
            [first, ..] => first.start + 1,
            [] => after,
        }
    }
}
