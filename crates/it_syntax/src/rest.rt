//! The rest of a line, which is still to be read.
ghost use Rattle.it_syntax.specs.Spans.{InLine, InLine-prop};

use crate::types::{Code, Misspelling, Symbol, Token};
use std::alloc::{AllocError, AllocFailed};

/// A piece of a line: a token, a misspelling, or the line's end.
#[derive(Clone, Copy)]
pub enum Piece<'a> {
    Word(&'a [u8]),
    Number(u64),
    Symbol(Symbol),
    End,
    Bad(Code),
}

/// The tokens that are left of a line, and what stands after them if it isn't the line's end. A reader takes from the front
/// what it reads, and at a fault leaves it at the token that the fault is at.
#[derive(Clone, Copy)]
pub struct Rest<'a> {
    pub line: &'a [u8],
    pub tokens: &'a [Token],
    pub misspelling: Option<Misspelling>,
    pub ghost inside: { InLine line.now tokens.now } by { InLine-prop line.now tokens.now },
}

/// Why a reader stopped: memory, or a fault at the first of what is left.
#[derive(Clone, Copy)]
pub enum Stop {
    Memory,
    Fault(Code),
}

impl From<AllocError> for Stop {
    ghost use Rattle.std.specs.Prelude.{◌≡◌};
    ghost use Rattle.it_syntax.specs.declared.rest.Stop.TheVariants.{Memory};

    ghost from_gives = { λ _ e. e ≡ Memory };

    fn from(_error: AllocError) -> Stop {
        Stop::Memory
    }
}

impl<T: Drop> From<AllocFailed<T>> for Stop {
    ghost use Rattle.std.specs.Prelude.{◌≡◌};
    ghost use Rattle.it_syntax.specs.declared.rest.Stop.TheVariants.{Memory};

    ghost from_gives = { λ _ e. e ≡ Memory };

    fn from(_error: AllocFailed<T>) -> Stop {
        Stop::Memory
    }
}
