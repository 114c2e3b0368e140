//! What reading a line gives: tokens, relations, and faults.

pub use it_forms::{Code, Symbol};
use it_space::VarSet;
use std::alloc::{AllocError, AllocFailed};

/// What a token is: a word of at most 16 bytes, a number with its value, or a symbol.
#[derive(Clone, Copy, Debug, PartialEq, Eq)]
pub enum TokenKind {
    Word,
    Number(u64),
    Symbol(Symbol),
}

/// A token and the bytes of its line that it takes: from `start` to `end`, counted from 0, without the byte at `end`.
#[derive(Clone, Copy, Debug, PartialEq, Eq)]
pub struct Token {
    pub kind: TokenKind,
    pub start: u32,
    pub end: u32,
}

/// Where a line has no token: a byte that begins none (`Byte`), a number that is too large (`Number`) or a word that is
/// too long (`Many`), at a column counted from 1.
#[derive(Clone, Copy)]
pub struct Misspelling {
    pub column: u32,
    pub code: Code,
}

/// The tokens of a line up to its first misspelling, if it has one.
#[derive(Drop)]
pub struct LineTokens {
    pub tokens: Vec<Token>,
    pub misspelling: Option<Misspelling>,
}

/// Why a line wasn't read: memory ran out, or a fault at a column, counted from 1.
#[derive(Clone, Copy, Debug, PartialEq, Eq)]
pub enum SyntaxFault {
    Memory,
    Fault { column: u32, code: Code },
}

impl From<AllocError> for SyntaxFault {
    ghost use Rattle.std.specs.Prelude.{◌≡◌};
    ghost use Rattle.it_syntax.specs.declared.types.SyntaxFault.TheVariants.{Memory};

    ghost from_gives = { λ _ e. e ≡ Memory };

    fn from(_error: AllocError) -> SyntaxFault {
        SyntaxFault::Memory
    }
}

impl<T: Drop> From<AllocFailed<T>> for SyntaxFault {
    ghost use Rattle.std.specs.Prelude.{◌≡◌};
    ghost use Rattle.it_syntax.specs.declared.types.SyntaxFault.TheVariants.{Memory};

    ghost from_gives = { λ _ e. e ≡ Memory };

    fn from(_error: AllocFailed<T>) -> SyntaxFault {
        SyntaxFault::Memory
    }
}

/// How the sides of a relation compare: `>=`, `<=` or `=`.
#[derive(Clone, Copy, PartialEq, Eq)]
pub enum Sign {
    AtLeast,
    AtMost,
    Equal,
}

/// What the number of a term multiplies: nothing, for a 0 that stands alone; the entropy H(of|given); the mutual information
/// I(left;right|given); a rate, by its number. Where nothing is given the set is empty.
#[derive(Clone, Copy, Debug, PartialEq, Eq)]
pub enum Atom {
    Nothing,
    Entropy {
        of: VarSet,
        given: VarSet,
    },
    Mutual {
        left: VarSet,
        right: VarSet,
        given: VarSet,
    },
    Rate(u8),
}

/// `number` / `denominator` times `atom`, negated if `negative`. The denominator is 1 where none was written, and so is the number.
#[derive(Clone, Copy, Debug, PartialEq, Eq)]
pub struct Term {
    pub negative: bool,
    pub number: u64,
    pub denominator: u64,
    pub atom: Atom,
}

/// One side of a relation: the sum of its terms, as they were written.
#[derive(Drop)]
pub struct Expr {
    pub terms: Vec<Term>,
}

/// Two sums and the sign between them.
pub struct Relation {
    pub left: Expr,
    pub sign: Sign,
    pub right: Expr,
}

impl Drop for Relation {
    fn drop(self) {
        let Relation {
            left: _,
            sign: _,
            right: _,
        } = self;
    }
}

/// A constraint as it was written: a relation; a Markov chain of sets, each of which is all that the next depends on; sets
/// that are independent given another, which is empty where none is named; a set that is a function of another.
pub enum Given {
    Relation(Relation),
    Markov(Vec<VarSet>),
    Independent { members: Vec<VarSet>, given: VarSet },
    Function { value: VarSet, argument: VarSet },
}

impl Drop for Given {
    fn drop(self) {
        match self {
            Given::Relation(_) => {}
            Given::Markov(_) => {}
            Given::Independent {
                members: _,
                given: _,
            } => {}
            Given::Function {
                value: _,
                argument: _,
            } => {}
        }
    }
}
