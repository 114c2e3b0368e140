//! The entropies and mutual informations that a question's lines have, each as its author spelled it.
ghost use Rattle.std.specs.Prelude.{◌≤◌, IfOk, length};
ghost use Rattle.it_space.specs.Spaces.{IsSpace};
ghost use Rattle.it_syntax.specs.Meaning.{IsAtomOf};

use crate::equations::side_row;
use crate::reading::LONGEST_TEXT;
use crate::substituting::once;
use it_space::{Row, Space};
use it_syntax::rest::{Piece, Rest, Stop};
use it_syntax::types::{Atom, Code, Token, TokenKind};
use it_syntax::{Names, entropy, line_tokens, mutual_information};
use std::alloc::{AllocError, Global};

/// An entropy or a mutual information, its spelling without blanks, and its row.
pub struct Measure {
    pub atom: Atom,
    pub spelling: Vec<u8>,
    pub row: Row,
}

impl Drop for Measure {
    fn drop(self) {
        let Measure {
            atom: _,
            spelling: _,
            row: _,
        } = self;
    }
}

/// The entropy or the mutual information that begins with `word`; what it has after that is at the front of `rest`.
#[tactic(auto, using(crate::proofs::AtomLemmas::entropy_limited, crate::proofs::AtomLemmas::mutual_information_limited))]
fn atom(word: &[u8], rest: &mut Rest<'_>, names: &Names) -> Result<Atom, Stop>
    ensures { IfOk result (IsAtomOf (length names.now.variables) (length names.now.rates)) }
{
    match word {
        b"H" => entropy(rest, names),
        b"I" => mutual_information(rest, names),
        _ => Err(Stop::Fault(Code::Word)),
    }
}

/// The bytes of the first token of `rest`, none where no token is left.
fn first_text(rest: Rest<'_>) -> &[u8] {
    match rest.tokens {
        [first, ..] => &rest.line[first.start as usize..first.end as usize],
        [] => b"",
    }
}

/// The text of the tokens of `rest` but the last `left`, without blanks.
fn spelling(alloc: Global, rest: Rest<'_>, left: usize) -> Result<Vec<u8>, AllocError> {
    let mut spelling = Vec::new(alloc);
    let mut unread = rest;
    for _ in left..rest.tokens.len() {
        spelling.extend_from_slice(first_text(unread))?;
        unread = unread.front().1;
    }
    Ok(spelling)
}

/// The row of `atom`.
fn atom_row(alloc: Global, atom: Atom, space: Space) -> Result<Row, AllocError>
    requires space { IsSpace space }
    requires within { IsAtomOf space.variables space.rates atom }
{
    side_row(alloc, &[once(atom)], 1, space)
}

/// The measure that `atom` is, with this spelling.
fn measure_of(
    alloc: Global,
    atom: &Atom,
    spelling: Vec<u8>,
    space: Space,
) -> Result<Measure, AllocError>
    requires space { IsSpace space }
    requires within { IsAtomOf space.variables space.rates atom.now }
{
    let row = atom_row(alloc, *atom, space)?;
    Ok(Measure {
        atom: *atom,
        spelling,
        row,
    })
}

/// The measure at the front of `rest`, None where none is read there under these names.
fn measure_at(alloc: Global, rest: Rest<'_>, names: &Names) -> Result<Option<Measure>, AllocError>
    requires { 1 ≤ length names.now.variables }
{
    let (Piece::Word(word), mut after) = rest.front() else {
        return Ok(None);
    };
    match atom(word, &mut after, names) {
        Ok(atom) => {
            let spelling = spelling(alloc, rest, after.tokens.len())?;
            let measure = measure_of(alloc, &atom, spelling, names.space())?;
            Ok(Some(measure))
        }
        Err(Stop::Fault(_)) => Ok(None),
        Err(Stop::Memory) => Err(AllocError),
    }
}

/// The spelling that the question's author gave an atom, if any.
pub fn own_spelling<'a>(measures: &'a [Measure], atom: &Atom) -> Option<&'a [u8]> {
    for measure in measures {
        if measure.atom == *atom {
            return Some(measure.spelling.as_slice());
        }
    }
    None
}

/// Appends `found`, unless its atom is there already.
fn put_new(measures: &mut Vec<Measure>, found: Option<Measure>) -> Result<(), AllocError> {
    if let Some(measure) = found {
        if own_spelling(measures.as_slice(), &measure.atom).is_none() {
            measures.push(measure)?;
        }
    }
    Ok(())
}

/// Whether the token number `at` stands right after a number, as in `2H(X)`. Such a measure isn't taken.
fn is_joined(tokens: &[Token], at: usize) -> bool {
    match tokens.split_at(at.min(tokens.len())) {
        ([.., number], [word, ..]) => {
            matches!(number.kind, TokenKind::Number(_)) && number.end == word.start
        }
        _ => false,
    }
}

/// Appends the measures of the tokens of `rest` that are read under `names`, in order, unless they are there already.
fn put_read(
    alloc: Global,
    measures: &mut Vec<Measure>,
    rest: Rest<'_>,
    names: &Names,
) -> Result<(), AllocError>
    requires { 1 ≤ length names.now.variables }
{
    let tokens = rest.tokens;
    let mut unread = rest;
    for at in 0..tokens.len() {
        if !is_joined(tokens, at) {
            let measure = measure_at(alloc, unread, names)?;
            put_new(measures, measure)?;
        }
        unread = unread.front().1;
    }
    Ok(())
}

/// Appends the measures of `line` that are read under `names`, in the line's order, unless they are there already.
fn put_measures(
    alloc: Global,
    measures: &mut Vec<Measure>,
    line: &[u8],
    names: &Names,
) -> Result<(), AllocError>
    requires { 1 ≤ length names.now.variables }
{
    if line.len() > LONGEST_TEXT {
        return Ok(());
    }
    let found = line_tokens(alloc, line)?;
    let rest = Rest {
        line,
        tokens: found.tokens.as_slice(),
        misspelling: found.misspelling,
    };
    put_read(alloc, measures, rest, names)
}

/// The measures of a question's lines that are read under these names, each once, in order.
pub fn measures(alloc: Global, lines: &[Vec<u8>], names: &Names) -> Result<Vec<Measure>, AllocError>
    requires { 1 ≤ length names.now.variables }
{
    let mut measures = Vec::new(alloc);
    for line in lines {
        put_measures(alloc, &mut measures, line.as_slice(), names)?;
    }
    Ok(measures)
}
