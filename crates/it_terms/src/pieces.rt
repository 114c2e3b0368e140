//! The pieces of a proof's right side.
ghost use Rattle.std.specs.Prelude.{◌≡◌, ◌++◌, IfOk, map};
ghost use Rattle.it_terms.specs.declared.pieces.Piece.TheVariants.{Summand, Named};
ghost use Rattle.it_terms.specs.StepsUnder.{first_sum, piece_terms, piece_weights, right_pieces};

use it_syntax::types::Term;
use std::alloc::{AllocError, Global};

/// A term, or the constraint of a number with its weight.
#[derive(Clone, Copy)]
pub enum Piece {
    Summand(Term),
    Named((u32, i128)),
}

/// The constraints of a piece with their weights.
pub fn piece_weights(alloc: Global, piece: &Piece) -> Result<Vec<(u32, i128)>, AllocError>
    ensures { IfOk result (λ ws. ws.items ≡ piece_weights piece.now) }
{
    let mut weights = Vec::new(alloc);
    if let Piece::Named(weight) = piece {
        weights.push(*weight)?;
    }
    Ok(weights)
}

/// `sum` with the terms of `piece` after it.
pub fn with_piece(alloc: Global, sum: &[Term], piece: &Piece) -> Result<Vec<Term>, AllocError>
    ensures { IfOk result (λ ts. ts.items ≡ sum.now ++ piece_terms piece.now) }
{
    let mut terms = Vec::from_slice(alloc, sum)?;
    if let Piece::Summand(term) = piece {
        terms.push(*term)?;
    }
    Ok(terms)
}

/// `terms` and then the constraints `named` as pieces.
fn pieces_of(alloc: Global, terms: &[Term], named: &[(u32, i128)]) -> Result<Vec<Piece>, AllocError>
    ensures { IfOk result (λ ps. ps.items ≡ map Summand terms.now ++ map Named named.now) }
{
    let mut pieces = Vec::new(alloc);
    for term in terms {
        pieces.push(Piece::Summand(*term))?;
    }
    for weight in named {
        pieces.push(Piece::Named(*weight))?;
    }
    Ok(pieces)
}

/// The pieces of a right side: the terms of its text, none if it is empty, and then the constraints `named`.
pub fn right_pieces(
    alloc: Global,
    right: &[u8],
    terms: &[Term],
    named: &[(u32, i128)],
) -> Result<Vec<Piece>, AllocError>
    ensures { IfOk result (λ ps. ps.items ≡ right_pieces right.now terms.now named.now) }
{
    if right.is_empty() {
        pieces_of(alloc, &[], named)
    } else {
        pieces_of(alloc, terms, named)
    }
}

/// The sum before the first piece: no terms; if `right` is empty, `terms`, which are then those of `0`.
pub fn first_sum<'a>(right: &[u8], terms: &'a [Term]) -> &'a [Term]
    ensures { result.now ≡ first_sum right.now terms.now }
{
    if right.is_empty() { terms } else { &[] }
}
