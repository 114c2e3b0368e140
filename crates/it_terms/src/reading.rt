//! Reads texts as `row` and `prove` lines are read.
ghost use Rattle.std.specs.Prelude.{IfOk, IfSome, length};
ghost use Rattle.it_syntax.specs.Givens.{IsRelationOf};
ghost use Rattle.it_syntax.specs.Meaning.{relation_view};
ghost use Rattle.it_terms.specs.Tells.{IsRelationText};

use it_syntax::types::{LineTokens, Relation, SyntaxFault};
use it_syntax::{Names, relation, tokens};
use std::alloc::{AllocError, Global};

/// The longest text that is read, in bytes.
pub const LONGEST_TEXT: usize = 1048576;

/// The relation that `text` is, None where it isn't read as one.
pub fn relation_text(
    alloc: Global,
    text: &[u8],
    names: &Names,
) -> Result<Option<Relation>, AllocError>
    ensures is { IfOk result (λ o. IfSome o (λ r. IsRelationText names.now text.now (relation_view r))) }
    ensures limits { IfOk result (λ o. IfSome o (λ r. IsRelationOf (length names.now.variables) (length names.now.rates) (relation_view r))) }
{
    if text.len() > LONGEST_TEXT {
        return Ok(None);
    }
    let line = match tokens(alloc, text) {
        Ok(tokens) => LineTokens {
            tokens,
            misspelling: None,
        },
        Err(SyntaxFault::Memory) => return Err(AllocError),
        Err(SyntaxFault::Fault { .. }) => return Ok(None),
    };
    match relation(alloc, text, &line, 0, names, true) {
        Ok(relation) => Ok(Some(relation)),
        Err(SyntaxFault::Memory) => Err(AllocError),
        Err(SyntaxFault::Fault { .. }) => Ok(None),
    }
}
