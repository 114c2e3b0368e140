//! Whether a text says what a row says.
ghost use Rattle.std.specs.Prelude.{◌≡◌, ◌≤◌, length, IfOk};
ghost use Rattle.std.specs.Bool.{OnTrue};
ghost use Rattle.it_space.specs.Spaces.{IsSpace};
ghost use Rattle.it_syntax.specs.Givens.{IsRelationOf};
ghost use Rattle.it_syntax.specs.Meaning.{relation_view};
ghost use Rattle.it_terms.specs.Tells.{SaysRow, TellsRow};

use crate::reading::relation_text;
use it_canon::canon;
use it_space::{Row, Space, normal};
use it_syntax::Names;
use it_syntax::types::{Relation, Sign};
use std::alloc::{AllocError, Global};

/// Whether two rows are equal.
pub fn is_same(row: &Row, other: &Row) -> bool
    ensures { OnTrue result (row.now ≡ other.now) }
{
    row.terms() == other.terms()
}

/// Whether `relation` is an inequality that holds exactly where `row` is at least 0: its row and `row` are equal in lowest
/// terms.
#[tactic(auto, using(crate::proofs::JudgedTexts::same_row_says))]
fn says(alloc: Global, relation: &Relation, row: &Row, space: Space) -> Result<bool, AllocError>
    requires space { IsSpace space }
    requires within { IsRelationOf space.variables space.rates (relation_view relation.now) }
    ensures { IfOk result (λ b. OnTrue b (SaysRow space.variables (relation_view relation.now) row.now)) }
{
    if relation.sign == Sign::Equal {
        return Ok(false);
    }
    let own = normal(canon(alloc, relation, space)?);
    let wanted = normal(row.copy(alloc)?);
    Ok(is_same(&own, &wanted))
}

/// Whether a text, read as what stands after the word of a `row` or `prove` line, says what the row says. An equation says
/// no row, and no text of more than 1,048,576 bytes is read.
pub fn tells(alloc: Global, text: &[u8], names: &Names, row: &Row) -> Result<bool, AllocError>
    requires some { 1 ≤ length names.now.variables }
    ensures { IfOk result (λ b. OnTrue b (TellsRow names.now row.now text.now)) }
{
    match relation_text(alloc, text, names)? {
        Some(relation) => says(alloc, &relation, row, names.space()),
        None => Ok(false),
    }
}
