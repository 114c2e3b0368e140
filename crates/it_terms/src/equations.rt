//! Equations that are true of every map, and the rows of their sides.
ghost use Rattle.std.specs.Prelude.{◌≤◌, ◌^◌, All, IfOk, IfSome, length};
ghost use Rattle.std.specs.Bool.{OnTrue};
ghost use Rattle.it_space.specs.Spaces.{IsSpace};
ghost use Rattle.it_syntax.specs.Givens.{IsRelationOf};
ghost use Rattle.it_syntax.specs.Meaning.{IsAtomOf, relation_view, side_at};
ghost use Rattle.it_demand.specs.Canonical.{IsRowOf};
ghost use Rattle.it_terms.specs.Proofs.{IsEquationText, IsIdentity};

use crate::reading::relation_text;
use it_demand::{Coefficients, difference};
use it_space::{Row, Space};
use it_syntax::Names;
use it_syntax::types::{Relation, Sign, Term};
use std::alloc::{AllocError, Global};

/// Whether both sides of a relation are the same sum at each map.
#[tactic(auto, using(crate::proofs::EquationLemmas::identity_without_terms))]
fn is_identity(alloc: Global, relation: &Relation, space: Space) -> Result<bool, AllocError>
    requires space { IsSpace space }
    requires within { IsRelationOf space.variables space.rates (relation_view relation.now) }
    ensures { IfOk result (λ b. OnTrue b (IsIdentity space.variables (relation_view relation.now))) }
{
    let row = difference(alloc, relation, false, space)?;
    Ok(row.is_zero())
}

/// The equation that `text` is after the word of a `prove` line; None where it isn't read as one, or isn't true of every map.
#[tactic(auto, using(crate::proofs::EquationLemmas::equation_told))]
pub fn equation(alloc: Global, text: &[u8], names: &Names) -> Result<Option<Relation>, AllocError>
    requires some { 1 ≤ length names.now.variables }
    ensures is { IfOk result (λ o. IfSome o (λ r. IsEquationText names.now text.now (relation_view r))) }
    ensures limits { IfOk result (λ o. IfSome o (λ r. IsRelationOf (length names.now.variables) (length names.now.rates) (relation_view r))) }
{
    let Some(read) = relation_text(alloc, text, names)? else {
        return Ok(None);
    };
    if read.sign != Sign::Equal {
        return Ok(None);
    }
    let identity = is_identity(alloc, &read, names.space())?;
    if identity { Ok(Some(read)) } else { Ok(None) }
}

/// The row of `multiple` times the sum of `terms`, where `multiple` is a multiple of their denominators.
pub fn side_row(
    alloc: Global,
    terms: &[Term],
    multiple: u64,
    space: Space,
) -> Result<Row, AllocError>
    requires space { IsSpace space }
    requires few { length terms.now ≤ 256 }
    requires atoms { All (λ t. IsAtomOf space.variables space.rates t.atom) terms.now }
    requires denominators { All (λ t. 1 ≤ t.denominator) terms.now }
    requires small { multiple ≤ 2 ^ 32 }
    ensures { IfOk result (IsRowOf space (λ p. side_at space.variables p multiple terms.now)) }
{
    let mut sums = Coefficients::new(alloc, space)?;
    sums.add_side(space, terms, multiple, false);
    sums.into_row(alloc)
}
