//! The rows of relations.
ghost use Rattle.std.specs.Prelude.{IfOk};
ghost use Rattle.it_space.specs.Spaces.{IsSpace};
ghost use Rattle.it_syntax.specs.Givens.{IsRelationOf};
ghost use Rattle.it_syntax.specs.Meaning.{relation_view, difference_at};
ghost use Rattle.it_demand.specs.Canonical.{IsRowOf, form_of};
ghost use Rattle.it_demand.specs.Coefficients.{signed_by};

use crate::coefficients::Coefficients;
use it_space::{Row, Space};
use it_syntax::common_denominator;
use it_syntax::types::{Relation, Sign};
use std::alloc::{AllocError, Global};

/// The row of a relation: of its left side less its right one, or of the right side less the left one for `<=`, times the least
/// common multiple of its denominators. An inequality says that its row is at least 0, an equation that its row is 0.
pub fn canon(alloc: Global, relation: &Relation, space: Space) -> Result<Row, AllocError>
    requires space { IsSpace space }
    requires within { IsRelationOf space.variables space.rates (relation_view relation.now) }
    ensures { IfOk result (IsRowOf space (form_of space.variables (relation_view relation.now))) }
{
    let negated = relation.sign == Sign::AtMost;
    difference(alloc, relation, negated, space)
}

/// The row of the left side less the right one, negated if `negated`, times the least common multiple of the denominators.
pub fn difference(
    alloc: Global,
    relation: &Relation,
    negated: bool,
    space: Space,
) -> Result<Row, AllocError>
    requires space { IsSpace space }
    requires within { IsRelationOf space.variables space.rates (relation_view relation.now) }
    ensures { IfOk result (IsRowOf space (λ p. signed_by negated (difference_at space.variables p (relation_view relation.now)))) }
{
    let multiple = common_denominator(relation);
    let mut sums = Coefficients::new(alloc, space)?;
    sums.add_side(space, relation.left.terms.as_slice(), multiple, negated);
    sums.add_side(space, relation.right.terms.as_slice(), multiple, !negated);
    sums.into_row(alloc)
}
