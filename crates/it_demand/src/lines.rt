//! The constraints of `given` and `row` lines.
ghost use Rattle.std.specs.Prelude.{◌+◌, ◌<◌, ◌^◌, flat_map, length, map, All, IfOk};
ghost use Rattle.it_space.specs.Spaces.{IsSpace};
ghost use Rattle.it_syntax.specs.Givens.{given_view, IsRelationOf, IsGivenOf};
ghost use Rattle.it_syntax.specs.Meaning.{relation_view};
ghost use Rattle.it_demand.specs.Demands.{demand_of, demands};
ghost use Rattle.it_demand.specs.Origins.{AreStated, given_origins, row_origins};

use crate::givens::{canon_given, kind_of};
use crate::relations::canon;
use it_problems::{Constraint, Origin};
use it_space::Space;
use it_syntax::types::{Given, Relation};
use std::alloc::{AllocError, Global};

/// The constraints of `given` lines, which are numbered from `first` on.
pub fn given_constraints(
    alloc: Global,
    givens: &[Given],
    first: u16,
    space: Space,
) -> Result<Vec<Constraint>, AllocError>
    requires space { IsSpace space }
    requires within { All (IsGivenOf space.variables) (map given_view givens.now) }
    requires few { first + length givens.now < 2 ^ 16 }
    ensures { IfOk result (λ v. AreStated space (given_origins space.variables first (map given_view givens.now)) (flat_map (demands space.variables) (map given_view givens.now)) v.items) }
{
    let mut constraints = Vec::new(alloc);
    for (i, given) in givens.iter().enumerate() {
        let mut parts = canon_given(alloc, given, first + i as u16, space)?;
        constraints.append(&mut parts)?;
    }
    Ok(constraints)
}

/// The constraints of `row` lines, which are numbered from `first` on.
pub fn row_constraints(
    alloc: Global,
    rows: &[Relation],
    first: u16,
    space: Space,
) -> Result<Vec<Constraint>, AllocError>
    requires space { IsSpace space }
    requires within { All (IsRelationOf space.variables space.rates) (map relation_view rows.now) }
    requires few { first + length rows.now < 2 ^ 16 }
    ensures { IfOk result (λ v. AreStated space (row_origins first (map relation_view rows.now)) (map (demand_of space.variables) (map relation_view rows.now)) v.items) }
{
    let mut constraints = Vec::new(alloc);
    for (i, relation) in rows.iter().enumerate() {
        let row = canon(alloc, relation, space)?;
        let kind = kind_of(relation.sign);
        let origin = Origin::Rate {
            line: first + i as u16,
        };
        constraints.push(Constraint { row, kind, origin })?;
    }
    Ok(constraints)
}
