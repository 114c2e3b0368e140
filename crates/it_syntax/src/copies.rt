//! Copies of relations and constraints.
ghost use Rattle.std.specs.Prelude.{◌≡◌, IfOk, map};
ghost use Rattle.it_syntax.specs.Givens.{given_view};
ghost use Rattle.it_syntax.specs.Meaning.{relation_view};

use crate::types::{Expr, Given, Relation};
use std::alloc::{AllocError, Global};

impl Expr {
    /// A copy of the sum.
    pub fn copy(&self) -> Result<Expr, AllocError>
        ensures { IfOk result (λ s. s.terms.items ≡ self.now.terms.items) }
    {
        let terms = self.terms.clone()?;
        Ok(Expr { terms })
    }
}

impl Relation {
    /// A copy of the relation.
    pub fn copy(&self) -> Result<Relation, AllocError>
        ensures { IfOk result (λ r. relation_view r ≡ relation_view self.now) }
    {
        let left = self.left.copy()?;
        let right = self.right.copy()?;
        Ok(Relation {
            left,
            sign: self.sign,
            right,
        })
    }
}

impl Given {
    /// A copy of the constraint.
    pub fn copy(&self) -> Result<Given, AllocError>
        ensures { IfOk result (λ g. given_view g ≡ given_view self.now) }
    {
        match self {
            Given::Relation(relation) => {
                let relation = relation.copy()?;
                Ok(Given::Relation(relation))
            }
            Given::Markov(sets) => {
                let sets = sets.clone()?;
                Ok(Given::Markov(sets))
            }
            Given::Independent { members, given } => {
                let members = members.clone()?;
                Ok(Given::Independent {
                    members,
                    given: *given,
                })
            }
            Given::Function { value, argument } => Ok(Given::Function {
                value: *value,
                argument: *argument,
            }),
        }
    }
}

/// Copies of `relations`, in order.
pub fn relations(alloc: Global, relations: &[Relation]) -> Result<Vec<Relation>, AllocError>
    ensures { IfOk result (λ v. map relation_view v.items ≡ map relation_view relations.now) }
{
    let mut copies = Vec::new(alloc);
    for relation in relations {
        let copy = relation.copy()?;
        copies.push(copy)?;
    }
    Ok(copies)
}

/// Copies of `givens`, in order.
pub fn givens(alloc: Global, givens: &[Given]) -> Result<Vec<Given>, AllocError>
    ensures { IfOk result (λ v. map given_view v.items ≡ map given_view givens.now) }
{
    let mut copies = Vec::new(alloc);
    for given in givens {
        let copy = given.copy()?;
        copies.push(copy)?;
    }
    Ok(copies)
}
