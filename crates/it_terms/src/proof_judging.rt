//! Whether a text tells a proof.
ghost use Rattle.std.specs.Prelude.{◌≤◌, All, IfOk, length, map};
ghost use Rattle.std.specs.Bool.{OnTrue};
ghost use Rattle.it_space.specs.Rows.{value};
ghost use Rattle.it_elemental.specs.Generators.{forms_of, of_constraint};
ghost use Rattle.it_terms.specs.Proofs.{IsPlusShannon, TellsProof};
ghost use Rattle.it_syntax.specs.Meaning.{IsAtomOf, relation_view};
ghost use Rattle.it_syntax.specs.Givens.{IsRelationOf};
ghost use Rattle.it_space.specs.Spaces.{IsSpace};
ghost use Rattle.it_terms.specs.Proposals.{IsProofFrom};

use crate::equations::{equation, side_row};
use crate::sums::{are_allowed, is_multiple, is_sum};
use it_problems::Constraint;
use it_space::{Row, Space};
use it_syntax::types::{Atom, Relation, Term};
use it_syntax::{Names, common_denominator};
use std::alloc::{AllocError, Global};

/// How an equation is claimed to be a proof: its right side is `shannon` terms over sets and then the sum of constraints with
/// `weights`; its left side is `target.1` times the target, whose index `target.0` is 0.
#[derive(Drop)]
pub struct Split {
    pub shannon: usize,
    pub target: (u32, i128),
    pub weights: Vec<(u32, i128)>,
}

/// A proposed proof: its text, and how its sides are split.
#[derive(Drop)]
pub struct Proposal {
    pub text: Vec<u8>,
    pub split: Split,
}

/// Whether a term is over sets and has a plus.
fn is_plus(term: &Term, space: Space) -> bool
    requires { IsAtomOf space.variables space.rates term.now.atom }
    ensures { OnTrue result (IsPlusShannon space.variables term.now) }
{
    match term.atom {
        Atom::Rate(_) => false,
        _ => !term.negative,
    }
}

/// Whether each term is over sets and has a plus.
fn are_plus(terms: &[Term], space: Space) -> bool
    requires { All (λ t. IsAtomOf space.variables space.rates t.atom) terms.now }
    ensures { OnTrue result (All (IsPlusShannon space.variables) terms.now) }
{
    for term in terms {
        if !is_plus(term, space) {
            return false;
        }
    }
    true
}

/// Whether `relation` is the proof that `split` claims: its right side begins with `split.shannon` terms over sets with a plus,
/// the other terms there are the sum of `constraints` with `split.weights`, and its left side is `split.target.1` times
/// `target`.
pub fn is_proof(
    alloc: Global,
    relation: &Relation,
    space: Space,
    target: &Row,
    constraints: &[Constraint],
    split: &Split,
) -> Result<bool, AllocError>
    requires space { IsSpace space }
    requires within { IsRelationOf space.variables space.rates (relation_view relation.now) }
    ensures { IfOk result (λ b. OnTrue b (IsProofFrom space.variables (relation_view relation.now) target.now constraints.now)) }
{
    let right = relation.right.terms.as_slice();
    let weights = split.weights.as_slice();
    if split.shannon > right.len() || split.target.1 < 1 {
        return Ok(false);
    }
    let (shannon, rest) = right.split_at(split.shannon);
    if !are_plus(shannon, space) || !are_allowed(constraints, weights) {
        return Ok(false);
    }
    let multiple = common_denominator(relation);
    let left = side_row(alloc, relation.left.terms.as_slice(), multiple, space)?;
    let is_target = is_multiple(alloc, space, &left, target, &split.target)?;
    drop(left);
    if !is_target {
        return Ok(false);
    }
    let rest = side_row(alloc, rest, multiple, space)?;
    let is_rest = is_sum(alloc, space, &rest, constraints, weights)?;
    Ok(is_rest)
}

/// Whether the text of a proposal tells a proof of the target from the constraints.
pub fn tells_proof(
    alloc: Global,
    names: &Names,
    target: &Row,
    constraints: &[Constraint],
    proposal: &Proposal,
) -> Result<bool, AllocError>
    requires { 1 ≤ length names.now.variables }
    ensures { IfOk result (λ b. OnTrue b (TellsProof names.now (value target.now) (forms_of (map of_constraint constraints.now)) proposal.now.text.items)) }
{
    match equation(alloc, proposal.text.as_slice(), names)? {
        Some(relation) => is_proof(
            alloc,
            &relation,
            names.space(),
            target,
            constraints,
            &proposal.split,
        ),
        None => Ok(false),
    }
}
