//! The constraints of `given` lines.
ghost use Rattle.std.specs.Prelude.{◌≡◌, ℕ, ℤ, pos, ◌+◌, ◌*◌, ◌-◌, ◌^◌, ◌<◌, ◌↔◌, [], ◌∷◌, length, IfOk};
ghost use Rattle.it_problems.specs.Problems.{AreMet};
ghost use Rattle.it_space.specs.Spaces.{IsSpace, size_of};
ghost use Rattle.it_syntax.specs.Givens.{Markov, given_view, union_of, sum_of_conditionals, IsTrueAt, AreSetsOf, IsGivenOf};
ghost use Rattle.it_syntax.specs.Meaning.{IsAtomOf, atom_at};
ghost use Rattle.it_demand.specs.Canonical.{IsRowOf};
ghost use Rattle.it_demand.specs.Demands.{demands, independence_form, kind_of};
ghost use Rattle.it_demand.specs.Origins.{AreParts};
ghost use Rattle.it_demand.specs.Coefficients.{IsFormAdded, mass};

use crate::coefficients::Coefficients;
use crate::relations::canon;
use it_problems::{Constraint, Kind, Origin};
use it_space::{Row, Space, VarSet};
use it_syntax::types::{Atom, Given, Sign};
use std::alloc::{AllocError, Global};

/// The constraints that state a given, which stands on `given` line number `line`: one for each link of a chain from
/// its second member on, and one for any other given.
pub fn canon_given(
    alloc: Global,
    given: &Given,
    line: u16,
    space: Space,
) -> Result<Vec<Constraint>, AllocError>
    requires space { IsSpace space }
    requires within { IsGivenOf space.variables (given_view given.now) }
    ensures constraints { IfOk result (λ v. AreParts space line (demands space.variables (given_view given.now)) v.items) }
    ensures met { IfOk result (λ v. (p : ℕ → ℤ) → p 0 ≡ pos 0 → AreMet p v.items ↔ IsTrueAt space.variables p (given_view given.now)) }
{
    constraints_of(alloc, given, line, space)
}

/// The constraints that state a given, by its kind.
#[tactic(auto, using(crate::proofs::LimitLemmas::more_rates))]
fn constraints_of(
    alloc: Global,
    given: &Given,
    line: u16,
    space: Space,
) -> Result<Vec<Constraint>, AllocError>
    requires space { IsSpace space }
    requires within { IsGivenOf space.variables (given_view given.now) }
    ensures { IfOk result (λ v. AreParts space line (demands space.variables (given_view given.now)) v.items) }
{
    match given {
        Given::Relation(relation) => {
            let row = canon(alloc, relation, space)?;
            single(alloc, row, kind_of(relation.sign), line)
        }
        Given::Markov(sets) => chain(alloc, sets.as_slice(), line, space),
        Given::Independent { members, given } => {
            let row = independence(alloc, members.as_slice(), *given, space)?;
            single(alloc, row, Kind::Equation, line)
        }
        Given::Function { value, argument } => {
            let entropy = Atom::Entropy {
                of: *value,
                given: *argument,
            };
            let row = row_of(alloc, entropy, space)?;
            single(alloc, row, Kind::Equation, line)
        }
    }
}

/// The kind of a relation of this sign: an equation for `=`, else an inequality.
pub(crate) fn kind_of(sign: Sign) -> Kind
    ensures { result ≡ kind_of sign }
{
    match sign {
        Sign::AtLeast | Sign::AtMost => Kind::Inequality,
        Sign::Equal => Kind::Equation,
    }
}

/// The one constraint of a line.
fn single(alloc: Global, row: Row, kind: Kind, line: u16) -> Result<Vec<Constraint>, AllocError>
    ensures { IfOk result (λ v. v.items ≡ (record { row = row; kind = kind; origin = Origin.Given line 1 1 } ∷ [])) }
{
    let origin = Origin::Given {
        line,
        part: 1,
        parts: 1,
    };
    let mut constraints = Vec::new(alloc);
    constraints.push(Constraint { row, kind, origin })?;
    Ok(constraints)
}

/// The row of an entropy, a mutual information or a rate.
fn row_of(alloc: Global, atom: Atom, space: Space) -> Result<Row, AllocError>
    requires space { IsSpace space }
    requires within { IsAtomOf space.variables space.rates atom }
    ensures { IfOk result (IsRowOf space (λ p. atom_at space.variables p atom)) }
{
    let mut sums = Coefficients::new(alloc, space)?;
    sums.add_atom(space, atom, 1);
    sums.into_row(alloc)
}

/// The equations of a chain: I(A1,..,A(i-1); A(i+1) | Ai) = 0 for each member Ai but the first and the last.
fn chain(
    alloc: Global,
    sets: &[VarSet],
    line: u16,
    space: Space,
) -> Result<Vec<Constraint>, AllocError>
    requires space { IsSpace space }
    requires within { AreSetsOf space.variables 3 16 sets.now }
    ensures { IfOk result (λ v. AreParts space line (demands space.variables (Markov sets.now)) v.items) }
{
    let parts = sets.len() as u16 - 2;
    let mut past = sets[0];
    let mut equations = Vec::new(alloc);
    for i in 1..sets.len() - 1 {
        let here = sets[i];
        let next = sets[i + 1];
        let link = Atom::Mutual {
            left: past,
            right: next,
            given: here,
        };
        let row = row_of(alloc, link, space)?;
        let origin = Origin::Given {
            line,
            part: i as u16,
            parts,
        };
        equations.push(Constraint {
            row,
            kind: Kind::Equation,
            origin,
        })?;
        past = past.union(here);
    }
    Ok(equations)
}

/// The row of the sum of the entropies of the members less their joint entropy, all given `given`.
fn independence(
    alloc: Global,
    members: &[VarSet],
    given: VarSet,
    space: Space,
) -> Result<Row, AllocError>
    requires space { IsSpace space }
    requires within { AreSetsOf space.variables 2 16 members.now }
    requires given { given < 2 ^ space.variables }
    ensures { IfOk result (IsRowOf space (independence_form space.variables members.now given)) }
{
    let mut sums = Coefficients::new(alloc, space)?;
    add_members(&mut sums, space, members, given);
    let joint = Atom::Entropy {
        of: union_of(members),
        given,
    };
    sums.add_atom(space, joint, -1);
    sums.into_row(alloc)
}

/// Adds the entropy of each member, given `given`.
fn add_members(sums: &mut Coefficients, space: Space, members: &[VarSet], given: VarSet)
    requires space { IsSpace space }
    requires within { AreSetsOf space.variables 2 16 members.now }
    requires given { given < 2 ^ space.variables }
    requires complete { length sums.old ≡ size_of space + 1 }
    requires small { mass sums.old ≡ 0 }
    ensures { IsFormAdded sums.old sums.new (4 * length members.now) (λ p. sum_of_conditionals space.variables p members.now given) }
{
    for member in members {
        sums.add_atom(space, Atom::Entropy { of: *member, given }, 1);
    }
}

/// The union of the sets.
fn union_of(sets: &[VarSet]) -> VarSet
    ensures { result ≡ union_of sets.now }
{
    sets.iter()
        .fold(VarSet::empty(), |union, set| union.union(*set))
}
