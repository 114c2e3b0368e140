//! The equations of a copy.
ghost use Rattle.std.specs.Prelude.{◌≡◌, ◌<◌, ◌≤◌, ◌-◌, ◌^◌, ◌++◌, [], ◌∷◌, OnOk, IfOk, map, ◌+◌};
ghost use Rattle.it_syntax.specs.declared.types.Atom.TheVariants.{Entropy};
ghost use Rattle.it_syntax.specs.Givens.{given_view};
ghost use Rattle.it_polymatroid.specs.Elementals.{span};
ghost use Rattle.it_closure.specs.Closures.{is_inside};
ghost use Rattle.it_copy.specs.Equations.{apart_equation, copy_equations, equal_atoms, term_of, inside_equations};
ghost use Rattle.it_space.specs.Spaces.{most_variables};

use it_space::VarSet;
use it_syntax::types::{Atom, Expr, Given, Relation, Sign, Term};
use std::alloc::{AllocError, Global};

/// The sum of `atom` alone; 0 for `Nothing`.
fn single(alloc: Global, atom: Atom) -> Result<Expr, AllocError>
    ensures { IfOk result (λ s. s.terms.items ≡ term_of atom ∷ []) }
{
    let number = match atom {
        Atom::Nothing => 0,
        _ => 1,
    };
    let term = Term {
        negative: false,
        number,
        denominator: 1,
        atom,
    };
    let terms = vec![in alloc; term]?;
    Ok(Expr { terms })
}

/// The given that `left` and `right` are equal.
fn equation(alloc: Global, left: Atom, right: Atom) -> Result<Given, AllocError>
    ensures { IfOk result (λ g. given_view g ≡ equal_atoms left right) }
{
    let left = single(alloc, left)?;
    let right = single(alloc, right)?;
    Ok(Given::Relation(Relation {
        left,
        sign: Sign::Equal,
        right,
    }))
}

/// The joint entropy of the set `of`.
fn joint(of: VarSet) -> Atom
    ensures { result ≡ Entropy of 0 }
{
    Atom::Entropy {
        of,
        given: VarSet::empty(),
    }
}

/// Appends the equation of the copy's entropy with `set`, if `set` lies in `over`.
fn add_part(
    alloc: Global,
    givens: &mut Vec<Given>,
    fresh: u8,
    old: u8,
    over: VarSet,
    set: VarSet,
) -> Result<(), AllocError>
    requires fresh { fresh < 16 }
    requires old { old < 16 }
    ensures { OnOk result (map given_view givens.new.items ≡ map given_view givens.old.items ++ inside_equations fresh old over (set ∷ [])) }
{
    if is_part(over, set) {
        let copy = joint(VarSet::single(fresh).union(set));
        let original = joint(VarSet::single(old).union(set));
        let equal = equation(alloc, copy, original)?;
        givens.push(equal)?;
    }
    Ok(())
}

/// Whether each member of `set` is in `over`.
fn is_part(over: VarSet, set: VarSet) -> bool
    ensures { result ≡ is_inside set over }
{
    set.meet(over) == set
}

/// Appends the equations of the copy's entropies: one for each set inside `over`, by number.
fn add_inside(
    alloc: Global,
    givens: &mut Vec<Given>,
    fresh: u8,
    old: u8,
    over: VarSet,
) -> Result<(), AllocError>
    requires fresh { fresh < 16 }
    requires old { old < 16 }
    ensures { OnOk result (map given_view givens.new.items ≡ map given_view givens.old.items ++ inside_equations fresh old over (span 0 (over + 1))) }
{
    for number in 0..over.number() as u32 + 1 {
        let set = VarSet::from_number(number as u16);
        match add_part(alloc, givens, fresh, old, over, set) {
            Ok(()) => {}
            Err(error) => return Err(error),
        }
    }
    Ok(())
}

/// The equation that the copy is independent, given `over`, of the variables before it that aren't in `over`.
fn apart(alloc: Global, fresh: u8, over: VarSet) -> Result<Given, AllocError>
    requires fresh { fresh < most_variables }
    requires inside { over < 2 ^ fresh }
    ensures { IfOk result (λ g. given_view g ≡ apart_equation fresh over) }
{
    let link = Atom::Mutual {
        left: VarSet::single(fresh),
        right: others(fresh, over),
        given: over,
    };
    equation(alloc, link, Atom::Nothing)
}

/// The variables before `fresh` that aren't in `over`.
fn others(fresh: u8, over: VarSet) -> VarSet
    requires fresh { fresh ≤ most_variables }
    requires inside { over < 2 ^ fresh }
    ensures { result ≡ (2 ^ fresh - 1) - over }
{
    before(fresh).minus(over)
}

/// The set of the variables before `fresh`.
fn before(fresh: u8) -> VarSet
    requires { fresh ≤ most_variables }
    ensures { result ≡ 2 ^ fresh - 1 }
{
    VarSet::from_number(((1u32 << fresh) - 1) as u16)
}

/// Appends the equations of the variable `fresh`, a copy of the variable `old` over the set `over`.
#[tactic(auto, unfolding(crate::specs::Equations::copy_equations))]
pub fn add_equations(
    alloc: Global,
    givens: &mut Vec<Given>,
    fresh: u8,
    old: u8,
    over: VarSet,
) -> Result<(), AllocError>
    requires fresh { fresh < most_variables }
    requires old { old < 16 }
    requires inside { over < 2 ^ fresh }
    ensures { OnOk result (map given_view givens.new.items ≡ map given_view givens.old.items ++ copy_equations fresh old over) }
{
    add_inside(alloc, givens, fresh, old, over)?;
    let last = apart(alloc, fresh, over)?;
    givens.push(last)?;
    Ok(())
}
