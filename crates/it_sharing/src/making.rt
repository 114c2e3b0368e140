//! The question that is made of a sharing file.
ghost use Rattle.std.specs.Prelude.{◌≡◌, ◌≤◌, ◌<◌, ◌+◌, ◌++◌, [], ◌∷◌, false, map, IfOk, OnOk, IfErr};
ghost use Rattle.it_syntax.specs.Givens.{given_view};
ghost use Rattle.it_question.specs.Limits.{IsQuestion};
ghost use Rattle.it_question.specs.QuestionLimits.{most_lines};
ghost use Rattle.it_sharing.specs.declared.types.MadeFault.TheVariants.{Many};
ghost use Rattle.it_sharing.specs.Sharings.{vanishing, knows, knows_nothing, made_question, question_under, maximal_count, minimal_count};

use crate::sets::{maximal_sets, minimal_sets};
use crate::types::{Made, MadeFault, Sharing};
use it_question::readers::{Body, MOST_LINES};
use it_question::types::{OwnLines, Question, Verb};
use it_space::VarSet;
use it_syntax::types::{Atom, Expr, Given, Relation, Sign, Term};
use std::alloc::{AllocError, Global};

/// The sum of one term, `number` times `atom`.
fn side(alloc: Global, number: u64, atom: Atom) -> Result<Expr, AllocError>
    ensures { IfOk result (λ e. e.terms.items ≡ (record { negative = false; number = number; denominator = 1; atom = atom } ∷ [])) }
{
    let mut terms = Vec::new(alloc);
    terms.push(Term {
        negative: false,
        number,
        denominator: 1,
        atom,
    })?;
    Ok(Expr { terms })
}

/// The given that says that `atom` is 0.
fn vanishing(alloc: Global, atom: Atom) -> Result<Given, AllocError>
    ensures { IfOk result (λ g. given_view g ≡ vanishing atom) }
{
    let left = side(alloc, 1, atom)?;
    let right = side(alloc, 0, Atom::Nothing)?;
    Ok(Given::Relation(Relation {
        left,
        sign: Sign::Equal,
        right,
    }))
}

/// The given that says that the parties of `set` know the secret.
fn knows(alloc: Global, set: VarSet) -> Result<Given, AllocError>
    ensures { IfOk result (λ g. given_view g ≡ knows set) }
{
    vanishing(
        alloc,
        Atom::Entropy {
            of: VarSet::single(0),
            given: set,
        },
    )
}

/// The given that says that the parties of `set` know nothing of the secret.
fn knows_nothing(alloc: Global, set: VarSet) -> Result<Given, AllocError>
    ensures { IfOk result (λ g. given_view g ≡ knows_nothing set) }
{
    vanishing(
        alloc,
        Atom::Mutual {
            left: VarSet::single(0),
            right: set,
            given: VarSet::empty(),
        },
    )
}

/// Appends `given` to `givens`.
fn add(givens: &mut Vec<Given>, given: Given) -> Result<(), AllocError>
    ensures { OnOk result (map given_view givens.new.items ≡ map given_view givens.old.items ++ given_view given ∷ []) }
{
    // a match, so that each case is a goal of its own; a call drops the given, not a step for each of its fields
    match givens.push(given) {
        Ok(()) => Ok(()),
        Err(failed) => {
            drop(failed);
            Err(AllocError)
        }
    }
}

/// Appends, for each of `sets`, that its parties know the secret.
fn add_known(alloc: Global, sets: &[VarSet], givens: &mut Vec<Given>) -> Result<(), AllocError>
    ensures { OnOk result (map given_view givens.new.items ≡ map given_view givens.old.items ++ map knows sets.now) }
{
    for set in sets {
        let given = knows(alloc, *set)?;
        add(givens, given)?;
    }
    Ok(())
}

/// Appends, for each of `sets`, that its parties know nothing of the secret.
fn add_hidden(alloc: Global, sets: &[VarSet], givens: &mut Vec<Given>) -> Result<(), AllocError>
    ensures { OnOk result (map given_view givens.new.items ≡ map given_view givens.old.items ++ map knows_nothing sets.now) }
{
    for set in sets {
        let given = knows_nothing(alloc, *set)?;
        add(givens, given)?;
    }
    Ok(())
}

/// The givens that the parties of each minimal set know the secret, and those of each maximal set nothing of it.
fn made_givens(
    alloc: Global,
    minimal: &[VarSet],
    maximal: &[VarSet],
) -> Result<Vec<Given>, AllocError>
    ensures { IfOk result (λ v. map given_view v.items ≡ map knows minimal.now ++ map knows_nothing maximal.now) }
{
    let mut givens = Vec::new(alloc);
    add_known(alloc, minimal, &mut givens)?;
    add_hidden(alloc, maximal, &mut givens)?;
    Ok(givens)
}

/// The question whether the relation of `from` holds under `givens`.
fn question(alloc: Global, from: &Sharing, givens: Vec<Given>) -> Result<Question, AllocError>
    requires { IsQuestion (question_under from.now (map given_view givens.items)).body }
    ensures { IfOk result (λ q. q ≡ question_under from.now (map given_view givens.items)) }
{
    let body = Body {
        names: from.names().copy()?,
        lines: OwnLines {
            givens,
            rows: Vec::new(alloc),
        },
        verb: Verb::Prove(from.relation().copy()?),
    };
    Ok(body.with_source(Vec::new(alloc)))
}

/// The question whether the relation of a sharing file holds wherever the secret is shared perfectly: under `H(s|A) = 0`
/// for each minimal qualified set A, in the order of the file, and then `I(s;B) = 0` for each maximal unqualified set B, by number. Its
/// verb is `prove`, also where the least factor is asked for; it has no rows and no text. `Many` comes exactly where the sets are
/// more than 64 together.
pub fn made(alloc: Global, from: &Sharing) -> Result<Made, MadeFault>
    ensures question { IfOk result (λ m. m.question ≡ made_question from.now) }
    ensures minimal { IfOk result (λ m. m.minimal ≡ minimal_count from.now) }
    ensures maximal { IfOk result (λ m. m.maximal ≡ maximal_count from.now) }
    ensures few { IfOk result (λ m. m.minimal + m.maximal ≤ most_lines) }
    ensures limits { IfOk result (λ m. IsQuestion m.question.body) }
    ensures many { IfErr result (λ e. e ≡ Many → most_lines < minimal_count from.now + maximal_count from.now) }
{
    let listed = from.qualified();
    let minimal = minimal_sets(alloc, listed)?;
    let maximal = maximal_sets(alloc, from.variable_count(), listed)?;
    if minimal.len() + maximal.len() > MOST_LINES {
        return Err(MadeFault::Many);
    }
    let givens = made_givens(alloc, minimal.as_slice(), maximal.as_slice())?;
    let question = question(alloc, from, givens)?;
    Ok(Made {
        question,
        minimal: minimal.len() as u32,
        maximal: maximal.len() as u32,
    })
}
