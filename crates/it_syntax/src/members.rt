//! Readers of the members of chains and independences.
ghost use Rattle.std.specs.Prelude.{◌≡◌, ◌++◌, [], ◌∷◌, OnOk, IfErr};
ghost use Rattle.it_syntax.specs.declared.rest.Stop.TheVariants.{Memory};
ghost use Rattle.it_syntax.specs.Gives.{ParsesBy};
ghost use Rattle.it_syntax.specs.LineForms as forms;
ghost use Rattle.it_syntax.specs.Scopes.{env_of};

use crate::lists::allowed_list;
use crate::names::Names;
use crate::rest::{Rest, Stop};
use crate::terminals::takes;
use crate::types::Symbol;
use it_space::VarSet;

/// The most members of a chain or an independence.
const MOST_MEMBERS: usize = 16;

/// Appends `set` to `sets`.
fn add(sets: &mut Vec<VarSet>, set: VarSet) -> Result<(), Stop>
    ensures added { OnOk result (sets.new.items ≡ sets.old.items ++ set ∷ []) }
    ensures memory { IfErr result (λ e. e ≡ Memory) }
{
    sets.push(set)?;
    Ok(())
}

/// The members of `first` and further ones, each after `divider`, at most 16 in all.
pub fn more_members(
    first: Vec<VarSet>,
    divider: Symbol,
    rest: &mut Rest<'_>,
    names: &Names,
) -> Result<Vec<VarSet>, Stop>
    ensures { ParsesBy (λ x. x.items) result (forms.more_members divider (env_of names.now) first.items) rest.old rest.new }
{
    let mut found = first;
    while takes(rest, divider) {
        let left = MOST_MEMBERS.saturating_sub(found.len());
        // `?` would do; with the match each case is a goal of its own, with the reading's equation at hand
        match allowed_list(left, rest, names) {
            Ok(next) => add(&mut found, next)?,
            Err(stop) => return Err(stop),
        }
    }
    Ok(found)
}
