//! Substitutions: the set that each auxiliary variable stands for.
ghost use Rattle.std.specs.Prelude.{◌≡◌, ◌<◌, ◌++◌, [], drop, length, slice_index_or, OnOk};
ghost use Rattle.it_print.specs.Lines.{auxiliary_names, part_for, parts_for, substitution_text};

use crate::sets::{write_set_or_zero, write_variable};
use it_question::types::{Question, Verb};
use it_space::VarSet;
use it_syntax::Names;
use std::alloc::AllocError;

/// Appends the sets for the auxiliary variables of a question's second region, each after its variable's name, in order.
pub fn write_substitution(
    out: &mut Vec<u8>,
    question: &Question,
    sets: &[VarSet],
) -> Result<(), AllocError>
    requires { length sets.now ≡ length (auxiliary_names question.now.body.names question.now.body.verb) }
    ensures { OnOk result (out.new.items ≡ out.old.items ++ substitution_text question.now.body sets.now) }
{
    match question.verb() {
        Verb::Prove(_) | Verb::Eliminate(_) => Ok(()),
        Verb::Contain { first, second, .. } => {
            let common = question.space().variables;
            write_parts(out, first.names(), second.names(), common, sets)
        }
    }
}

/// Appends the sets for the variables of the second region from `from` on, by the names of the first one.
fn write_parts(
    out: &mut Vec<u8>,
    names: &Names,
    second: &Names,
    from: u8,
    sets: &[VarSet],
) -> Result<(), AllocError>
    requires { length sets.now ≡ length (drop from second.now.variables) }
    ensures { OnOk result (out.new.items ≡ out.old.items ++ parts_for names.now.variables (drop from second.now.variables) sets.now) }
{
    // called for its clause on the number of variables
    let _space = second.space();
    for (i, set) in sets.iter().enumerate() {
        write_part_for(out, names, second, from + i as u8, *set)?;
    }
    Ok(())
}

/// Appends a variable of the second region, and the set that it stands for.
#[tactic(auto, unfolding(crate::specs::Lines::part_for))]
fn write_part_for(
    out: &mut Vec<u8>,
    names: &Names,
    second: &Names,
    variable: u8,
    set: VarSet,
) -> Result<(), AllocError>
    requires { variable < length second.now.variables }
    ensures { OnOk result (out.new.items ≡ out.old.items ++ part_for names.now.variables (slice_index_or second.now.variables variable []) set) }
{
    out.extend_from_slice(b" ")?;
    write_variable(out, second, variable)?;
    out.extend_from_slice(b":=")?;
    write_set_or_zero(out, names, set)
}
