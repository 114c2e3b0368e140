//! Sets of variables.
ghost use Rattle.std.specs.Prelude.{◌≡◌, ◌<◌, ◌++◌, [], length, slice_index_or, OnOk, codes, ◌==◌, if◌then◌else◌};
ghost use Rattle.it_print.specs.Lines.{given_set_text, set_text};

use crate::pieces::write_if;
use it_space::VarSet;
use it_syntax::Names;
use std::alloc::AllocError;

/// Appends the name of a variable.
pub fn write_variable(out: &mut Vec<u8>, names: &Names, variable: u8) -> Result<(), AllocError>
    requires { variable < length names.now.variables }
    ensures { OnOk result (out.new.items ≡ out.old.items ++ slice_index_or names.now.variables variable []) }
{
    out.extend_from_slice(names.variable_name(variable))
}

/// Appends the names of a set's members with `,` between them, in order of declaration.
#[tactic(auto, unfolding(crate::specs::Lines::set_text))]
pub fn write_set(out: &mut Vec<u8>, names: &Names, set: VarSet) -> Result<(), AllocError>
    ensures { OnOk result (out.new.items ≡ out.old.items ++ set_text names.now.variables set) }
{
    let mut some = false;
    for i in 0..names.space().variables {
        some = write_if(out, some, b",", set.has(i), names.variable_name(i))?;
    }
    Ok(())
}

/// Appends the names of a set's members, or `0` for the empty set.
pub fn write_set_or_zero(out: &mut Vec<u8>, names: &Names, set: VarSet) -> Result<(), AllocError>
    ensures { OnOk result (out.new.items ≡ out.old.items ++ (if set == 0 then codes "0" else set_text names.now.variables set)) }
{
    if set.number() == 0 {
        out.extend_from_slice(b"0")
    } else {
        write_set(out, names, set)
    }
}

/// Appends `|` and the names of a set's members, or nothing for the empty set.
pub fn write_given(out: &mut Vec<u8>, names: &Names, set: VarSet) -> Result<(), AllocError>
    ensures { OnOk result (out.new.items ≡ out.old.items ++ given_set_text names.now.variables set) }
{
    if set.number() != 0 {
        out.extend_from_slice(b"|")?;
        write_set(out, names, set)?;
    }
    Ok(())
}
