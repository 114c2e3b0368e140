//! Generators: elemental inequalities, and constraints by the lines that they come from.
ghost use Rattle.std.specs.Prelude.{◌≡◌, ◌≤◌, ◌<◌, ◌+◌, ◌^◌, ◌-◌, ◌++◌, [], length, nat_lt, codes, decimal, if◌then◌else◌, OnOk};
ghost use Rattle.it_polymatroid.specs.Elementals.{Conditional, Mutual, elementals, elemental_at};
ghost use Rattle.it_print.specs.Lines.{elemental_text, generator_text, origin_text, origins_of};
ghost use Rattle.it_space.specs.Spaces.{most_variables};

use crate::pieces::write_number;
use crate::sets::{write_given, write_set};
use it_elemental::{Elemental, count, parts};
use it_problems::{Constraint, Origin};
use it_space::VarSet;
use it_syntax::Names;
use std::alloc::AllocError;

/// Appends generator number `generator`: the elemental inequalities come first, then the constraints.
#[tactic(auto, unfolding(crate::specs::Lines::generator_text))]
pub fn write_generator(
    out: &mut Vec<u8>,
    names: &Names,
    constraints: &[Constraint],
    generator: u32,
) -> Result<(), AllocError>
    requires some { 1 ≤ length names.now.variables }
    requires there { generator < length (elementals (length names.now.variables)) + length constraints.now }
    ensures { OnOk result (out.new.items ≡ out.old.items ++ generator_text names.now.variables (origins_of constraints.now) generator) }
{
    let elementals = count(names.space().variables);
    if generator < elementals {
        write_elemental(out, names, generator)
    } else {
        write_origin(out, constraints[(generator - elementals) as usize].origin)
    }
}

/// Appends elemental inequality number `index`, as `H(X|Y,Z)` or `I(X;Y|Z)`.
pub fn write_elemental(out: &mut Vec<u8>, names: &Names, index: u32) -> Result<(), AllocError>
    requires some { 1 ≤ length names.now.variables }
    requires listed { index < length (elementals (length names.now.variables)) }
    ensures { OnOk result (out.new.items ≡ out.old.items ++ elemental_text names.now.variables (elemental_at (length names.now.variables) index)) }
{
    match parts(names.space().variables, index) {
        Elemental::Conditional { of } => write_conditional(out, names, of),
        Elemental::Mutual { left, right, given } => write_mutual(out, names, left, right, given),
    }
}

/// Appends `H(Xi|all others)`.
#[tactic(auto, unfolding(crate::specs::Lines::elemental_text))]
fn write_conditional(out: &mut Vec<u8>, names: &Names, i: u8) -> Result<(), AllocError>
    requires { i < length names.now.variables }
    ensures { OnOk result (out.new.items ≡ out.old.items ++ elemental_text names.now.variables (Conditional i)) }
{
    let others = other_variables(i, names.space().variables);
    out.extend_from_slice(b"H(")?;
    write_set(out, names, VarSet::single(i))?;
    write_given(out, names, others)?;
    out.extend_from_slice(b")")
}

/// The set of all `variables` variables but `i`.
fn other_variables(i: u8, variables: u8) -> VarSet
    requires there { i < variables }
    requires few { variables ≤ most_variables }
    ensures { result ≡ 2 ^ variables - 1 - 2 ^ i }
{
    VarSet::from_number(((1u32 << variables) - 1 - (1u32 << i)) as u16)
}

/// Appends `I(Xi;Xj|given)`.
#[tactic(auto, unfolding(crate::specs::Lines::elemental_text))]
fn write_mutual(
    out: &mut Vec<u8>,
    names: &Names,
    i: u8,
    j: u8,
    given: VarSet,
) -> Result<(), AllocError>
    requires left { i < length names.now.variables }
    requires right { j < length names.now.variables }
    ensures { OnOk result (out.new.items ≡ out.old.items ++ elemental_text names.now.variables (Mutual i j given)) }
{
    let left = variable_set(names, i);
    let right = variable_set(names, j);
    out.extend_from_slice(b"I(")?;
    write_set(out, names, left)?;
    out.extend_from_slice(b";")?;
    write_set(out, names, right)?;
    write_given(out, names, given)?;
    out.extend_from_slice(b")")
}

/// The set of the variable `i` alone.
fn variable_set(names: &Names, i: u8) -> VarSet
    requires { i < length names.now.variables }
    ensures { result ≡ 2 ^ i }
{
    // called for its clause on the number of variables
    let _space = names.space();
    VarSet::single(i)
}

/// Appends the line that a constraint comes from: `given J`, `given J.I` where the line gives several constraints, or `row J`.
#[tactic(auto, unfolding(crate::specs::Lines::origin_text))]
pub fn write_origin(out: &mut Vec<u8>, origin: Origin) -> Result<(), AllocError>
    ensures { OnOk result (out.new.items ≡ out.old.items ++ origin_text origin) }
{
    match origin {
        Origin::Given { line, part, parts } => {
            out.extend_from_slice(b"given ")?;
            write_number(out, line as usize)?;
            write_part_number(out, part, parts)
        }
        Origin::Rate { line } => {
            out.extend_from_slice(b"row ")?;
            write_number(out, line as usize)
        }
    }
}

/// Appends `.I`, where the line gives several constraints.
fn write_part_number(out: &mut Vec<u8>, part: u16, parts: u16) -> Result<(), AllocError>
    ensures { OnOk result (out.new.items ≡ out.old.items ++ (if nat_lt 1 parts then codes "." ++ decimal part else [])) }
{
    if parts > 1 {
        out.extend_from_slice(b".")?;
        write_number(out, part as usize)?;
    }
    Ok(())
}
