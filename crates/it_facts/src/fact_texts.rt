//! Facts as texts.
ghost use Rattle.std.specs.Prelude.{◌≡◌, ◌<◌, ◌++◌, ◌||◌, [], if◌then◌else◌, length, slice_index_or, false, All, codes, IfOk, OnOk};
ghost use Rattle.it_space.specs.Sets.{has_member};
ghost use Rattle.it_print.specs.Lines.{joined_texts, members_from};
ghost use Rattle.it_facts.specs.Points.{IsFactOver, fact_text, facts_text, variable_name};
ghost use Rattle.it_facts.specs.FactSteps.{member_text};

use crate::facts::Fact;
use it_print::{write_set, write_signed};
use it_space::VarSet;
use it_syntax::Names;
use std::alloc::{AllocError, Global};

/// Appends the name of a variable.
fn write_variable(out: &mut Vec<u8>, names: &Names, variable: u8) -> Result<(), AllocError>
    requires { variable < length names.now.variables }
    ensures { OnOk result (out.new.items ≡ out.old.items ++ variable_name names.now variable) }
{
    out.extend_from_slice(names.variable_name(variable))
}

/// Appends the name of a rate.
fn write_rate(out: &mut Vec<u8>, names: &Names, rate: u8) -> Result<(), AllocError>
    requires { rate < length names.now.rates }
    ensures { OnOk result (out.new.items ≡ out.old.items ++ slice_index_or names.now.rates rate []) }
{
    out.extend_from_slice(names.rate_name(rate))
}

/// Appends the separator, if `some`: a text stands before.
fn write_between(out: &mut Vec<u8>, some: bool, separator: &[u8]) -> Result<(), AllocError>
    ensures { OnOk result (out.new.items ≡ out.old.items ++ (if some then separator.now else [])) }
{
    if some {
        out.extend_from_slice(separator)?;
    }
    Ok(())
}

/// Appends the name of `variable` if it is a member of `set`, after `;` if `some`: a name stands before. Gives whether a name
/// stands there now.
fn write_member(
    out: &mut Vec<u8>,
    some: bool,
    names: &Names,
    set: VarSet,
    variable: u8,
) -> Result<bool, AllocError>
    requires { variable < length names.now.variables }
    ensures written { OnOk result (out.new.items ≡ out.old.items ++ member_text names.now some set variable) }
    ensures now { IfOk result (λ b. b ≡ (some || has_member set variable)) }
{
    if !set.has(variable) {
        return Ok(some);
    }
    write_between(out, some, b";")?;
    write_variable(out, names, variable)?;
    Ok(true)
}

/// Appends the names of a set's members with `;` between them, in order of declaration.
fn write_members(out: &mut Vec<u8>, names: &Names, set: VarSet) -> Result<(), AllocError>
    ensures { OnOk result (out.new.items ≡ out.old.items ++ joined_texts (codes ";") false (members_from 0 names.now.variables set)) }
{
    let mut some = false;
    for variable in 0..names.space().variables {
        some = write_member(out, some, names, set, variable)?;
    }
    Ok(())
}

/// Appends the text of a fact.
#[tactic(auto, unfolding(crate::specs::Points::fact_text))]
fn write_fact(out: &mut Vec<u8>, names: &Names, fact: &Fact) -> Result<(), AllocError>
    requires { IsFactOver (length names.now.variables) (length names.now.rates) fact.now }
    ensures { OnOk result (out.new.items ≡ out.old.items ++ fact_text names.now fact.now) }
{
    match fact {
        Fact::Entropy { set, value } => {
            out.extend_from_slice(b"H(")?;
            write_set(out, names, *set)?;
            out.extend_from_slice(b") = ")?;
            write_signed(out, *value)
        }
        Fact::Rate { rate, value } => {
            write_rate(out, names, *rate)?;
            out.extend_from_slice(b" = ")?;
            write_signed(out, *value)
        }
        Fact::Constant { variable } => {
            write_variable(out, names, *variable)?;
            out.extend_from_slice(b" constant")
        }
        Fact::Equal { variable, other } => {
            write_variable(out, names, *variable)?;
            out.extend_from_slice(b" = ")?;
            write_variable(out, names, *other)
        }
        Fact::Function { variable, of } => {
            out.extend_from_slice(b"func ")?;
            write_variable(out, names, *variable)?;
            out.extend_from_slice(b" of ")?;
            write_set(out, names, *of)
        }
        Fact::Independent { set } => {
            out.extend_from_slice(b"indep ")?;
            write_members(out, names, *set)
        }
    }
}

/// Appends the text of a fact, after `, ` if `some`: a fact stands before.
fn write_next(out: &mut Vec<u8>, some: bool, names: &Names, fact: &Fact) -> Result<(), AllocError>
    requires { IsFactOver (length names.now.variables) (length names.now.rates) fact.now }
    ensures { OnOk result (out.new.items ≡ out.old.items ++ (if some then codes ", " else []) ++ fact_text names.now fact.now) }
{
    write_between(out, some, b", ")?;
    write_fact(out, names, fact)
}

/// The text of facts in order, with `, ` between them.
#[tactic(auto, unfolding(crate::specs::Points::facts_text))]
pub fn facts_text(alloc: Global, names: &Names, facts: &[Fact]) -> Result<Vec<u8>, AllocError>
    requires { All (IsFactOver (length names.now.variables) (length names.now.rates)) facts.now }
    ensures { IfOk result (λ text. text.items ≡ facts_text names.now facts.now) }
{
    let mut out = Vec::new(alloc);
    let mut some = false;
    for fact in facts {
        write_next(&mut out, some, names, fact)?;
        some = true;
    }
    Ok(out)
}
