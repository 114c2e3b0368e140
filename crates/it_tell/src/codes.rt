//! A linear code as it is told.
ghost use Rattle.std.specs.Prelude.{◌≡◌, ◌≤◌, ◌<◌, ◌==◌, ◌++◌, ◌||◌, [], ◌∷◌, not, false, map, length, if◌then◌else◌, codes, IfOk, OnOk};
ghost use Rattle.it_codes.specs.Codes.{functions_of, variables_of};
ghost use Rattle.it_print.specs.Lines.{joined_texts};
ghost use Rattle.it_tell.specs.CodeTexts.{code_text, function_text, symbol_text, times_text, variable_text, variable_texts};
ghost use Rattle.it_space.specs.Spaces.{most_variables};

use it_certificate::ReportedCode;
use it_codes::Variable;
use it_print::{write_between, write_number};
use it_syntax::Names;
use std::alloc::{AllocError, Global};

/// Writes symbol `i` with its coefficient, which is left out if it is 1.
#[tactic(auto, unfolding(crate::specs::CodeTexts::symbol_text))]
fn write_symbol(out: &mut Vec<u8>, i: usize, coefficient: u8) -> Result<(), AllocError>
    ensures { OnOk result (out.new.items ≡ out.old.items ++ symbol_text i coefficient) }
{
    if coefficient != 1 {
        write_number(out, coefficient as usize)?;
        out.extend_from_slice(b" ")?;
    }
    out.extend_from_slice(b"m")?;
    write_number(out, i)
}

/// Writes symbol `i` with its coefficient, after ` + ` if `some`; nothing if the coefficient is 0. Returns whether anything is
/// written by now.
fn write_term(out: &mut Vec<u8>, some: bool, i: usize, coefficient: u8) -> Result<bool, AllocError>
    ensures written { OnOk result (out.new.items ≡ out.old.items ++ joined_texts (codes " + ") some (if not (coefficient == 0) then symbol_text i coefficient ∷ [] else [])) }
    ensures now { IfOk result (λ b. b ≡ (some || not (coefficient == 0))) }
{
    if coefficient == 0 {
        return Ok(some);
    }
    write_between(out, some, b" + ")?;
    write_symbol(out, i, coefficient)?;
    Ok(true)
}

/// The text of a function by its coefficients.
#[tactic(auto, using(crate::proofs::CodeLemmas::function_begins, crate::proofs::CodeLemmas::term_step))]
fn function_text(alloc: Global, coefficients: &[u8]) -> Result<Vec<u8>, AllocError>
    ensures { IfOk result (λ t. t.items ≡ function_text coefficients.now) }
{
    let mut out = Vec::new(alloc);
    let mut some = false;
    for (i, coefficient) in coefficients.iter().enumerate() {
        some = write_term(&mut out, some, i + 1, *coefficient)?;
    }
    if !some {
        out.extend_from_slice(b"0")?;
    }
    Ok(out)
}

/// Writes a function, after `, ` if `some`.
fn write_function(
    alloc: Global,
    out: &mut Vec<u8>,
    some: bool,
    function: &[u8],
) -> Result<(), AllocError>
    ensures { OnOk result (out.new.items ≡ out.old.items ++ (if some then codes ", " else []) ++ function_text function.now) }
{
    let text = function_text(alloc, function)?;
    write_between(out, some, b", ")?;
    out.extend_from_slice(text.as_slice())
}

/// Functions with `, ` between them.
fn functions_text(alloc: Global, functions: &[Vec<u8>]) -> Result<Vec<u8>, AllocError>
    ensures { IfOk result (λ t. t.items ≡ joined_texts (codes ", ") false (map (λ f. function_text f.items) functions.now)) }
{
    let mut out = Vec::new(alloc);
    let mut some = false;
    for function in functions {
        write_function(alloc, &mut out, some, function.as_slice())?;
        some = true;
    }
    Ok(out)
}

/// The functions of a variable with `, ` between them.
fn variable_functions(alloc: Global, variable: &Variable) -> Result<Vec<u8>, AllocError>
    ensures { IfOk result (λ t. t.items ≡ joined_texts (codes ", ") false (map function_text (functions_of variable.now))) }
{
    functions_text(alloc, variable.functions.as_slice())
}

/// The text of a variable: its name and its functions.
#[tactic(auto, unfolding(crate::specs::CodeTexts::variable_text))]
fn variable_text(alloc: Global, name: &[u8], variable: &Variable) -> Result<Vec<u8>, AllocError>
    ensures { IfOk result (λ t. t.items ≡ variable_text name.now (functions_of variable.now)) }
{
    let functions = variable_functions(alloc, variable)?;
    let mut out = Vec::new(alloc);
    out.extend_from_slice(name)?;
    out.extend_from_slice(b" = (")?;
    out.extend_from_slice(functions.as_slice())?;
    out.extend_from_slice(b")")?;
    Ok(out)
}

/// Writes a variable, after `, ` if `some`.
fn write_variable(
    alloc: Global,
    out: &mut Vec<u8>,
    some: bool,
    name: &[u8],
    variable: &Variable,
) -> Result<(), AllocError>
    ensures { OnOk result (out.new.items ≡ out.old.items ++ (if some then codes ", " else []) ++ variable_text name.now (functions_of variable.now)) }
{
    let text = variable_text(alloc, name, variable)?;
    write_between(out, some, b", ")?;
    out.extend_from_slice(text.as_slice())
}

/// Variables with `, ` between them.
fn variables_text(
    alloc: Global,
    names: &Names,
    variables: &[Variable],
) -> Result<Vec<u8>, AllocError>
    requires named { length variables.now ≤ length names.now.variables }
    requires few { length names.now.variables ≤ most_variables }
    ensures { IfOk result (λ t. t.items ≡ joined_texts (codes ", ") false (variable_texts names.now.variables 0 (map functions_of variables.now))) }
{
    let mut out = Vec::new(alloc);
    let mut some = false;
    for (i, variable) in variables.iter().enumerate() {
        let name = names.variable_name(i as u8);
        write_variable(alloc, &mut out, some, name, variable)?;
        some = true;
    }
    Ok(out)
}

/// Writes by which factor the point is the code's entropies, unless that is 1.
fn write_times(out: &mut Vec<u8>, times: u32) -> Result<(), AllocError>
    ensures { OnOk result (out.new.items ≡ out.old.items ++ times_text times) }
{
    if times == 1 {
        return Ok(());
    }
    out.extend_from_slice(b"; the point is ")?;
    write_number(out, times as usize)?;
    out.extend_from_slice(b" times its entropies")
}

/// The text of a code of the variables of `names`.
#[tactic(auto, unfolding(crate::specs::CodeTexts::code_text))]
pub fn code_text(alloc: Global, names: &Names, code: &ReportedCode) -> Result<Vec<u8>, AllocError>
    requires named { variables_of code.now.code ≤ length names.now.variables }
    requires few { length names.now.variables ≤ most_variables }
    ensures { IfOk result (λ t. t.items ≡ code_text names.now.variables code.now) }
{
    let linear = code.code();
    let variables = variables_text(alloc, names, linear.variables())?;
    let mut out = Vec::new(alloc);
    out.extend_from_slice(b"code over GF(")?;
    write_number(&mut out, linear.field().size() as usize)?;
    out.extend_from_slice(b"): ")?;
    out.extend_from_slice(variables.as_slice())?;
    write_times(&mut out, code.times())?;
    Ok(out)
}
