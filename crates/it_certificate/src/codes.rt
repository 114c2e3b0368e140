//! The linear code that a report claims for its point.
ghost use Rattle.std.specs.Prelude.{◌≡◌, ◌≤◌, length, map, option_and_then, option_map};
ghost use Rattle.serde_json.specs.View.{items_view, view};
ghost use Rattle.it_codes.specs.Codes.{functions_of, size};
ghost use Rattle.it_certificate.specs.CodeReading.{code_in, coefficient_at, field_at, field_of, function_at, most_symbols, names_code, some_of, symbols_at, tells_code, times_at, variable_at, variables_at};
ghost use Rattle.it_certificate.specs.Numerals.{below};
ghost use Rattle.it_certificate.specs.Parts.{all_of};
ghost use Rattle.it_certificate.specs.Steps.{GivesKeyed, Yields};

use crate::answers::fault;
use crate::keys::{Key, Refusal, ReportFault};
use crate::lists::array_of;
use crate::members::text_of_member;
use crate::numbers::count_at;
use crate::types::ReportedCode;
use it_codes::{Field, LinearCode, Variable};
use it_question::types::Question;
use serde_json::Value;
use std::alloc::Global;

/// Whether the word of the answer is `no` and there is a code.
#[tactic(auto, unfolding(crate::specs::CodeReading::tells_code))]
pub fn tells_code(value: &Value) -> bool
    ensures { result ≡ tells_code (view value.now) }
{
    match text_of_member(value.get("answer")) {
        Some(text) => text == "no" && value.get("code").is_some(),
        None => false,
    }
}

// ---- numbers

/// The field of `elements` elements, if there is one.
fn field_of(elements: u32) -> Option<Field>
    ensures { result ≡ field_of elements }
{
    match elements {
        2 => Some(Field::Two),
        3 => Some(Field::Three),
        _ => None,
    }
}

/// The field of a code.
fn field_at(value: &Value) -> Option<Field>
    ensures { result ≡ field_at (view value.now) }
{
    field_of(count_at(value.get("field")?)?)
}

/// The most symbols of a message, so that there are at most 4,096 messages.
fn most_symbols(field: Field) -> u32
    ensures value { result ≡ most_symbols field }
    ensures few { result ≤ 12 }
{
    match field {
        Field::Two => 12,
        Field::Three => 7,
    }
}

/// `number`, if it is below `bound`.
fn number_below(bound: u32, number: u32) -> Option<u8>
    requires { bound ≤ 256 }
    ensures { result ≡ below bound number }
{
    if number < bound {
        Some(number as u8)
    } else {
        None
    }
}

/// The number of symbols of a message.
fn symbols_at(field: Field, value: &Value) -> Option<u8>
    ensures { result ≡ symbols_at field (view value.now) }
{
    number_below(most_symbols(field) + 1, count_at(value.get("symbols")?)?)
}

/// The number, unless it is 0.
fn some_of(number: u32) -> Option<u32>
    ensures { result ≡ some_of number }
{
    if number >= 1 { Some(number) } else { None }
}

/// What one symbol counts in the point's values.
fn times_at(value: &Value) -> Option<u32>
    ensures { result ≡ times_at (view value.now) }
{
    some_of(count_at(value.get("times")?)?)
}

// ---- functions

/// An element of a field of `elements` elements.
#[tactic(auto, unfolding(crate::specs::CodeReading::coefficient_at))]
fn coefficient_at(elements: u32, value: &Value) -> Option<u8>
    requires { elements ≤ 3 }
    ensures { result ≡ coefficient_at elements (view value.now) }
{
    number_below(elements, count_at(value)?)
}

/// Elements in order.
fn coefficients(alloc: Global, elements: u32, values: &[Value]) -> Result<Vec<u8>, Refusal>
    requires { elements ≤ 3 }
    ensures { Yields (λ v. v.items) result (all_of (coefficient_at elements) (items_view values.now)) }
{
    let mut out = Vec::new(alloc);
    for value in values {
        let Some(coefficient) = coefficient_at(elements, value) else {
            return Err(Refusal::Shape);
        };
        out.push(coefficient)?;
    }
    Ok(out)
}

/// A linear function of `symbols` symbols, by its coefficients.
#[tactic(auto, unfolding(crate::specs::CodeReading::function_at))]
fn function_at(alloc: Global, elements: u32, symbols: u8, value: &Value) -> Result<Vec<u8>, Refusal>
    requires { elements ≤ 3 }
    ensures { Yields (λ v. v.items) result (function_at elements symbols (view value.now)) }
{
    let Some(values) = array_of(Some(value)) else {
        return Err(Refusal::Shape);
    };
    let function = coefficients(alloc, elements, values)?;
    if function.len() == symbols as usize {
        Ok(function)
    } else {
        Err(Refusal::Shape)
    }
}

/// Functions in order.
fn functions(
    alloc: Global,
    elements: u32,
    symbols: u8,
    values: &[Value],
) -> Result<Vec<Vec<u8>>, Refusal>
    requires { elements ≤ 3 }
    ensures { Yields (λ v. map (λ f. f.items) v.items) result (all_of (function_at elements symbols) (items_view values.now)) }
{
    let mut out = Vec::new(alloc);
    for value in values {
        let function = function_at(alloc, elements, symbols, value)?;
        out.push(function)?;
    }
    Ok(out)
}

/// A variable, by its functions.
#[tactic(auto, unfolding(crate::specs::CodeReading::variable_at))]
fn variable_at(
    alloc: Global,
    elements: u32,
    symbols: u8,
    value: &Value,
) -> Result<Variable, Refusal>
    requires { elements ≤ 3 }
    ensures { Yields functions_of result (variable_at elements symbols (view value.now)) }
{
    let Some(values) = array_of(Some(value)) else {
        return Err(Refusal::Shape);
    };
    let functions = functions(alloc, elements, symbols, values)?;
    Ok(Variable { functions })
}

/// Variables in order.
fn variables(
    alloc: Global,
    elements: u32,
    symbols: u8,
    values: &[Value],
) -> Result<Vec<Variable>, Refusal>
    requires { elements ≤ 3 }
    ensures { Yields (λ v. map functions_of v.items) result (all_of (variable_at elements symbols) (items_view values.now)) }
{
    let mut out = Vec::new(alloc);
    for value in values {
        let variable = variable_at(alloc, elements, symbols, value)?;
        out.push(variable)?;
    }
    Ok(out)
}

/// The functions of `count` variables.
#[tactic(auto, unfolding(crate::specs::CodeReading::variables_at))]
fn variables_at(
    alloc: Global,
    elements: u32,
    symbols: u8,
    count: usize,
    value: &Value,
) -> Result<Vec<Variable>, Refusal>
    requires { elements ≤ 3 }
    ensures { Yields (λ v. map functions_of v.items) result (variables_at elements symbols count (view value.now)) }
{
    let Some(values) = array_of(value.get("functions")) else {
        return Err(Refusal::Shape);
    };
    let variables = variables(alloc, elements, symbols, values)?;
    if variables.len() == count {
        Ok(variables)
    } else {
        Err(Refusal::Shape)
    }
}

// ---- a code

/// A code of the question's variables.
#[tactic(auto, unfolding(crate::specs::CodeReading::code_in), using(it_codes::proofs::EntropyLemmas::three_elements))]
fn code_in(alloc: Global, question: &Question, value: &Value) -> Result<ReportedCode, Refusal>
    ensures { Yields (λ c. c) result (code_in (length question.now.body.names.variables) (view value.now)) }
{
    let Some(field) = field_at(value) else {
        return Err(Refusal::Shape);
    };
    let Some(symbols) = symbols_at(field, value) else {
        return Err(Refusal::Shape);
    };
    let count = question.space().variables as usize;
    let variables = variables_at(alloc, field.size(), symbols, count, value)?;
    let Some(times) = times_at(value) else {
        return Err(Refusal::Shape);
    };
    let code = LinearCode {
        field,
        symbols,
        variables,
    };
    Ok(ReportedCode { code, times })
}

/// A code of the question's variables, from a member.
fn code_of_member(
    alloc: Global,
    question: &Question,
    value: Option<&Value>,
) -> Result<ReportedCode, Refusal>
    ensures { Yields (λ c. c) result (option_and_then (code_in (length question.now.body.names.variables)) (option_map (λ v. view v.now) value.entry)) }
{
    match value {
        Some(value) => code_in(alloc, question, value),
        None => Err(Refusal::Shape),
    }
}

/// The code of a question's variables.
#[tactic(auto, unfolding(crate::specs::CodeReading::names_code))]
pub fn question_code(
    alloc: Global,
    value: &Value,
    question: &Question,
) -> Result<ReportedCode, ReportFault>
    ensures { GivesKeyed (λ c. c) result (names_code question.now.body.names (view value.now)) }
{
    match code_of_member(alloc, question, value.get("code")) {
        Ok(code) => Ok(code),
        Err(refusal) => Err(fault(refusal, Key::Code)),
    }
}
