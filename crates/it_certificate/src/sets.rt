//! The sets of a containment in a report.
ghost use Rattle.std.specs.Prelude.{◌≡◌, ◌≤◌, ◌^◌, nat_lt, if◌then◌else◌, Some, None};
ghost use Rattle.serde_json.specs.View.{view, items_view};
ghost use Rattle.it_certificate.specs.Parts.{all_of, parts_at, set_at};
ghost use Rattle.it_certificate.specs.Steps.{Yields};
ghost use Rattle.it_space.specs.Spaces.{most_variables};

use crate::keys::Refusal;
use crate::lists::array_of;
use crate::numbers::count_at;
use it_space::VarSet;
use serde_json::Value;
use std::alloc::Global;

/// The set of this number, if it is one of `variables` variables.
fn set_of_number(variables: u8, number: u32) -> Option<VarSet>
    requires { variables ≤ most_variables }
    ensures { result ≡ (if nat_lt number (2 ^ variables) then Some number else None) }
{
    if number < 1u32 << variables {
        Some(VarSet::from_number(number as u16))
    } else {
        None
    }
}

/// A set of `variables` variables.
#[tactic(auto, unfolding(crate::specs::Parts::set_at))]
fn set_at(variables: u8, value: &Value) -> Option<VarSet>
    requires { variables ≤ most_variables }
    ensures { result ≡ set_at variables (view value.now) }
{
    set_of_number(variables, count_at(value)?)
}

/// Sets in order.
fn sets(alloc: Global, variables: u8, values: &[Value]) -> Result<Vec<VarSet>, Refusal>
    requires { variables ≤ most_variables }
    ensures { Yields (λ v. v.items) result (all_of (set_at variables) (items_view values.now)) }
{
    let mut out = Vec::new(alloc);
    for value in values {
        let Some(set) = set_at(variables, value) else {
            return Err(Refusal::Shape);
        };
        out.push(set)?;
    }
    Ok(out)
}

/// The sets of a containment: `count` sets of `variables` variables.
#[tactic(auto, unfolding(crate::specs::Parts::parts_at))]
pub fn parts_at(
    alloc: Global,
    value: &Value,
    count: u8,
    variables: u8,
) -> Result<Vec<VarSet>, Refusal>
    requires { variables ≤ most_variables }
    ensures { Yields (λ v. v.items) result (parts_at count variables (view value.now)) }
{
    let Some(values) = array_of(value.get("parts")) else {
        return Err(Refusal::Shape);
    };
    let sets = sets(alloc, variables, values)?;
    if sets.len() == count as usize {
        Ok(sets)
    } else {
        Err(Refusal::Shape)
    }
}
