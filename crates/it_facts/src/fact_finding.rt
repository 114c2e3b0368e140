//! Facts that determine a point. They are judged before they are written, so no clause here says it.
ghost use Rattle.std.specs.Prelude.{◌≤◌, ◌<◌, ◌^◌};
ghost use Rattle.it_space.specs.Spaces.{IsSpace};

use crate::facts::Fact;
use crate::settling::{
    are_functions, are_independent, determine, entropy, follows, is_function, value_at,
};
use it_space::{Point, Space, VarSet};
use std::alloc::{AllocError, Global};

/// The most facts of which each one is tried whether the others do without it; more facts are all kept.
const MOST_TRIED: usize = 64;

/// The fact about one variable: that it is constant, that it and an earlier one are functions of each other, or its entropy.
fn variable_fact(point: &Point, variable: u8) -> Fact
    requires { variable < 16 }
{
    let set = VarSet::single(variable);
    let value = entropy(point, set);
    if value == 0 {
        return Fact::Constant { variable };
    }
    for other in 0..variable {
        if are_functions(point, variable, other) {
            return Fact::Equal { variable, other };
        }
    }
    Fact::Entropy { set, value }
}

/// `set` without each member, tried from the last one on, without which it still determines the variable.
fn least_set(point: &Point, n: u8, variable: u8, set: VarSet) -> VarSet
    requires few { n ≤ 16 }
    requires variable { variable < 16 }
{
    let mut least = set;
    for i in 0..n {
        let fewer = least.minus(VarSet::single(n - 1 - i));
        if is_function(point, variable, fewer) {
            least = fewer;
        }
    }
    least
}

/// The fact that a member of `set`, the last one that is, is a function of others of its members; None if no member is.
fn function_fact(point: &Point, n: u8, set: VarSet) -> Option<Fact>
    requires { n ≤ 16 }
{
    for i in 0..n {
        let variable = n - 1 - i;
        let rest = set.minus(VarSet::single(variable));
        if set.has(variable) && is_function(point, variable, rest) {
            let of = least_set(point, n, variable, rest);
            return Some(Fact::Function { variable, of });
        }
    }
    None
}

/// `set` with each further variable that isn't constant and leaves its members independent, tried in order.
fn greatest_set(point: &Point, n: u8, set: VarSet) -> VarSet
    requires { n ≤ 16 }
{
    let mut greatest = set;
    for variable in 0..n {
        let single = VarSet::single(variable);
        let more = greatest.union(single);
        if entropy(point, single) != 0 && are_independent(point, n, more) {
            greatest = more;
        }
    }
    greatest
}

/// The fact about a set of several variables: that one is a function of others, that all are independent, or its entropy.
fn set_fact(point: &Point, n: u8, set: VarSet) -> Fact
    requires { n ≤ 16 }
{
    if let Some(fact) = function_fact(point, n, set) {
        return fact;
    }
    if are_independent(point, n, set) {
        let set = greatest_set(point, n, set);
        return Fact::Independent { set };
    }
    Fact::Entropy {
        set,
        value: entropy(point, set),
    }
}

/// Appends a fact for each set whose value doesn't follow from those before.
fn put_set_facts(facts: &mut Vec<Fact>, point: &Point, space: Space) -> Result<(), AllocError>
    requires { IsSpace space }
{
    for number in 1..1u32 << space.variables {
        let set = VarSet::from_number(number as u16);
        if !follows(facts.as_slice(), point, space, set) {
            facts.push(set_fact(point, space.variables, set))?;
        }
    }
    Ok(())
}

/// Appends the value of each rate.
fn put_rates(facts: &mut Vec<Fact>, point: &Point, space: Space) -> Result<(), AllocError>
    requires { IsSpace space }
{
    for rate in 0..space.rates {
        let value = value_at(point, (1u32 << space.variables) + rate as u32);
        facts.push(Fact::Rate { rate, value })?;
    }
    Ok(())
}

/// `facts` without fact number `place`, counted from 0.
fn without(alloc: Global, facts: &[Fact], place: usize) -> Result<Vec<Fact>, AllocError> {
    let mut others = Vec::new(alloc);
    for (i, fact) in facts.iter().enumerate() {
        if i != place {
            others.push(*fact)?;
        }
    }
    Ok(others)
}

/// `facts` without each fact, tried from the last one on, without which the others still determine the point.
fn needed(
    alloc: Global,
    facts: Vec<Fact>,
    point: &Point,
    space: Space,
) -> Result<Vec<Fact>, AllocError>
    requires { IsSpace space }
{
    let count = facts.len();
    if count > MOST_TRIED {
        return Ok(facts);
    }
    let mut kept = facts;
    for i in 0..count {
        let others = without(alloc, kept.as_slice(), count - 1 - i)?;
        if determine(others.as_slice(), point, space) {
            kept = others;
        }
    }
    Ok(kept)
}

/// Facts that determine a point: about each variable, then about sets, and the values of the rates.
pub fn found_facts(alloc: Global, point: &Point, space: Space) -> Result<Vec<Fact>, AllocError>
    requires { IsSpace space }
{
    let mut facts = Vec::new(alloc);
    for variable in 0..space.variables {
        facts.push(variable_fact(point, variable))?;
    }
    put_set_facts(&mut facts, point, space)?;
    put_rates(&mut facts, point, space)?;
    needed(alloc, facts, point, space)
}
