//! Whether facts determine a point.
ghost use Rattle.std.specs.Prelude.{◌≡◌, ◌≢◌, ℕ, ◌+◌, ◌^◌, ◌<◌, ◌≤◌, ◌+ℤ◌, pos, cond, All, IfOk};
ghost use Rattle.std.specs.Bool.{OnFalse, OnTrue};
ghost use Rattle.it_space.specs.Rows.{point_of};
ghost use Rattle.it_space.specs.Sets.{has_member};
ghost use Rattle.it_space.specs.Spaces.{IsSpace, most_variables};
ghost use Rattle.it_facts.specs.Points.{Determine, IsFunction, IsFactOver, IsSomeSet, IsTrueOf, sum_of_members};
ghost use Rattle.it_facts.specs.Settling.{Follows, IsFactOf, Settles, TellRate, TellsRate};
ghost use Rattle.it_facts.specs.declared.facts.Fact.TheVariants as fact;

use crate::facts::Fact;
use it_fraction::{Wide, sum};
use it_space::{Point, Space, VarSet};

/// Whether `a` and `b` are equal.
fn are_equal(a: i128, b: i128) -> bool
    ensures { OnTrue result (a ≡ b) }
{
    a == b
}

/// The value at a coordinate; 0 at coordinate 0, which is the empty set, and past the last value.
pub fn value_at(point: &Point, coordinate: u32) -> i128
    ensures { result ≡ point_of point.now coordinate }
{
    if coordinate == 0 || coordinate as usize > point.values().len() {
        0
    } else {
        point.at(coordinate)
    }
}

/// The entropy of a set.
pub fn entropy(point: &Point, set: VarSet) -> i128
    ensures { result ≡ point_of point.now set }
{
    value_at(point, set.number() as u32)
}

/// Whether two sets have the same entropy.
fn have_one_entropy(point: &Point, set: VarSet, other: VarSet) -> bool
    ensures { OnTrue result (point_of point.now set ≡ point_of point.now other) }
{
    are_equal(entropy(point, set), entropy(point, other))
}

/// Whether a variable is a function of a set.
pub fn is_function(point: &Point, variable: u8, set: VarSet) -> bool
    requires { variable < 16 }
    ensures { OnTrue result (IsFunction (point_of point.now) variable set) }
{
    let both = set.union(VarSet::single(variable));
    have_one_entropy(point, both, set)
}

/// `total`, with the entropy of the variable added if it is a member of `set`.
fn with_member(total: i128, point: &Point, set: VarSet, variable: u8) -> Result<i128, Wide>
    requires { variable < 16 }
    ensures { IfOk result (λ t. t ≡ cond (has_member set variable) (point_of point.now (2 ^ variable)) (pos 0) +ℤ total) }
{
    if set.has(variable) {
        sum(entropy(point, VarSet::single(variable)), total)
    } else {
        Ok(total)
    }
}

/// The sum of the entropies of those of the first `n` variables that are members of `set`.
fn sum_of_members(point: &Point, n: u8, set: VarSet) -> Result<i128, Wide>
    requires { n ≤ 16 }
    ensures { IfOk result (λ t. t ≡ sum_of_members n (point_of point.now) set) }
{
    let mut total = 0;
    for variable in 0..n {
        total = with_member(total, point, set, variable)?;
    }
    Ok(total)
}

/// Whether the members of a set are independent.
pub fn are_independent(point: &Point, n: u8, set: VarSet) -> bool
    requires { n ≤ 16 }
    ensures { OnTrue result (point_of point.now set ≡ sum_of_members n (point_of point.now) set) }
{
    match sum_of_members(point, n, set) {
        Ok(total) => are_equal(entropy(point, set), total),
        Err(_) => false,
    }
}

/// Whether two variables are functions of each other.
pub fn are_functions(point: &Point, variable: u8, other: u8) -> bool
    requires variable { variable < 16 }
    requires other { other < 16 }
    ensures { OnTrue result (IsFunction (point_of point.now) variable (2 ^ other) × IsFunction (point_of point.now) other (2 ^ variable)) }
{
    if is_function(point, variable, VarSet::single(other)) {
        is_function(point, other, VarSet::single(variable))
    } else {
        false
    }
}

/// Whether a fact is true of a point.
fn is_true(fact: &Fact, point: &Point, space: Space) -> bool
    requires space { IsSpace space }
    requires over { IsFactOver space.variables space.rates fact.now }
    ensures { OnTrue result (IsTrueOf space.variables (point_of point.now) fact.now) }
{
    let n = space.variables;
    match fact {
        Fact::Entropy { set, value } => are_equal(entropy(point, *set), *value),
        Fact::Rate { rate, value } => {
            are_equal(value_at(point, (1u32 << n) + *rate as u32), *value)
        }
        Fact::Constant { variable } => are_equal(entropy(point, VarSet::single(*variable)), 0),
        Fact::Equal { variable, other } => are_functions(point, *variable, *other),
        Fact::Function { variable, of } => is_function(point, *variable, *of),
        Fact::Independent { set } => are_independent(point, n, *set),
    }
}

/// Whether a fact is over the variables and rates of a space.
fn is_over(fact: &Fact, space: Space) -> bool
    requires { IsSpace space }
    ensures { OnTrue result (IsFactOver space.variables space.rates fact.now) }
{
    let n = space.variables;
    match fact {
        Fact::Entropy { set, .. } => is_some_set(*set, n),
        Fact::Rate { rate, .. } => *rate < space.rates,
        Fact::Constant { variable } => *variable < n,
        Fact::Equal { variable, other } => { if *variable < n { *other < n } else { false } }
        Fact::Function { variable, of } => {
            if *variable < n {
                is_some_set(*of, n)
            } else {
                false
            }
        }
        Fact::Independent { set } => is_some_set(*set, n),
    }
}

/// Whether `set` is a nonempty set of `n` variables.
fn is_some_set(set: VarSet, n: u8) -> bool
    requires { n ≤ most_variables }
    ensures { OnTrue result (IsSomeSet n set) }
{
    let number = set.number() as u32;
    0 < number && number < 1u32 << n
}

/// Whether a fact is over a space and true of a point.
fn is_fact_of(fact: &Fact, point: &Point, space: Space) -> bool
    requires { IsSpace space }
    ensures { OnTrue result (IsFactOf space.variables space.rates (point_of point.now) fact.now) }
{
    if is_over(fact, space) {
        is_true(fact, point, space)
    } else {
        false
    }
}

/// Whether each fact is over a space and true of a point.
fn are_facts_of(facts: &[Fact], point: &Point, space: Space) -> bool
    requires { IsSpace space }
    ensures { OnTrue result (All (IsFactOf space.variables space.rates (point_of point.now)) facts.now) }
{
    for fact in facts {
        if !is_fact_of(fact, point, space) {
            return false;
        }
    }
    true
}

/// Whether `set` has the same value without its member `variable`, which is a function of `of`, a part of its other members.
fn settles_function(point: &Point, n: u8, set: VarSet, variable: u8, of: VarSet) -> bool
    requires few { n ≤ most_variables }
    requires below { set < 2 ^ n }
    requires variable { variable < n }
    ensures { OnTrue result (Settles n (point_of point.now) set (fact.Function variable of)) }
{
    let rest = set.minus(VarSet::single(variable));
    if set.has(variable) && of.inside(rest) {
        have_one_entropy(point, set, rest)
    } else {
        false
    }
}

/// Whether `set` has the same value without its member `variable`, which is constant.
fn settles_constant(point: &Point, n: u8, set: VarSet, variable: u8) -> bool
    requires few { n ≤ most_variables }
    requires below { set < 2 ^ n }
    requires variable { variable < n }
    ensures { OnTrue result (Settles n (point_of point.now) set (fact.Constant variable)) }
{
    settles_function(point, n, set, variable, VarSet::empty())
}

/// Whether `set` has the same value with `other` in the place of its member `variable`, where each is a function of the other, and
/// whether the set with `other` comes before it.
fn settles_equal(point: &Point, n: u8, set: VarSet, variable: u8, other: u8) -> bool
    requires few { n ≤ most_variables }
    requires below { set < 2 ^ n }
    requires variable { variable < n }
    requires other { other < n }
    ensures { OnTrue result (Settles n (point_of point.now) set (fact.Equal variable other)) }
{
    let rest = set.minus(VarSet::single(variable));
    let exchanged = rest.union(VarSet::single(other));
    if set.has(variable) && exchanged.number() < set.number() {
        have_one_entropy(point, set, exchanged)
    } else {
        false
    }
}

/// Whether `set` is that of one variable, of the first `n`.
fn is_single(set: VarSet, n: u8) -> bool
    requires { n ≤ most_variables }
    ensures { OnFalse result ((i : ℕ) → i < n → set ≢ 2 ^ i) }
{
    for variable in 0..n {
        if set == VarSet::single(variable) {
            return true;
        }
    }
    false
}

/// Whether `set` isn't that of one variable, lies in the independent set `whole`, and has the sum of its members' values as its value.
fn settles_independent(point: &Point, n: u8, set: VarSet, whole: VarSet) -> bool
    requires few { n ≤ most_variables }
    requires below { whole < 2 ^ n }
    ensures { OnTrue result (Settles n (point_of point.now) set (fact.Independent whole)) }
{
    if set.inside(whole) && !is_single(set, n) {
        are_independent(point, n, set)
    } else {
        false
    }
}

/// Whether a set's value follows from a fact and from the values of the sets before it.
#[tactic(auto, using(crate::proofs::PointLemmas::entropy_settles))]
fn settles(fact: &Fact, point: &Point, space: Space, set: VarSet) -> bool
    requires space { IsSpace space }
    requires below { set < 2 ^ space.variables }
    ensures { OnTrue result (Settles space.variables (point_of point.now) set fact.now) }
{
    if !is_over(fact, space) {
        return false;
    }
    let n = space.variables;
    match fact {
        Fact::Entropy { set: other, value } => {
            if *other == set {
                are_equal(entropy(point, set), *value)
            } else {
                false
            }
        }
        Fact::Rate { .. } => false,
        Fact::Constant { variable } => settles_constant(point, n, set, *variable),
        Fact::Equal { variable, other } => settles_equal(point, n, set, *variable, *other),
        Fact::Function { variable, of } => settles_function(point, n, set, *variable, *of),
        Fact::Independent { set: whole } => settles_independent(point, n, set, *whole),
    }
}

/// Whether a set's value follows from one of the facts and from the values of the sets before it.
pub fn follows(facts: &[Fact], point: &Point, space: Space, set: VarSet) -> bool
    requires space { IsSpace space }
    requires below { set < 2 ^ space.variables }
    ensures { OnTrue result (Follows space.variables (point_of point.now) facts.now set) }
{
    if set == VarSet::empty() {
        return true;
    }
    for fact in facts {
        if settles(fact, point, space, set) {
            return true;
        }
    }
    false
}

/// Whether the value of each set follows from the facts.
fn tell_sets(facts: &[Fact], point: &Point, space: Space) -> bool
    requires { IsSpace space }
    ensures { OnTrue result ((s : ℕ) → s < 2 ^ space.variables → Follows space.variables (point_of point.now) facts.now s) }
{
    for number in 0..1u32 << space.variables {
        if !follows(facts, point, space, VarSet::from_number(number as u16)) {
            return false;
        }
    }
    true
}

/// Whether the fact gives the value of `rate`.
fn tells_rate(fact: &Fact, rate: u8) -> bool
    ensures { OnTrue result (TellsRate rate fact.now) }
{
    match fact {
        Fact::Rate { rate: other, .. } => *other == rate,
        _ => false,
    }
}

/// Whether one of the facts gives the value of `rate`.
fn tell_rate(facts: &[Fact], rate: u8) -> bool
    ensures { OnTrue result (TellRate facts.now rate) }
{
    for fact in facts {
        if tells_rate(fact, rate) {
            return true;
        }
    }
    false
}

/// Whether the facts give the values of the first `rates` rates.
fn tell_rates(facts: &[Fact], rates: u8) -> bool
    ensures { OnTrue result ((r : ℕ) → r < rates → TellRate facts.now r) }
{
    for rate in 0..rates {
        if !tell_rate(facts, rate) {
            return false;
        }
    }
    true
}

/// Whether facts determine a point: they are true of it, and of no other polymatroid with rates.
pub fn determine(facts: &[Fact], point: &Point, space: Space) -> bool
    requires { IsSpace space }
    ensures { OnTrue result (Determine space.variables space.rates facts.now (point_of point.now)) }
{
    if !are_facts_of(facts, point, space) {
        return false;
    }
    if !tell_sets(facts, point, space) {
        return false;
    }
    tell_rates(facts, space.rates)
}
