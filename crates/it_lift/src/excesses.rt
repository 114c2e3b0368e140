//! The excess at a set: the difference that is left there when weights that add up over closed sets are used over all sets.
ghost use Rattle.std.specs.Prelude.{◌≡◌, ◌<◌, ◌+◌, ℤ, pos, ◌+ℤ◌, ◌-ℤ◌, ◌*ℤ◌, cond, All, OkIff, OnOk, OnErr, IfOk};
ghost use Rattle.it_number.specs.Limit.{IsWithin};
ghost use Rattle.it_space.specs.Rows.{value};
ghost use Rattle.it_polymatroid.specs.Certificates.{combination};
ghost use Rattle.it_lift.specs.Fits.{FallFits};
ghost use Rattle.it_elemental.specs.Generators.{generators_of};
ghost use Rattle.it_lift.specs.Lifts.{with_empty};
ghost use Rattle.it_lift.specs.ProblemLifts.{coefficients_at, excess_at, ExcessesFit, IsExcessOrWide};

use it_closure::Dependences;
use it_elemental::coefficient_at;
use it_fraction::{Wide, difference, signed_product, sum};
use it_problems::Problem;
use it_space::{Certificate, Row, VarSet};

/// The excess at `set`, which isn't empty: the scale times the target's coefficient, less the weights times the generators'
/// coefficients. `Wide` if a product or a partial sum passes the limit.
pub fn excess(
    problem: &Problem,
    target: &Row,
    collapsed: &Certificate,
    set: VarSet,
) -> Result<i128, Wide>
    requires listed { All (λ p. p.0 < (generators_of problem.now).count) collapsed.now.weights.items }
    requires some { 0 < set }
    ensures { IsExcessOrWide problem.now target.now collapsed.now set result }
{
    let whole = signed_product(collapsed.scale, target.coefficient(set.number() as u32))?;
    left_of(problem, collapsed.weights.as_slice(), set, whole)
}

/// `whole` less the weights times the generators' coefficients at `set`.
fn left_of(
    problem: &Problem,
    weights: &[(u32, i128)],
    set: VarSet,
    whole: i128,
) -> Result<i128, Wide>
    requires listed { All (λ p. p.0 < (generators_of problem.now).count) weights.now }
    requires some { 0 < set }
    ensures { OkIff result (FallFits whole weights.now (coefficients_at problem.now set)) (whole -ℤ combination weights.now (coefficients_at problem.now set)) }
{
    let mut left = whole;
    for (index, weight) in weights {
        left = less_product(left, *weight, coefficient_at_set(problem, *index, set))?;
    }
    Ok(left)
}

/// The coefficient of generator `index` at `set`, which isn't empty.
fn coefficient_at_set(problem: &Problem, index: u32, set: VarSet) -> i128
    requires listed { index < (generators_of problem.now).count }
    requires some { 0 < set }
    ensures { result ≡ coefficients_at problem.now set index }
{
    coefficient_at(problem, index, set.number() as u32)
}

/// `sum` less the product of `a` and `b`; `Wide` if the product or the difference passes the limit.
fn less_product(sum: i128, a: i128, b: i128) -> Result<i128, Wide>
    ensures { OkIff result (IsWithin (a *ℤ b) × IsWithin (sum -ℤ a *ℤ b)) (sum -ℤ a *ℤ b) }
{
    difference(sum, signed_product(a, b)?)
}

/// The excess at the empty set: the negated sum of those at the nonempty sets that have its closure. `Wide` if a number of the excess
/// at any nonempty set, or a partial sum, passes the limit.
pub fn empty_excess(
    problem: &Problem,
    dependences: &Dependences,
    target: &Row,
    collapsed: &Certificate,
) -> Result<i128, Wide>
    requires space { dependences.now.space ≡ problem.now.space }
    requires listed { All (λ p. p.0 < (generators_of problem.now).count) collapsed.now.weights.items }
    ensures fits { OnOk result (ExcessesFit problem.now dependences.now target.now collapsed.now) }
    ensures value { IfOk result (λ v. v ≡ with_empty dependences.now.space.variables dependences.now.list (excess_at problem.now target.now collapsed.now) 0) }
    ensures within { IfOk result IsWithin }
    ensures wide { OnErr result (¬ (ExcessesFit problem.now dependences.now target.now collapsed.now)) }
{
    problem.facts();
    let null = dependences.close(VarSet::empty());
    let mut total: i128 = 0;
    for number in 1..1u32 << problem.space().variables {
        let set = VarSet::from_number(number as u16);
        let left = excess(problem, target, collapsed, set)?;
        total = plus_if(total, dependences.close(set) == null, left)?;
    }
    Ok(-total)
}

/// `total`, with `number` added if `wanted`; `Wide` if the sum passes the limit.
fn plus_if(total: i128, wanted: bool, number: i128) -> Result<i128, Wide>
    requires within { IsWithin total }
    ensures { OkIff result (IsWithin (total +ℤ cond wanted number (pos 0))) (total +ℤ cond wanted number (pos 0)) }
{
    if wanted {
        sum(total, number)
    } else {
        Ok(total)
    }
}
