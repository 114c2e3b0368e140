//! From weights of summands over closed sets to a certificate over all sets.
//!
//! The inequality of closed sets A and B given C is I(A;B|A∩B) plus h(A∩B) - h(C): a sum of elemental inequalities over all sets.
//! The excess that is left at a set is then moved to its closure by the dependences.
ghost use Rattle.std.specs.Prelude.{◌≡◌, ◌<◌, ◌≤◌, ◌^◌, bit_and};
ghost use Rattle.std.specs.Bool.{OnTrue};
ghost use Rattle.it_space.specs.Spaces.{most_variables};

use crate::numbers::at;
use crate::summands::{Summand, SummandWeight};
use it_closure::{Dependence, Dependences, first_open};
use it_elemental::{count, expand_conditional, expand_mutual, generator_count, row};
use it_fraction::Wide;
use it_orbits::Submodular;
use it_problems::Problem;
use it_space::{Certificate, Row, RowFault, VarSet, with_product};
use it_vectors::{common_divisor, short_product};
use std::alloc::{AllocError, Global};

/// Whether `set` is a set of the first `n` variables.
fn is_below(n: u8, set: VarSet) -> bool
    requires { n ≤ most_variables }
    ensures { OnTrue result (set < 2 ^ n) }
{
    u32::from(set.number()) < 1u32 << n
}

/// Whether two sets have no variable in common.
fn are_apart(a: VarSet, b: VarSet) -> bool
    ensures { OnTrue result (bit_and a b ≡ 0) }
{
    a.meet(b).number() == 0
}

/// The numbers of the inequalities that sum to I(a; b | c), if the sets are disjoint; none otherwise.
fn mutual(alloc: Global, n: u8, a: VarSet, b: VarSet, c: VarSet) -> Result<Vec<u32>, AllocError>
    requires some { 1 ≤ n }
    requires few { n ≤ most_variables }
{
    if is_below(n, a) && is_below(n, b) && is_below(n, c) {
        if are_apart(a, b) && are_apart(a, c) && are_apart(b, c) {
            return expand_mutual(alloc, n, a, b, c);
        }
    }
    Ok(Vec::new(alloc))
}

/// The numbers of the inequalities that sum to H(a | k), if the sets are disjoint; none otherwise.
fn conditional(alloc: Global, n: u8, a: VarSet, k: VarSet) -> Result<Vec<u32>, AllocError>
    requires some { 1 ≤ n }
    requires few { n ≤ most_variables }
{
    if is_below(n, a) && is_below(n, k) && are_apart(a, k) {
        return expand_conditional(alloc, n, a, k);
    }
    Ok(Vec::new(alloc))
}

/// Whole numbers by place, to which products are added.
#[derive(Drop)]
struct Totals {
    items: Vec<i128>,
}

impl Totals {
    /// Zeros at `count` places.
    fn zeros(alloc: Global, count: usize) -> Result<Totals, AllocError> {
        Ok(Totals {
            items: Vec::from_elem(alloc, 0i128, count)?,
        })
    }

    /// The number at `place`.
    fn at(&self, place: usize) -> i128 {
        at(self.items.as_slice(), place, 0)
    }

    /// Adds the product of `a` and `b` at `place`, if there is such a place.
    fn add(&mut self, place: usize, a: i128, b: i128) -> Result<(), Wide> {
        if place < self.items.len() {
            self.items[place] = with_product(self.items[place], a, b)?;
        }
        Ok(())
    }

    /// Adds `amount` at each of `places`.
    fn add_each(&mut self, places: &[u32], amount: i128) -> Result<(), Wide> {
        for place in places {
            self.add(*place as usize, amount, 1)?;
        }
        Ok(())
    }

    /// Adds `times` times `row`.
    fn add_row(&mut self, row: &Row, times: i128) -> Result<(), Wide> {
        for (coordinate, number) in row.terms() {
            self.add(*coordinate as usize, *number, times)?;
        }
        Ok(())
    }
}

/// Adds `amount` times h(to) - h(from) to the weights.
fn add_rise(
    alloc: Global,
    weights: &mut Totals,
    n: u8,
    from: VarSet,
    to: VarSet,
    amount: i128,
) -> Result<(), RowFault>
    requires some { 1 ≤ n }
    requires few { n ≤ most_variables }
{
    let indexes = conditional(alloc, n, to.minus(from), from)?;
    weights.add_each(indexes.as_slice(), amount)?;
    Ok(())
}

/// Adds `amount` times h(left) + h(right) - h(left∪right) - h(given) to the weights.
fn add_inequality(
    alloc: Global,
    weights: &mut Totals,
    n: u8,
    inequality: Submodular,
    amount: i128,
) -> Result<(), RowFault>
    requires some { 1 ≤ n }
    requires few { n ≤ most_variables }
{
    let Submodular { left, right, given } = inequality;
    let both = left.meet(right);
    let indexes = mutual(alloc, n, left.minus(right), right.minus(left), both)?;
    weights.add_each(indexes.as_slice(), amount)?;
    add_rise(alloc, weights, n, given, both, amount)
}

/// Adds `amount` times a summand.
fn add_summand(
    alloc: Global,
    weights: &mut Totals,
    n: u8,
    summand: Summand,
    amount: i128,
) -> Result<(), RowFault>
    requires some { 1 ≤ n }
    requires few { n ≤ most_variables }
{
    match summand {
        Summand::Inequality(inequality) => add_inequality(alloc, weights, n, inequality, amount),
        Summand::Constraint { generator, negated } => {
            let sign = if negated { -1 } else { 1 };
            weights.add(generator as usize, amount, sign)?;
            Ok(())
        }
    }
}

/// Adds `amount` times the generators that lead from `set` to its union with the set that `by` determines.
fn add_turn(
    alloc: Global,
    weights: &mut Totals,
    n: u8,
    set: VarSet,
    by: Dependence,
    amount: i128,
) -> Result<(), RowFault>
    requires some { 1 ≤ n }
    requires few { n ≤ most_variables }
{
    let inequality = Submodular {
        left: by.to,
        right: set,
        given: by.from,
    };
    add_inequality(alloc, weights, n, inequality, amount)?;
    let sign = if by.negated { 1 } else { -1 };
    weights.add(by.generator as usize, amount, sign)?;
    Ok(())
}

/// Adds `amount` times the generators that lead from `set` to its closure, one dependence after the other.
fn add_way(
    alloc: Global,
    weights: &mut Totals,
    n: u8,
    list: &[Dependence],
    set: VarSet,
    amount: i128,
) -> Result<(), RowFault>
    requires some { 1 ≤ n }
    requires few { n ≤ most_variables }
{
    let mut all = set;
    // each round adds a variable
    for _ in 0..n {
        match first_open(list, all) {
            Some(open) => {
                let next = all.union(open.to);
                add_turn(alloc, weights, n, all, open, amount)?;
                all = next;
            }
            None => return Ok(()),
        }
    }
    Ok(())
}

/// Moves the excess at `set` to its closure.
fn move_excess(
    alloc: Global,
    weights: &mut Totals,
    dependences: &Dependences,
    set: VarSet,
    excess: i128,
) -> Result<(), RowFault> {
    let n = dependences.space().variables;
    if excess > 0 {
        add_way(alloc, weights, n, dependences.list(), set, excess)
    } else if excess < 0 {
        let closure = dependences.close(set);
        add_rise(alloc, weights, n, set, closure, excess.wrapping_neg())
    } else {
        Ok(())
    }
}

/// Moves the excesses at all sets to their closures. The one at the empty set is the negated sum of those at the sets with its closure.
fn move_excesses(
    alloc: Global,
    weights: &mut Totals,
    dependences: &Dependences,
    excesses: &Totals,
) -> Result<(), RowFault> {
    let nothing = dependences.close(VarSet::empty());
    let mut empty: i128 = 0;
    for number in 1..1u32 << dependences.space().variables {
        let set = VarSet::from_number(number as u16);
        let excess = excesses.at(number as usize);
        if dependences.close(set) == nothing {
            empty = with_product(empty, excess, -1)?;
        }
        move_excess(alloc, weights, dependences, set, excess)?;
    }
    move_excess(alloc, weights, dependences, VarSet::empty(), empty)
}

/// The excess at each set: `scale` times the target, less the weights times their generators.
fn excesses(
    alloc: Global,
    problem: &Problem,
    target: &Row,
    scale: i128,
    weights: &Totals,
) -> Result<Totals, RowFault> {
    let n = problem.space().variables;
    let mut left = Totals::zeros(alloc, 1usize << n)?;
    left.add_row(target, scale)?;
    for generator in 0..count(n) {
        let weight = weights.at(generator as usize);
        if weight != 0 {
            left.add_row(&row(alloc, n, generator)?, weight.wrapping_neg())?;
        }
    }
    let mut place = count(n) as usize;
    for constraint in problem.constraints() {
        left.add_row(&constraint.row, weights.at(place).wrapping_neg())?;
        place = place.saturating_add(1);
    }
    Ok(left)
}

/// The least common multiple of the denominators. `None` if it is large, or a denominator is 0.
fn common_denominator(weights: &[SummandWeight]) -> Option<u64> {
    let mut all: u64 = 1;
    for weight in weights {
        if weight.denominator == 0 {
            return None;
        }
        all = short_product(
            all,
            weight.denominator / common_divisor(weight.denominator, all),
        )?;
    }
    Some(all)
}

/// The nonzero weights, each after its generator's number.
fn terms(alloc: Global, weights: &Totals) -> Result<Vec<(u32, i128)>, AllocError> {
    let mut terms = Vec::new(alloc);
    for place in 0..weights.items.len() {
        if let Ok(generator) = u32::try_from(place) {
            let weight = weights.at(place);
            if weight != 0 {
                terms.push((generator, weight))?;
            }
        }
    }
    Ok(terms)
}

/// The weights of the generators by those of summands, times `scale`.
fn generator_weights(
    alloc: Global,
    problem: &Problem,
    weights: &[SummandWeight],
    scale: u64,
) -> Result<Totals, RowFault> {
    let mut all = Totals::zeros(alloc, generator_count(problem) as usize)?;
    for weight in weights {
        if weight.denominator != 0 {
            let amount = i128::from(scale / weight.denominator).wrapping_mul(i128::from(
                weight.number,
            ));
            let n = problem.space().variables;
            add_summand(alloc, &mut all, n, weight.summand, amount)?;
        }
    }
    Ok(all)
}

/// The certificate by the weights of summands. `Wide` if a number is too large.
pub fn certificate(
    alloc: Global,
    problem: &Problem,
    dependences: &Dependences,
    target: &Row,
    weights: &[SummandWeight],
) -> Result<Certificate, RowFault> {
    let Some(scale) = common_denominator(weights) else {
        return Err(RowFault::Wide);
    };
    let mut all = generator_weights(alloc, problem, weights, scale)?;
    let scale = i128::from(scale);
    let left = excesses(alloc, problem, target, scale, &all)?;
    move_excesses(alloc, &mut all, dependences, &left)?;
    Ok(Certificate {
        scale,
        weights: terms(alloc, &all)?,
    })
}
