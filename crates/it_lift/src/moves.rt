//! Amounts added to the weights of the inequalities and equations that lead from a set to its closure.
ghost use Rattle.std.specs.Prelude.{◌≡◌, ◌<◌, ◌≤◌, ◌^◌, pos, bit_and, length, flat_map, All, OnOk, IfErr};
ghost use Rattle.it_number.specs.Limit.{IsWithin};
ghost use Rattle.it_space.specs.Sets.{IsInside};
ghost use Rattle.it_polymatroid.specs.Elementals.{elementals};
ghost use Rattle.it_elemental.specs.Expansions.{members, mutual_expansion, conditional_expansion};
ghost use Rattle.it_closure.specs.Closures.{way};
ghost use Rattle.it_closure.specs.Collapse.{AreDependences};
ghost use Rattle.it_lift.specs.Lifts.{each_weight, turn_moves, moves_at};
ghost use Rattle.it_lift.specs.Sums.{AreWeightsAdded, AreSumsWide};
ghost use Rattle.it_space.specs.Spaces.{most_variables};

use crate::sums::WeightSums;
use it_closure::{Dependence, Dependences, first_open};
use it_elemental::{expand_conditional, expand_mutual};
use it_space::{RowFault, VarSet};
use std::alloc::Global;

/// The sets of a mutual information I(left; right | given).
#[derive(Clone, Copy, Drop)]
struct MutualInformation {
    left: VarSet,
    right: VarSet,
    given: VarSet,
}

/// Adds `amount` to the weights of the inequalities that sum to the mutual information of `sets`.
fn add_mutual(
    alloc: Global,
    sums: &mut WeightSums,
    n: u8,
    sets: MutualInformation,
    amount: u128,
) -> Result<(), RowFault>
    requires some { 1 ≤ n }
    requires few { n ≤ most_variables }
    requires left_below { sets.left < 2 ^ n }
    requires right_below { sets.right < 2 ^ n }
    requires given_below { sets.given < 2 ^ n }
    requires left_apart_from_right { bit_and sets.left sets.right ≡ 0 }
    requires left_apart_from_given { bit_and sets.left sets.given ≡ 0 }
    requires right_apart_from_given { bit_and sets.right sets.given ≡ 0 }
    requires complete { length (elementals n) ≤ length sums.old }
    requires within { amount < 2 ^ 127 }
    ensures added { OnOk result (AreWeightsAdded sums.old sums.new (each_weight n (pos amount) (mutual_expansion (members n sets.left) (members n sets.right) sets.given))) }
    ensures wide { IfErr result (AreSumsWide sums.old (each_weight n (pos amount) (mutual_expansion (members n sets.left) (members n sets.right) sets.given))) }
{
    let indexes = expand_mutual(alloc, n, sets.left, sets.right, sets.given)?;
    sums.add_each(indexes.as_slice(), amount)?;
    Ok(())
}

/// Adds `amount` to the weights of the inequalities that sum to H(a | k).
fn add_conditional(
    alloc: Global,
    sums: &mut WeightSums,
    n: u8,
    a: VarSet,
    k: VarSet,
    amount: u128,
) -> Result<(), RowFault>
    requires some { 1 ≤ n }
    requires few { n ≤ most_variables }
    requires a_below { a < 2 ^ n }
    requires k_below { k < 2 ^ n }
    requires disjoint { bit_and a k ≡ 0 }
    requires complete { length (elementals n) ≤ length sums.old }
    requires within { amount < 2 ^ 127 }
    ensures added { OnOk result (AreWeightsAdded sums.old sums.new (each_weight n (pos amount) (conditional_expansion n (members n a) k))) }
    ensures wide { IfErr result (AreSumsWide sums.old (each_weight n (pos amount) (conditional_expansion n (members n a) k))) }
{
    let indexes = expand_conditional(alloc, n, a, k)?;
    sums.add_each(indexes.as_slice(), amount)?;
    Ok(())
}

/// Adds `amount` to the weights of the generators that lead from `set` to its union with the set that `by` determines.
fn add_turn(
    alloc: Global,
    sums: &mut WeightSums,
    n: u8,
    set: VarSet,
    by: Dependence,
    amount: u128,
) -> Result<(), RowFault>
    requires some { 1 ≤ n }
    requires few { n ≤ most_variables }
    requires below { set < 2 ^ n }
    requires to_below { by.to < 2 ^ n }
    requires known { IsInside by.from set }
    requires inside { IsInside by.from by.to }
    requires place { by.generator < length sums.old }
    requires complete { length (elementals n) ≤ length sums.old }
    requires within { amount < 2 ^ 127 }
    ensures added { OnOk result (AreWeightsAdded sums.old sums.new (turn_moves n (pos amount) (set, by))) }
    ensures wide { IfErr result (AreSumsWide sums.old (turn_moves n (pos amount) (set, by))) }
{
    let shared = set.meet(by.to);
    let sets = MutualInformation {
        left: by.to.minus(set),
        right: set.minus(by.to),
        given: shared,
    };
    add_mutual(alloc, sums, n, sets, amount)?;
    add_conditional(alloc, sums, n, shared.minus(by.from), by.from, amount)?;
    sums.add(by.generator, amount, !by.negated)?;
    Ok(())
}

/// Adds `amount` to the weights of the generators that lead from `set` to its closure, one dependence after the other.
fn add_way(
    alloc: Global,
    sums: &mut WeightSums,
    n: u8,
    list: &[Dependence],
    set: VarSet,
    amount: u128,
) -> Result<(), RowFault>
    requires some { 1 ≤ n }
    requires few { n ≤ most_variables }
    requires below { set < 2 ^ n }
    requires dependences { AreDependences n list.now }
    requires places { All (λ d. d.generator < length sums.old) list.now }
    requires complete { length (elementals n) ≤ length sums.old }
    requires within { amount < 2 ^ 127 }
    ensures added { OnOk result (AreWeightsAdded sums.old sums.new (flat_map (turn_moves n (pos amount)) (way n list.now set))) }
    ensures wide { IfErr result (AreSumsWide sums.old (flat_map (turn_moves n (pos amount)) (way n list.now set))) }
{
    let mut all = set;
    // a `loop` with `match`, since the proof uses the equation of `None` at the return
    loop {
        match first_open(list, all) {
            Some(open) => {
                let next = all.union(open.to);
                add_turn(alloc, sums, n, all, open, amount)?;
                all = next;
            }
            None => return Ok(()),
        }
    }
}

/// Adds to the weights of the generators that cancel the excess at `set`, by its way to its closure.
pub fn add_moves(
    alloc: Global,
    sums: &mut WeightSums,
    dependences: &Dependences,
    set: VarSet,
    excess: i128,
) -> Result<(), RowFault>
    requires below { set < 2 ^ dependences.now.space.variables }
    requires places { All (λ d. d.generator < length sums.old) dependences.now.list }
    requires complete { length (elementals dependences.now.space.variables) ≤ length sums.old }
    requires within { IsWithin excess }
    ensures added { OnOk result (AreWeightsAdded sums.old sums.new (moves_at dependences.now.space.variables dependences.now.list set excess)) }
    ensures wide { IfErr result (AreSumsWide sums.old (moves_at dependences.now.space.variables dependences.now.list set excess)) }
{
    let n = dependences.space().variables;
    let amount = excess.unsigned_abs();
    if excess > 0 {
        add_way(alloc, sums, n, dependences.list(), set, amount)
    } else if excess < 0 {
        add_conditional(
            alloc,
            sums,
            n,
            dependences.close(set).minus(set),
            set,
            amount,
        )
    } else {
        Ok(())
    }
}
