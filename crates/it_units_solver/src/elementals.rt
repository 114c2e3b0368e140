//! Tests: the elemental inequalities with their numbers, rows and expansions, by slow loops.

ghost use Rattle.std.specs.Prelude.{◌≡◌, ◌≤◌, ◌<◌, IfOk, bit_and};

use it_elemental::{Elemental, count, expand_conditional, expand_mutual, first_broken, parts, row};
use it_polymatroid::{Substitution, Table, is_polymatroid, pull_back};
use it_space::VarSet;
use std::alloc::{AllocError, Global};

/// Whether inequality number `index` of n variables is `inequality`.
fn is_at(n: u8, index: u32, inequality: Elemental) -> bool
    requires some { 1 ≤ n }
    requires few { n ≤ 6 }
{
    index < count(n) && parts(n, index) == inequality
}

/// The number after the inequalities of the pair `left` and `right` of n variables, by loops over all sets, if these have the numbers
/// from `first` on.
fn pair_listed(n: u8, left: u8, right: u8, first: u32) -> Option<u32>
    requires some { 1 ≤ n }
    requires few { n ≤ 6 }
{
    let mut index = first;
    for number in 0..1u16 << n {
        let given = VarSet::from_number(number);
        if !given.has(left) && !given.has(right) {
            if !is_at(n, index, Elemental::Mutual { left, right, given }) {
                return None;
            }
            index = index.wrapping_add(1);
        }
    }
    Some(index)
}

/// The number after those of all pairs, if the inequalities of n variables are listed pair by pair.
fn pairs_listed(n: u8) -> Option<u32>
    requires some { 1 ≤ n }
    requires few { n ≤ 6 }
{
    let mut index = u32::from(n);
    for left in 0..n {
        for right in left + 1..n {
            index = pair_listed(n, left, right, index)?;
        }
    }
    Some(index)
}

/// Whether the inequalities of n variables are listed: those of each variable and then those of each pair.
fn are_listed(n: u8) -> bool
    requires some { 1 ≤ n }
    requires few { n ≤ 6 }
{
    for of in 0..n {
        if !is_at(n, u32::from(of), Elemental::Conditional { of }) {
            return false;
        }
    }
    pairs_listed(n) == Some(count(n))
}

#[test]
fn numbers_name_the_inequalities_in_order(rt: HostRuntime) {
    for n in 1..=6 {
        assert!(rt; are_listed(n));
    }
}

/// Whether there are as many inequalities as by Yeung.
fn are_as_many() -> bool {
    [count(1), count(2), count(3), count(4)] == [1, 3, 9, 28]
        && [count(5), count(6), count(7), count(8)] == [85, 246, 679, 1800]
}

/// Whether I(Y;Z | X), of the variables X, Y, Z, has its number and its row.
fn is_eighth(alloc: Global) -> bool {
    let inequality = Elemental::Mutual {
        left: 1,
        right: 2,
        given: VarSet::from_number(1),
    };
    let terms: &[(u32, i128)] = &[(1, -1), (3, 1), (5, 1), (7, -1)];
    if !is_at(3, 8, inequality) || count(3) != 9 {
        return false;
    }
    match row(alloc, 3, 8) {
        Ok(row) => row.terms() == terms,
        Err(_) => false,
    }
}

#[test]
fn there_are_as_many_as_yeung_counts_each_with_its_row(rt: HostRuntime) {
    assert!(rt; are_as_many());
    assert!(rt; is_eighth(rt.alloc()));
}

/// Whether the entropy of `of` given `given`, sets of three variables, expands to the inequalities `numbers`.
fn is_conditional(alloc: Global, of: u16, given: u16, numbers: &[u32]) -> bool
    requires of { of < 8 }
    requires given { given < 8 }
    requires apart { bit_and of given ≡ 0 }
{
    let (of, given) = (VarSet::from_number(of), VarSet::from_number(given));
    match expand_conditional(alloc, 3, of, given) {
        Ok(list) => list.as_slice() == numbers,
        Err(_) => false,
    }
}

/// Whether the mutual information of `left` and `right` given `given`, sets of three variables, expands to the inequalities `numbers`.
fn is_mutual(alloc: Global, left: u16, right: u16, given: u16, numbers: &[u32]) -> bool
    requires left { left < 8 }
    requires right { right < 8 }
    requires given { given < 8 }
    requires apart { bit_and left right ≡ 0 }
    requires left_apart { bit_and left given ≡ 0 }
    requires right_apart { bit_and right given ≡ 0 }
{
    let (left, right) = (VarSet::from_number(left), VarSet::from_number(right));
    match expand_mutual(alloc, 3, left, right, VarSet::from_number(given)) {
        Ok(list) => list.as_slice() == numbers,
        Err(_) => false,
    }
}

/// Whether expansions list their inequalities.
fn expand(alloc: Global) -> bool {
    is_conditional(alloc, 6, 1, &[1, 8, 2])
        && is_conditional(alloc, 0, 1, &[])
        && is_mutual(alloc, 1, 6, 0, &[3, 6])
        && is_mutual(alloc, 1, 0, 6, &[])
}

#[test]
fn expansions_list_their_inequalities(rt: HostRuntime) {
    assert!(rt; expand(rt.alloc()));
}

/// The set function of two variables with these values.
fn table(alloc: Global, x: u8, y: u8, both: u8) -> Result<Table, AllocError>
    ensures { IfOk result (λ t. t.variables ≡ 2) }
{
    let list = vec![in alloc; 0, x as i128, y as i128, both as i128]?;
    Ok(Table::new(2, list))
}

/// Whether `broken` is the first inequality that the set function of these values breaks; only where there is none it is a polymatroid.
fn breaks(alloc: Global, x: u8, y: u8, both: u8, broken: Option<u32>) -> bool {
    match table(alloc, x, y, both) {
        Ok(table) => {
            first_broken(&table) == Ok(broken) && is_polymatroid(&table) == broken.is_none()
        }
        Err(_) => false,
    }
}

/// Whether set functions are tested by their first broken inequality.
fn are_tested(alloc: Global) -> bool {
    breaks(alloc, 0, 1, 1, None)
        && breaks(alloc, 1, 1, 3, Some(2))
        && breaks(alloc, 2, 1, 1, Some(1))
}

/// One variable that stands for both of two, whose entropies are 1 and 1 and together 2.
fn pulled_back(alloc: Global) -> Result<Table, AllocError>
    ensures { IfOk result (λ t. t.variables ≡ 1) }
{
    let table = table(alloc, 1, 1, 2)?;
    let by = Substitution::new(vec![in alloc; VarSet::from_number(3)]?);
    pull_back(alloc, &table, &by)
}

/// Whether a variable that stands for a set has the set's entropy.
fn stands_for_a_set(alloc: Global) -> bool {
    match pulled_back(alloc) {
        Ok(pulled) => {
            pulled.variables() == 1
                && pulled.at(VarSet::empty()) == 0
                && pulled.at(VarSet::single(0)) == 2
        }
        Err(_) => false,
    }
}

#[test]
fn tables_are_tested_and_pulled_back(rt: HostRuntime) {
    assert!(rt; are_tested(rt.alloc()));
    assert!(rt; stands_for_a_set(rt.alloc()));
}
