//! Substitutions of sets for variables, and tables pulled back.
ghost use Rattle.std.specs.Prelude.{◌≡◌, ◌<◌, ◌≤◌, ◌^◌, ℕ, pos, length, slice_index_or, All, IfOk, OnOk};
ghost use Rattle.it_number.specs.Limit.{IsWithin};
ghost use Rattle.it_polymatroid.specs.Polymatroid.{IsPolymatroid};
ghost use Rattle.it_polymatroid.specs.Substitutions.{union_of_images};
ghost use Rattle.it_polymatroid.specs.Tables.{IsTable, value_at};
ghost use Rattle.it_space.specs.Spaces.{most_variables};

use crate::tables::Table;
use it_space::VarSet;
use std::alloc::{AllocError, Global};
use std::marker::Model;

/// For each variable, in order of their numbers, the set of other variables that it stands for.
#[derive(Debug, Drop)]
pub struct Substitution {
    sets: Vec<VarSet>,
}

impl Model for Substitution {
    ghost use Rattle.std.specs.Prelude.{List, ℕ};

    ghost Value = { List ℕ };

    ghost view = { λ s. s.sets.items };
}

impl Substitution {
    /// The substitution of `sets` for the variables 0, 1, 2, .. in order.
    pub fn new(sets: Vec<VarSet>) -> Substitution
        ensures { result ≡ sets.items }
    {
        Substitution { sets }
    }

    /// The number of variables that are replaced.
    fn len(&self) -> usize
        ensures { result ≡ length self.now }
    {
        self.sets.len()
    }

    /// The union of the sets that the members of `set` stand for.
    fn union_of_images(&self, set: VarSet) -> VarSet
        requires { length self.now ≤ 16 }
        ensures { result ≡ union_of_images self.now set }
    {
        union_of_images(self.sets.as_slice(), set)
    }
}

/// The union of the sets that the members of `of` stand for, where variable i stands for `sets[i]`.
pub fn union_of_images(sets: &[VarSet], of: VarSet) -> VarSet
    requires { length sets.now ≤ 16 }
    ensures { result ≡ union_of_images sets.now of }
{
    let mut union = VarSet::empty();
    // by index, since it is the variable's number, and the invariant is about the sets from i on
    for i in 0..sets.len() {
        if of.has(i as u8) {
            union = union.union(sets[i]);
        }
    }
    union
}

/// The function on the sets of the variables of `by` that has at each set the value of `table` at the set that it stands for.
pub fn pull_back(alloc: Global, table: &Table, by: &Substitution) -> Result<Table, AllocError>
    requires some { 1 ≤ length by.now }
    requires few { length by.now ≤ most_variables }
    requires within { All (λ s. s < 2 ^ table.now.variables) by.now }
    ensures variables { IfOk result (λ t. t.variables ≡ length by.now) }
    ensures values { IfOk result (λ t. (s : ℕ) → s < 2 ^ length by.now → value_at t s ≡ value_at table.now (union_of_images by.now s)) }
    ensures polymatroid { IfOk result (λ t. IsPolymatroid table.now.variables (value_at table.now) → IsPolymatroid t.variables (value_at t)) }
{
    let variables = by.len() as u8;
    let values = pulled_values(alloc, table, by)?;
    Ok(Table::new(variables, values))
}

/// The values of `table` at the sets that the sets of the variables of `by` stand for, by ascending set.
fn pulled_values(alloc: Global, table: &Table, by: &Substitution) -> Result<Vec<i128>, AllocError>
    requires few { length by.now ≤ most_variables }
    requires within { All (λ s. s < 2 ^ table.now.variables) by.now }
    ensures complete { IfOk result (λ v. length v.items ≡ 2 ^ length by.now) }
    ensures within { IfOk result (λ v. All IsWithin v.items) }
    ensures table { OnOk result (IsTable table.now) }
    ensures values { IfOk result (λ v. (s : ℕ) → s < 2 ^ length by.now → slice_index_or v.items s (pos 0) ≡ value_at table.now (union_of_images by.now s)) }
{
    let count = 1u32 << by.len();
    let mut values = Vec::with_capacity(alloc, count as usize)?;
    for number in 0..count {
        values.push(table.at(by.union_of_images(VarSet::from_number(number as u16))))?;
    }
    Ok(values)
}
