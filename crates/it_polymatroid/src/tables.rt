//! Tables of the values of all sets, and whether one is a polymatroid.
ghost use Rattle.std.specs.Prelude.{◌≡◌, ◌<◌, ◌^◌, ◌↔◌, IsTrue};
ghost use Rattle.std.specs.Bool.{OnTrue, OnFalse};
ghost use Rattle.it_polymatroid.specs.Polymatroid.{IsPolymatroid};
ghost use Rattle.it_polymatroid.specs.Tables.{IsTable, value_at};
ghost use Rattle.it_polymatroid.specs.TablePairs.{PairHolds, PairsHoldAt};

use crate::sums::is_at_most;
use it_space::VarSet;
use std::marker::Model;

/// A function on the sets of some variables: its value at each set, by the set's number.
#[derive(Debug, Drop)]
pub struct Table {
    variables: u8,
    values: Vec<i128>,
}

impl Model for Table {
    ghost use Rattle.it_polymatroid.specs.Tables.{SetFunction, IsTable};

    ghost Value = { SetFunction };

    ghost view = { λ t. record { variables = t.variables; values = t.values.items } };

    ghost invariant = { λ t. IsTable (record { variables = t.variables; values = t.values.items }) };
}

impl Table {
    /// The table of all 2^variables values, in order of the sets' numbers, that of the empty set first.
    pub fn new(variables: u8, values: Vec<i128>) -> Table
        requires { IsTable (record { variables = variables; values = values.items }) }
        ensures { result ≡ record { variables = variables; values = values.items } }
    {
        Table { variables, values }
    }

    /// The number of variables.
    pub fn variables(&self) -> u8
        ensures value { result ≡ self.now.variables }
        ensures table { IsTable self.now }
    {
        self.variables
    }

    /// The value at a set of the table's variables.
    pub fn at(&self, set: VarSet) -> i128
        requires { set < 2 ^ self.now.variables }
        ensures value { result ≡ value_at self.now set }
        ensures table { IsTable self.now }
    {
        self.values[set.number() as usize]
    }
}

/// Whether the table is a polymatroid, by the axioms over all pairs of sets.
pub fn is_polymatroid(table: &Table) -> bool
    ensures { IsTrue result ↔ IsPolymatroid table.now.variables (value_at table.now) }
{
    for number in 0..1u32 << table.variables() {
        if !pairs_hold_at(table, VarSet::from_number(number as u16)) {
            return false;
        }
    }
    true
}

/// Whether the axioms hold at `set` and each other set.
fn pairs_hold_at(table: &Table, set: VarSet) -> bool
    requires { set < 2 ^ table.now.variables }
    ensures yes { OnTrue result (PairsHoldAt table.now.variables (value_at table.now) set) }
    ensures no { OnFalse result (¬ PairsHoldAt table.now.variables (value_at table.now) set) }
{
    for number in 0..1u32 << table.variables() {
        if !pair_holds(table, set, VarSet::from_number(number as u16)) {
            return false;
        }
    }
    true
}

/// Whether the axioms hold at the sets `s` and `t`.
#[tactic(auto, using(crate::proofs::TableLemmas::union_below, crate::proofs::TableLemmas::meet_below))]
fn pair_holds(table: &Table, s: VarSet, t: VarSet) -> bool
    requires left { s < 2 ^ table.now.variables }
    requires right { t < 2 ^ table.now.variables }
    ensures yes { OnTrue result (PairHolds (value_at table.now) s t) }
    ensures no { OnFalse result (¬ PairHolds (value_at table.now) s t) }
{
    if s.inside(t) && table.at(s) > table.at(t) {
        return false;
    }
    is_at_most(
        table.at(s.union(t)),
        table.at(s.meet(t)),
        table.at(s),
        table.at(t),
    )
}
