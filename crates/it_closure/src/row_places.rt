//! Rows over closed sets.
ghost use Rattle.std.specs.Prelude.{◌≡◌, ◌<◌, ◌≤◌, ◌+◌, ◌+ℤ◌, length, IfOk, IfErr, OnOk, OnErr};
ghost use Rattle.it_number.specs.Limit.{IsWithin};
ghost use Rattle.it_space.specs.Rows.{IsOver, coefficient};
ghost use Rattle.it_space.specs.Spaces.{most_coordinates, size_of};
ghost use Rattle.it_space.specs.Sums.{number_at};
ghost use Rattle.it_closure.specs.Collapse.{AreSumsByPlace, CollapseFits, IsCollapseOf, place};
ghost use Rattle.it_closure.specs.Placings.{ArePlaced, IsPutAtPlace};

use crate::dependences::Dependences;
use it_fraction::Wide;
use it_space::{Row, RowFault, Sums, VarSet};
use std::alloc::Global;

impl Dependences {
    /// The place of `coordinate`: for a set its closure, or 0 if that is the closure of the empty set; a rate keeps its coordinate.
    pub fn place(&self, coordinate: u32) -> u32
        ensures { result ≡ place self.now.space.variables self.now.list coordinate }
    {
        if coordinate < 1u32 << self.space().variables {
            let closed = self.close(VarSet::from_number(coordinate as u16));
            if closed == self.close(VarSet::empty()) {
                0
            } else {
                closed.number() as u32
            }
        } else {
            coordinate
        }
    }

    /// The row over closed sets: each set is replaced by its closure, and sets with the closure of the empty set are left out. `Wide`
    /// exactly if a partial sum at one place, by ascending coordinate, is.
    pub fn collapse(&self, alloc: Global, row: &Row) -> Result<Row, RowFault>
        requires { IsOver (size_of self.now.space) row.now }
        ensures row { IfOk result (IsCollapseOf self.now.space.variables self.now.list row.now) }
        ensures coefficients { IfOk result (λ r. AreSumsByPlace self.now.space.variables self.now.list row.now (coefficient r)) }
        ensures coordinates { IfOk result (IsOver (size_of self.now.space)) }
        ensures fits { OnOk result (CollapseFits self.now.space.variables self.now.list row.now) }
        ensures wide { IfErr result (λ fault. fault ≡ RowFault.Wide → ¬ (CollapseFits self.now.space.variables self.now.list row.now)) }
    {
        let sums = placed_sums(alloc, self, row)?;
        Ok(Row::new(sums.terms(alloc, 1)?))
    }
}

/// The coefficients of `row` summed at their places; the sum at 0 is left out.
fn placed_sums(alloc: Global, dependences: &Dependences, row: &Row) -> Result<Sums, RowFault>
    requires { IsOver (size_of dependences.now.space) row.now }
    ensures placed { IfOk result (ArePlaced dependences.now.space.variables dependences.now.list row.now (size_of dependences.now.space + 1)) }
    ensures few { IfOk result (λ s. length s ≤ most_coordinates + 1) }
    ensures wide { IfErr result (λ fault. fault ≡ RowFault.Wide → ¬ (CollapseFits dependences.now.space.variables dependences.now.list row.now)) }
{
    let mut sums = Sums::zeros(alloc, dependences.space().size() as usize + 1)?;
    for (coordinate, coefficient) in row.terms() {
        put(&mut sums, dependences.place(*coordinate), *coefficient)?;
    }
    Ok(sums)
}

/// Adds `amount` at `place`, unless that is 0.
fn put(sums: &mut Sums, place: u32, amount: i128) -> Result<(), Wide>
    requires { place < length sums.old }
    ensures put { OnOk result (IsPutAtPlace sums.old sums.new place amount) }
    ensures wide { OnErr result (¬ (0 < place → IsWithin (number_at sums.old place +ℤ amount))) }
{
    if place == 0 {
        return Ok(());
    }
    sums.add(place as usize, amount)
}
