//! The coordinates over closed sets.
ghost use Rattle.std.specs.Prelude.{◌≡◌, ◌<◌, ◌+◌, ◌^◌, ◌++◌, ◌∷◌, [], cond, IfOk, OnOk};
ghost use Rattle.it_space.specs.Spaces.{IsSpace};
ghost use Rattle.it_polymatroid.specs.Elementals.{span};
ghost use Rattle.it_closure.specs.Coordinates.{closed_coordinates, has_row, sets_with_row};

use crate::dependences::Dependences;
use it_space::{Space, VarSet};
use std::alloc::{AllocError, Global};

impl Dependences {
    /// The coordinates over closed sets: the closed sets by number, without the closure of the empty set, then the rates.
    pub fn closed(&self, alloc: Global, space: Space) -> Result<Vec<u32>, AllocError>
        requires { space ≡ self.now.space }
        ensures { IfOk result (λ v. v.items ≡ closed_coordinates space.variables space.rates self.now.list) }
    {
        let mut coordinates = closed_sets(alloc, self)?;
        push_rates(&mut coordinates, self.space())?;
        Ok(coordinates)
    }
}

/// The nonempty sets that have a coordinate of their own, in order.
fn closed_sets(alloc: Global, dependences: &Dependences) -> Result<Vec<u32>, AllocError>
    ensures { IfOk result (λ v. v.items ≡ sets_with_row dependences.now.space.variables dependences.now.list) }
{
    let space = dependences.space();
    let mut sets = Vec::new(alloc);
    for number in 1..1u32 << space.variables {
        push_if(
            &mut sets,
            has_row(dependences, VarSet::from_number(number as u16)),
            number,
        )?;
    }
    Ok(sets)
}

/// Whether `set` is closed, and isn't the closure of the empty set.
fn has_row(dependences: &Dependences, set: VarSet) -> bool
    requires { set < 2 ^ dependences.now.space.variables }
    ensures { result ≡ has_row dependences.now.space.variables dependences.now.list set }
{
    if dependences.close(set) == set {
        set != dependences.close(VarSet::empty())
    } else {
        false
    }
}

/// Appends `item`, if `wanted`.
fn push_if(list: &mut Vec<u32>, wanted: bool, item: u32) -> Result<(), AllocError>
    ensures { OnOk result (list.new.items ≡ list.old.items ++ cond wanted (item ∷ []) []) }
{
    if wanted {
        list.push(item)?;
    }
    Ok(())
}

/// Appends the coordinates of the rates, in order.
fn push_rates(list: &mut Vec<u32>, space: Space) -> Result<(), AllocError>
    requires { IsSpace space }
    ensures { OnOk result (list.new.items ≡ list.old.items ++ span (2 ^ space.variables) space.rates) }
{
    for rate in 0..space.rates {
        list.push((1u32 << space.variables) + rate as u32)?;
    }
    Ok(())
}
