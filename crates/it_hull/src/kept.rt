//! The coordinates of the rates that stay.
ghost use Rattle.std.specs.Prelude.{◌≡◌, ◌++◌, IfOk, OnOk};
ghost use Rattle.std.specs.List.{list_any};
ghost use Rattle.std.specs.Prelude.{nat_eq};
ghost use Rattle.it_space.specs.Spaces.{IsSpace};
ghost use Rattle.it_hull.specs.KeptRates.{kept_coordinates};
ghost use Rattle.it_hull.specs.Places.{own_coordinate};

use crate::hulls::coordinate;
use it_space::Space;
use std::alloc::{AllocError, Global};

/// Whether `rate` is one of `gone`.
fn goes(gone: &[u8], rate: u8) -> bool
    ensures { result ≡ list_any (λ r. nat_eq r rate) gone.now }
{
    gone.contains(&rate)
}

/// Appends the coordinate of `rate` to `kept`, unless the rate is one of `gone`.
fn push_kept(kept: &mut Vec<u32>, space: Space, gone: &[u8], rate: u8) -> Result<(), AllocError>
    requires { IsSpace space }
    ensures { OnOk result (kept.new.items ≡ kept.old.items ++ own_coordinate space gone.now rate) }
{
    if !goes(gone, rate) {
        kept.push(coordinate(space, rate))?;
    }
    Ok(())
}

/// The coordinates of the rates of `space` that aren't in `gone`, in ascending order.
pub fn kept_coordinates(alloc: Global, space: Space, gone: &[u8]) -> Result<Vec<u32>, AllocError>
    requires { IsSpace space }
    ensures { IfOk result (λ v. v.items ≡ kept_coordinates space gone.now) }
{
    let mut kept = Vec::new(alloc);
    for rate in 0..space.rates {
        push_kept(&mut kept, space, gone, rate)?;
    }
    Ok(kept)
}
