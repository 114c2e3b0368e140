//! Sums by place.
ghost use Rattle.std.specs.Prelude.{◌≡◌, ◌<◌, ◌≤◌, ◌^◌, ◌+ℤ◌, pos, length, drop, set, replicate, IfOk, OnOk, OnErr};
ghost use Rattle.it_number.specs.Limit.{IsWithin};
ghost use Rattle.it_space.specs.Sums.{IsAdded, number_at, terms_from};

use it_fraction::{Wide, sum};
use std::alloc::{AllocError, Global};
use std::marker::Model;

/// Whole numbers by place, counted from 0, to which amounts can be added.
#[derive(Debug, Drop)]
pub struct Sums {
    values: Vec<i128>,
}

impl Model for Sums {
    ghost use Rattle.std.specs.Prelude.{List, ℤ};

    ghost Value = { List ℤ };

    ghost view = { λ s. s.values.items };
}

impl Sums {
    /// Zeros at `places` places.
    pub fn zeros(alloc: Global, places: usize) -> Result<Sums, AllocError>
        ensures { IfOk result (λ s. s ≡ replicate places (pos 0)) }
    {
        let values = vec![in alloc; 0; places]?;
        Ok(Sums { values })
    }

    /// Sets the number at `place` to `value`.
    pub fn set(&mut self, place: usize, value: i128)
        requires { place < length self.old }
        ensures { self.new ≡ set self.old place value }
    {
        self.values[place] = value;
    }

    /// Adds `amount` at `place`; `Wide` if the sum passes the limit.
    pub fn add(&mut self, place: usize, amount: i128) -> Result<(), Wide>
        requires { place < length self.old }
        ensures added { OnOk result (IsAdded self.old self.new place amount) }
        ensures wide { OnErr result (¬ IsWithin (number_at self.old place +ℤ amount)) }
    {
        add_at(self.values.as_mut_slice(), place, amount)
    }

    /// The nonzero numbers from place `first` on, as pairs of place and number, by ascending place.
    pub fn terms(&self, alloc: Global, first: usize) -> Result<Vec<(u32, i128)>, AllocError>
        requires { length self.now ≤ 2 ^ 31 }
        ensures { IfOk result (λ v. v.items ≡ terms_from first (drop first self.now)) }
    {
        nonzero_terms(alloc, self.values.as_slice(), first)
    }
}

/// Adds `amount` to the number at `place`; `Wide` if the sum passes the limit.
fn add_at(values: &mut [i128], place: usize, amount: i128) -> Result<(), Wide>
    requires { place < length values.old }
    ensures added { OnOk result (IsAdded values.old values.new place amount) }
    ensures wide { OnErr result (¬ IsWithin (number_at values.old place +ℤ amount)) }
{
    values[place] = sum(values[place], amount)?;
    Ok(())
}

/// The nonzero numbers from place `first` on, as pairs of place and number, by ascending place.
fn nonzero_terms(
    alloc: Global,
    values: &[i128],
    first: usize,
) -> Result<Vec<(u32, i128)>, AllocError>
    requires { length values.now ≤ 2 ^ 31 }
    ensures { IfOk result (λ v. v.items ≡ terms_from first (drop first values.now)) }
{
    let mut terms = Vec::new(alloc);
    for place in first..values.len() {
        let value = values[place];
        if value != 0 {
            terms.push((place as u32, value))?;
        }
    }
    Ok(terms)
}
