//! The weights of all generators, to which amounts are added.
ghost use Rattle.std.specs.Prelude.{◌≡◌, ◌<◌, ◌^◌, ℤ, pos, [], ◌∷◌, length, ℕ, ◌≤◌, All, IfOk, OnOk, OnErr};
ghost use Rattle.it_space.specs.Rows.{coefficient};
ghost use Rattle.it_space.specs.Sums.{number_at, terms_from};
ghost use Rattle.it_lift.specs.Fits.{WeightSumsFit};
ghost use Rattle.it_lift.specs.LiftedCertificates.{WeightsAscend};
ghost use Rattle.it_lift.specs.Lifts.{signed_value};
ghost use Rattle.it_lift.specs.Sums.{for_each, AreWeightsAdded};

use it_fraction::Wide;
use it_space::Sums;
use std::alloc::{AllocError, Global};
use std::marker::Model;

/// The weights of all generators, by their numbers.
#[derive(Debug, Drop)]
pub struct WeightSums {
    sums: Sums,
}

impl Model for WeightSums {
    ghost use Rattle.std.specs.Prelude.{List, ℤ};

    ghost Value = { List ℤ };

    ghost view = { λ s. s.sums };
}

impl WeightSums {
    /// The weights of `count` generators: those of the list, and 0 for all others.
    pub fn start(
        alloc: Global,
        count: usize,
        weights: &[(u32, i128)],
    ) -> Result<WeightSums, AllocError>
        requires order { WeightsAscend 0 weights.now }
        requires places { All (λ w. w.0 < count) weights.now }
        ensures complete { IfOk result (λ s. length s ≡ count) }
        ensures weights { IfOk result (λ s. number_at s ≡ coefficient weights.now) }
    {
        let sums = sums_of(alloc, count, weights)?;
        Ok(WeightSums { sums })
    }

    /// The nonzero weights, each after its generator's number.
    pub fn weights(&self, alloc: Global) -> Result<Vec<(u32, i128)>, AllocError>
        requires { length self.now ≤ 2 ^ 31 }
        ensures { IfOk result (λ v. v.items ≡ terms_from 0 self.now) }
    {
        self.sums.terms(alloc, 0)
    }

    /// Adds `amount` to the weight of generator `index`, or subtracts it if `taken`; `Wide` if the result passes the limit.
    pub fn add(&mut self, index: u32, amount: u128, taken: bool) -> Result<(), Wide>
        requires place { index < length self.old }
        requires within { amount < 2 ^ 127 }
        ensures added { OnOk result (AreWeightsAdded self.old self.new ((index, signed_value taken (pos amount)) ∷ [])) }
        ensures wide { OnErr result (¬ WeightSumsFit (number_at self.old) ((index, signed_value taken (pos amount)) ∷ [])) }
    {
        self.sums.add(index as usize, signed_amount(amount, taken))
    }

    /// Adds `amount` to the weight of each generator in `indexes`; `Wide` if a result passes the limit.
    pub fn add_each(&mut self, indexes: &[u32], amount: u128) -> Result<(), Wide>
        requires places { All (λ i. i < length self.old) indexes.now }
        requires within { amount < 2 ^ 127 }
        ensures added { OnOk result (AreWeightsAdded self.old self.new (for_each (pos amount) indexes.now)) }
        ensures wide { OnErr result (¬ WeightSumsFit (number_at self.old) (for_each (pos amount) indexes.now)) }
    {
        for index in indexes {
            self.add(*index, amount, false)?;
        }
        Ok(())
    }
}

/// `amount`, negated if `taken`.
fn signed_amount(amount: u128, taken: bool) -> i128
    requires { amount < 2 ^ 127 }
    ensures { result ≡ signed_value taken (pos amount) }
{
    let amount = amount as i128;
    if taken { -amount } else { amount }
}

/// The weights by their generators' numbers, 0 for generators that aren't in the list.
fn sums_of(alloc: Global, count: usize, weights: &[(u32, i128)]) -> Result<Sums, AllocError>
    requires order { WeightsAscend 0 weights.now }
    requires places { All (λ w. w.0 < count) weights.now }
    ensures complete { IfOk result (λ s. length s ≡ count) }
    ensures weights { IfOk result (λ s. (i : ℕ) → number_at s i ≡ coefficient weights.now i) }
{
    let mut sums = Sums::zeros(alloc, count)?;
    for (index, weight) in weights {
        sums.set(*index as usize, *weight);
    }
    Ok(sums)
}
