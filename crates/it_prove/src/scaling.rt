//! The weights of columns made whole by the least common multiple of their denominators.
ghost use Rattle.std.specs.Prelude.{◌≡◌, ◌<◌, ◌^◌, ◌++◌, ◌∷◌, [], All, IfErr, IfOk, OnOk};
ghost use Rattle.std.specs.List.{AllByRecursion as Every};
ghost use Rattle.it_number.specs.Limit.{IsWithin};
ghost use Rattle.it_columns.specs.Scaling.{scaled_number};
ghost use Rattle.it_prove.specs.Weights.{numbers_of, scaled_by};

use it_columns::scaled_number;
use it_fraction::Fraction;
use it_space::RowFault;
use std::alloc::{AllocError, Global};

/// Appends the column of `weight` with `scale` times the weight. `Wide` if the product passes the limit.
fn put_term(
    terms: &mut Vec<(u32, i128)>,
    weight: &(usize, Fraction),
    scale: u128,
) -> Result<(), RowFault>
    requires column { weight.now.0 < 2 ^ 32 }
    requires scale { scale < 2 ^ 127 }
    ensures value { OnOk result (terms.new.items ≡ terms.old.items ++ (weight.now.0, scaled_number scale weight.now.1) ∷ []) }
    ensures fits { OnOk result (IsWithin (scaled_number scale weight.now.1)) }
    ensures wide { IfErr result (λ f. f ≡ RowFault.Wide → ¬ (IsWithin (scaled_number scale weight.now.1))) }
{
    let value = scaled_number(&weight.1, scale)?;
    terms.push((weight.0 as u32, value))?;
    Ok(())
}

/// `scale` times each weight, after its column. `Wide` if one of the products passes the limit.
pub fn terms(
    alloc: Global,
    weights: &[(usize, Fraction)],
    scale: u128,
) -> Result<Vec<(u32, i128)>, RowFault>
    requires columns { All (λ w. w.0 < 2 ^ 32) weights.now }
    requires scale { scale < 2 ^ 127 }
    ensures value { IfOk result (λ v. v.items ≡ scaled_by scale weights.now) }
    ensures fits { OnOk result (Every (λ q. IsWithin (scaled_number scale q)) (numbers_of weights.now)) }
    ensures wide { IfErr result (λ f. f ≡ RowFault.Wide → ¬ (Every (λ q. IsWithin (scaled_number scale q)) (numbers_of weights.now))) }
{
    let mut terms = Vec::with_capacity(alloc, weights.len())?;
    for weight in weights {
        put_term(&mut terms, weight, scale)?;
    }
    Ok(terms)
}

/// The weights without their columns.
pub fn numbers(alloc: Global, weights: &[(usize, Fraction)]) -> Result<Vec<Fraction>, AllocError>
    ensures { IfOk result (λ v. v.items ≡ numbers_of weights.now) }
{
    weights.iter().map(|weight| weight.1).collect(alloc)
}
