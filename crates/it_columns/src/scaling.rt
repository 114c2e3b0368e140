//! Fractions made whole by the least common multiple of their denominators.
ghost use Rattle.std.specs.Prelude.{◌≡◌, ◌<◌, ◌^◌, ◌++◌, ◌∷◌, [], pos, map, IfErr, IfOk, OkIff, OnOk};
ghost use Rattle.std.specs.List.{AllByRecursion as Every};
ghost use Rattle.it_number.specs.Gcd.{lcm};
ghost use Rattle.it_number.specs.Limit.{IsWithin};
ghost use Rattle.it_columns.specs.Scaling.{scale_of, scaled_number};

use it_fraction::{Fraction, Wide, lcm, signed_product};
use it_space::RowFault;
use std::alloc::Global;

/// The least common multiple of `scale` and the denominator of `number`; `Wide` if it passes the limit.
fn with_denominator(scale: u128, number: &Fraction) -> Result<u128, Wide>
    requires some { 0 < scale }
    requires within { scale < 2 ^ 127 }
    ensures { OkIff result (IsWithin (pos (lcm scale number.now.den))) (lcm scale number.now.den) }
{
    let multiple = lcm(scale as i128, number.den())?;
    Ok(multiple as u128)
}

/// The least common multiple of the denominators of `numbers`. `Wide` if it passes the limit.
pub fn common_scale(numbers: &[Fraction]) -> Result<u128, Wide>
    ensures value { OkIff result (IsWithin (pos (scale_of numbers.now))) (scale_of numbers.now) }
    ensures some { IfOk result (λ l. 0 < l) }
    ensures within { IfOk result (λ l. l < 2 ^ 127) }
{
    let mut scale: u128 = 1;
    for number in numbers {
        scale = with_denominator(scale, number)?;
    }
    Ok(scale)
}

/// `scale` times `number`, whose denominator divides it. `Wide` if the product passes the limit.
#[tactic(auto, unfolding(crate::specs::Scaling::scaled_number))]
pub fn scaled_number(number: &Fraction, scale: u128) -> Result<i128, Wide>
    requires { scale < 2 ^ 127 }
    ensures { OkIff result (IsWithin (scaled_number scale number.now)) (scaled_number scale number.now) }
{
    let times = scale / number.den() as u128;
    signed_product(number.num(), times as i128)
}

/// Appends `scale` times `number` to `values`. `Wide` if the product passes the limit.
fn put_value(values: &mut Vec<i128>, number: &Fraction, scale: u128) -> Result<(), RowFault>
    requires { scale < 2 ^ 127 }
    ensures value { OnOk result (values.new.items ≡ values.old.items ++ scaled_number scale number.now ∷ []) }
    ensures fits { OnOk result (IsWithin (scaled_number scale number.now)) }
    ensures wide { IfErr result (λ f. f ≡ RowFault.Wide → ¬ (IsWithin (scaled_number scale number.now))) }
{
    let value = scaled_number(number, scale)?;
    values.push(value)?;
    Ok(())
}

/// `scale` times each of `numbers`, in order. `Wide` if one of the products passes the limit.
pub fn scaled_values(
    alloc: Global,
    numbers: &[Fraction],
    scale: u128,
) -> Result<Vec<i128>, RowFault>
    requires { scale < 2 ^ 127 }
    ensures value { IfOk result (λ v. v.items ≡ map (scaled_number scale) numbers.now) }
    ensures fits { OnOk result (Every (λ q. IsWithin (scaled_number scale q)) numbers.now) }
    ensures wide { IfErr result (λ f. f ≡ RowFault.Wide → ¬ (Every (λ q. IsWithin (scaled_number scale q)) numbers.now)) }
{
    let mut values = Vec::with_capacity(alloc, numbers.len())?;
    for number in numbers {
        put_value(&mut values, number, scale)?;
    }
    Ok(values)
}
