//! Certificates from the weights of columns.
ghost use Rattle.std.specs.Prelude.{◌≡◌, ◌<◌, ◌^◌, ℕ, ℤ, pos, ◌-ℤ◌, ◌≤ℤ◌, length, IfErr, IfOk, OnOk};
ghost use Rattle.it_space.specs.Answers.{certificate_view};
ghost use Rattle.it_space.specs.Rows.{coefficient};
ghost use Rattle.it_space.specs.Sums.{terms_from};
ghost use Rattle.it_run.specs.Readings.{AreWeights};
ghost use Rattle.it_elemental.specs.Generators.{generators};
ghost use Rattle.it_columns.specs.Columns.{columns, number_by, numbers_from};
ghost use Rattle.it_columns.specs.Scaling.{NumbersFit};
ghost use Rattle.it_prove.specs.Steps.{AreColumnWeights};
ghost use Rattle.it_prove.specs.Weights.{certificate_of, numbers_of};
ghost use Rattle.it_tableau.specs.Operations.{rationals};

use crate::scaling::{numbers, terms};
use it_closure::column_count;
use it_columns::common_scale;
use it_elemental::{generator_count, kind_at};
use it_fraction::Fraction;
use it_problems::{Kind, Problem};
use it_space::{Certificate, RowFault, push_some};
use std::alloc::{AllocError, Global};
use std::marker::Model;

/// Weights of columns, by ascending column; a column that isn't among them has weight 0.
#[derive(Drop)]
struct ColumnWeights<'a> {
    weights: &'a [(u32, i128)],
}

impl<'a> Model for ColumnWeights<'a> {
    ghost use Rattle.it_space.specs.Rows.{Terms};
    ghost use Rattle.it_prove.specs.Steps.{AreColumnWeights};

    ghost Value = { Terms };

    ghost view = { λ w. w.weights.now };

    ghost invariant = { λ w. AreColumnWeights w.weights.now };
}

impl<'a> ColumnWeights<'a> {
    /// The weights in `weights`, each after its column.
    fn new(weights: &'a [(u32, i128)]) -> ColumnWeights<'a>
        requires { AreColumnWeights weights.now }
        ensures { result ≡ weights.now }
    {
        ColumnWeights { weights }
    }

    /// The weight of `column`.
    fn weight(&self, column: u32) -> i128
        ensures value { result ≡ coefficient self.now column }
        ensures least { pos 0 ≤ℤ result }
    {
        match self
            .weights
            .binary_search_by_key(&column, |weight| weight.0)
        {
            Ok(index) => self.weights[index].1,
            Err(_) => 0,
        }
    }

    /// The weight of a generator of this kind whose first column is `column`: for an equation that of the second column is subtracted.
    fn of_generator(&self, kind: Kind, column: u32) -> i128
        requires { column < 2 ^ 31 }
        ensures { result ≡ number_by (λ a b. a -ℤ b) kind (coefficient self.now) column }
    {
        match kind {
            Kind::Inequality => self.weight(column),
            Kind::Equation => self.weight(column) - self.weight(column + 1),
        }
    }
}

/// The nonzero weights of generators, each after its number, by the weights of their columns.
fn generator_weights(
    alloc: Global,
    problem: &Problem,
    columns: &ColumnWeights<'_>,
) -> Result<Vec<(u32, i128)>, AllocError>
    ensures { IfOk result (λ v. v.items ≡ terms_from 0 (numbers_from (λ a b. a -ℤ b) 0 (generators problem.now) (coefficient columns.now))) }
{
    problem.facts();
    let mut weights = Vec::new(alloc);
    let mut column = 0;
    for index in 0..generator_count(problem) {
        let kind = kind_at(problem, index);
        push_some(&mut weights, index, columns.of_generator(kind, column))?;
        column += column_count(kind);
    }
    Ok(weights)
}

/// The certificate over the generators by the weights of their columns, which ascend by column: its scale is the least common multiple
/// of the denominators, and each weight is multiplied by it. `Wide` if the scale or a multiplied weight passes the limit.
pub fn certificate(
    alloc: Global,
    problem: &Problem,
    weights: &[(usize, Fraction)],
) -> Result<Certificate, RowFault>
    requires ordered { AreWeights rationals (length (columns (generators problem.now))) 0 weights.now }
    ensures value { IfOk result (λ c. certificate_view c ≡ certificate_of (generators problem.now) weights.now) }
    ensures fits { OnOk result (NumbersFit (numbers_of weights.now)) }
    ensures wide { IfErr result (λ f. f ≡ RowFault.Wide → ¬ (NumbersFit (numbers_of weights.now))) }
{
    problem.facts();
    let numbers = numbers(alloc, weights)?;
    let scale = common_scale(numbers.as_slice())?;
    let scaled = terms(alloc, weights, scale)?;
    let columns = ColumnWeights::new(scaled.as_slice());
    let parts = generator_weights(alloc, problem, &columns)?;
    Ok(Certificate {
        scale: scale as i128,
        weights: parts,
    })
}
