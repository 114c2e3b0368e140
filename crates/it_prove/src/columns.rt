//! The columns of the run over closed sets.
ghost use Rattle.std.specs.Prelude.{◌≡◌, ◌<◌, ℕ, length, IfErr, IfOk, OnOk};
ghost use Rattle.it_space.specs.Rows.{coefficient};
ghost use Rattle.it_elemental.specs.Generators.{generators};
ghost use Rattle.it_prove.specs.Steps.{GeneratorFits, GoOnBy, closed_columns, closed_row};

use it_closure::Dependences;
use it_columns::{generator_row, push_row};
use it_elemental::kind_at;
use it_problems::Problem;
use it_space::{Row, RowFault};
use std::alloc::Global;

/// The row of generator `index` over closed sets. `Wide` if a partial sum of its coefficients passes the limit.
fn collapsed_row(
    alloc: Global,
    problem: &Problem,
    dependences: &Dependences,
    index: u32,
) -> Result<Row, RowFault>
    requires space { dependences.now.space ≡ problem.now.space }
    requires listed { index < length (generators problem.now) }
    ensures same { IfOk result (λ r. (c : ℕ) → coefficient r c ≡ coefficient (closed_row problem.now dependences.now.list index) c) }
    ensures fits { OnOk result (GeneratorFits problem.now dependences.now.list index) }
    ensures wide { IfErr result (λ f. f ≡ RowFault.Wide → ¬ (GeneratorFits problem.now dependences.now.list index)) }
{
    problem.facts();
    let row = generator_row(alloc, problem, index)?;
    // named before it is returned, so that the contract of the call is available at the return
    let closed = dependences.collapse(alloc, &row)?;
    Ok(closed)
}

/// Appends the columns of generator `index` over closed sets. `Wide` as for `collapsed_row`.
pub fn push_columns(
    columns: &mut Vec<Row>,
    alloc: Global,
    problem: &Problem,
    dependences: &Dependences,
    index: u32,
) -> Result<(), RowFault>
    requires space { dependences.now.space ≡ problem.now.space }
    requires listed { index < length (generators problem.now) }
    ensures added { OnOk result (GoOnBy (closed_columns problem.now dependences.now.list index) columns.old.items columns.new.items) }
    ensures fits { OnOk result (GeneratorFits problem.now dependences.now.list index) }
    ensures wide { IfErr result (λ f. f ≡ RowFault.Wide → ¬ (GeneratorFits problem.now dependences.now.list index)) }
{
    let row = collapsed_row(alloc, problem, dependences, index)?;
    push_row(columns, alloc, kind_at(problem, index), row)?;
    Ok(())
}
