//! Negated rows, and the rows of generators by number.
ghost use Rattle.std.specs.Prelude.{◌≡◌, ◌<◌, neg_ℤ, length, IfOk};
ghost use Rattle.it_number.specs.Limit.{IsWithin};
ghost use Rattle.it_space.specs.Rows.{IsCanonical, negated_terms};
ghost use Rattle.it_elemental.specs.Generators.{generators, generator_at};

use it_elemental::{count, row};
use it_problems::Problem;
use it_space::Row;
use std::alloc::{AllocError, Global};

/// The negated term.
fn opposite_term(term: &(u32, i128)) -> (u32, i128)
    requires { IsWithin term.now.1 }
    ensures { result ≡ (term.now.0, neg_ℤ term.now.1) }
{
    (term.0, -term.1)
}

/// The negated terms, in order.
fn opposite_terms(alloc: Global, terms: &[(u32, i128)]) -> Result<Vec<(u32, i128)>, AllocError>
    requires { IsCanonical terms.now }
    ensures { IfOk result (λ v. v.items ≡ negated_terms terms.now) }
{
    let mut opposites = Vec::with_capacity(alloc, terms.len())?;
    for term in terms {
        opposites.push(opposite_term(term))?;
    }
    Ok(opposites)
}

/// The negated row: its value at each point is the negated value of `row`.
pub fn opposite_row(alloc: Global, row: &Row) -> Result<Row, AllocError>
    ensures { IfOk result (λ r. r ≡ negated_terms row.now) }
{
    let terms = opposite_terms(alloc, row.terms())?;
    Ok(Row::new(terms))
}

/// The row of generator `index`: an elemental inequality below their count, from there on a constraint.
pub fn generator_row(alloc: Global, problem: &Problem, index: u32) -> Result<Row, AllocError>
    requires listed { index < length (generators problem.now) }
    ensures { IfOk result (λ r. r ≡ (generator_at (generators problem.now) index).row) }
{
    let n = problem.space().variables;
    let elementals = count(n);
    if index < elementals {
        return row(alloc, n, index);
    }
    problem.constraints()[(index - elementals) as usize]
        .row
        .copy(alloc)
}
