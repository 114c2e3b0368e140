//! The obligations of a candidate.
ghost use Rattle.std.specs.Prelude.{◌≡◌, ◌+◌, ◌<◌, ◌≤◌, ◌^◌, ◌*ℤ◌, ◌↔◌, unsigned_abs, length, All, IfOk};
ghost use Rattle.it_problems.specs.Problems.{AreMet};
ghost use Rattle.it_space.specs.Rows.{IsOver, value, row_mass};
ghost use Rattle.it_space.specs.Spaces.{size_of, most_variables};
ghost use Rattle.it_demand.specs.SystemForms.{AreAtLeastZero, AtMaps};
ghost use Rattle.it_demand.specs.Coefficients.{mass, signed_by, IsFormAdded};
ghost use Rattle.it_region.specs.Obligations.{constraint_obligations, ArePulledRows, IsPulledRow};
ghost use Rattle.it_region.specs.Pulling.{singles};
ghost use Rattle.it_region.specs.PairSteps.{AreSetsFor, obligations_of};
ghost use Rattle.it_region.specs.Pairs.{FitsPair, IsPair, pair_obligations, candidate_map, pair_coordinate, candidate_sets};

use crate::types::{Candidate, Pair};
use it_canon::Coefficients;
use it_polymatroid::union_of_images;
use it_problems::{Constraint, Kind};
use it_space::{Row, VarSet};
use std::alloc::{AllocError, Global};

/// The set that each variable of the second region stands for, in order.
fn candidate_sets(
    alloc: Global,
    pair: &Pair,
    candidate: &Candidate,
) -> Result<Vec<VarSet>, AllocError>
    requires pair { IsPair pair.now }
    requires fits { FitsPair pair.now candidate.now }
    ensures { IfOk result (λ v. v.items ≡ candidate_sets pair.now candidate.now) }
{
    let mut sets = singles(alloc, pair.common)?;
    for part in &candidate.parts[..candidate.count as usize] {
        sets.push(*part)?;
    }
    Ok(sets)
}

/// The sets of one variable each, for the first `count` variables.
fn singles(alloc: Global, count: u8) -> Result<Vec<VarSet>, AllocError>
    requires { count ≤ most_variables }
    ensures { IfOk result (λ v. v.items ≡ singles 0 count) }
{
    let mut sets = Vec::new(alloc);
    for i in 0..count {
        sets.push(VarSet::single(i))?;
    }
    Ok(sets)
}

/// The coordinate of the first region that `coordinate` of the second stands for.
fn pulled_coordinate(pair: &Pair, sets: &[VarSet], coordinate: u32) -> usize
    requires pair { IsPair pair.now }
    requires sets { AreSetsFor pair.now sets.now }
    requires coordinate { coordinate ≤ size_of pair.now.space }
    ensures value { result ≡ pair_coordinate pair.now sets.now coordinate }
    ensures below { result ≤ size_of pair.now.first.space }
{
    let count = 1u32 << pair.space.variables;
    if coordinate < count {
        union_of_images(sets, VarSet::from_number(coordinate as u16)).number() as usize
    } else {
        (1usize << pair.first.space().variables) + (coordinate - count) as usize
    }
}

/// The coefficient of `term`, negated if `negated`.
fn signed_coefficient(term: &(u32, i128), negated: bool) -> i128
    requires { unsigned_abs term.now.1 < 2 ^ 127 }
    ensures value { result ≡ signed_by negated term.now.1 }
    ensures size { unsigned_abs result ≡ unsigned_abs term.now.1 }
{
    if negated { -term.1 } else { term.1 }
}

/// Adds `term`, negated if `negated`, at its pulled coordinate.
fn add_term(
    sums: &mut Coefficients,
    pair: &Pair,
    sets: &[VarSet],
    term: &(u32, i128),
    negated: bool,
)
    requires pair { IsPair pair.now }
    requires sets { AreSetsFor pair.now sets.now }
    requires coordinate { term.now.0 ≤ size_of pair.now.space }
    requires complete { length sums.old ≡ size_of pair.now.first.space + 1 }
    requires room { mass sums.old + unsigned_abs term.now.1 < 2 ^ 127 }
    ensures { IsFormAdded sums.old sums.new (unsigned_abs term.now.1) (λ p. signed_by negated term.now.1 *ℤ p (pair_coordinate pair.now sets.now term.now.0)) }
{
    sums.add(
        pulled_coordinate(pair, sets, term.0),
        signed_coefficient(term, negated),
    );
}

/// The row that `row`, of the second region, is at the pulled-back map, negated if `negated`.
fn pulled_row(
    alloc: Global,
    pair: &Pair,
    sets: &[VarSet],
    row: &Row,
    negated: bool,
) -> Result<Row, AllocError>
    requires pair { IsPair pair.now }
    requires sets { AreSetsFor pair.now sets.now }
    requires row { IsOver (size_of pair.now.space) row.now }
    requires small { row_mass row.now < 2 ^ 127 }
    ensures { IfOk result (IsPulledRow pair.now.first.space (λ p. signed_by negated (value row.now (λ c. p (pair_coordinate pair.now sets.now c))))) }
{
    let mut sums = Coefficients::new(alloc, pair.first.space)?;
    for term in row.terms() {
        add_term(&mut sums, pair, sets, term, negated);
    }
    sums.into_row(alloc)
}

/// The row of a constraint at the pulled-back map; for an equation also its negation, after it.
fn demanded_rows(
    alloc: Global,
    pair: &Pair,
    sets: &[VarSet],
    constraint: &Constraint,
) -> Result<Vec<Row>, AllocError>
    requires pair { IsPair pair.now }
    requires sets { AreSetsFor pair.now sets.now }
    requires row { IsOver (size_of pair.now.space) constraint.now.row }
    requires small { row_mass constraint.now.row < 2 ^ 127 }
    ensures { IfOk result (λ v. ArePulledRows pair.now.first.space (obligations_of (pair_coordinate pair.now sets.now) constraint.now) v.items) }
{
    let mut rows = Vec::new(alloc);
    rows.push(pulled_row(alloc, pair, sets, &constraint.row, false)?)?;
    if constraint.kind == Kind::Equation {
        rows.push(pulled_row(alloc, pair, sets, &constraint.row, true)?)?;
    }
    Ok(rows)
}

/// The rows of all constraints at the pulled-back map.
fn rows_of(alloc: Global, pair: &Pair, sets: &[VarSet]) -> Result<Vec<Row>, AllocError>
    requires pair { IsPair pair.now }
    requires sets { AreSetsFor pair.now sets.now }
    ensures { IfOk result (λ v. ArePulledRows pair.now.first.space (constraint_obligations (pair_coordinate pair.now sets.now) pair.now.own.items) v.items) }
{
    let mut rows = Vec::new(alloc);
    for constraint in pair.own.as_slice() {
        let mut both = demanded_rows(alloc, pair, sets, constraint)?;
        rows.append(&mut both)?;
    }
    Ok(rows)
}

/// What is to be at least 0 wherever the first region is met, for the candidate to show that it lies in the second: the
/// second region's own constraints at the pulled-back map, in order. An equation has its row and then the negated row.
pub fn obligations(
    alloc: Global,
    pair: &Pair,
    candidate: &Candidate,
) -> Result<Vec<Row>, AllocError>
    requires pair { IsPair pair.now }
    requires fits { FitsPair pair.now candidate.now }
    ensures rows { IfOk result (λ v. ArePulledRows pair.now.first.space (pair_obligations pair.now candidate.now) v.items) }
    ensures met { IfOk result (λ v. AtMaps (λ p. AreAtLeastZero p v.items ↔ AreMet (candidate_map pair.now candidate.now p) pair.now.own.items)) }
    ensures limits { IfOk result (λ v. All (IsOver (size_of pair.now.first.space)) v.items) }
{
    let sets = candidate_sets(alloc, pair, candidate)?;
    rows_of(alloc, pair, sets.as_slice())
}
