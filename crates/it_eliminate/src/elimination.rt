//! Rates eliminated one after the other.
ghost use Rattle.std.specs.Prelude.{◌≡◌, ◌+◌, ◌^◌, ◌<◌, All, IfErr, IfOk, [], ◌∷◌};
ghost use Rattle.it_problems.specs.Problems.{IsSystem};
ghost use Rattle.it_space.specs.Spaces.{IsSpace};
ghost use Rattle.it_eliminate.specs.Elimination.{Region as RegionOf, EliminationEnds, ordered_rows};
ghost use Rattle.it_eliminate.specs.Views.{StopsBy, SystemEnds};
ghost use Rattle.it_eliminate.specs.Projections.{IsProjection, RegionIsProjection, system_of};

use crate::copying::copied_rows;
use crate::ordered::{ordered_rows, row_list};
use crate::pairs::next_list;
use crate::types::{Eliminated, Stop};
use it_problems::System;
use it_space::{Row, RowFault, Space};
use std::alloc::{AllocError, Global};

/// Eliminates `rates`, counted from 0, in the order of the list. Returns the projection, or the first rate at which two rows can't be
/// cancelled within the limit, or after which there are more than `rows` rows. At one rate `Wide` comes before `Rows`.
pub fn eliminate(
    alloc: Global,
    system: &System,
    rates: &[u8],
    rows: usize,
) -> Result<Eliminated, AllocError>
    requires system { IsSystem system.now }
    requires rates { All (λ r. r < system.now.space.rates) rates.now }
    ensures ends { IfOk result (SystemEnds system.now rows rates.now) }
    ensures region { IfOk result (RegionIsProjection system.now rates.now) }
{
    let space = system.space;
    let own = copied_rows(alloc, system.rows.as_slice())?;
    match rows_after(alloc, space, own, rates, rows) {
        Ok(left) => Ok(Eliminated::Region(System { space, rows: left })),
        Err(Stop::Rows { rate }) => Ok(Eliminated::Rows { rate }),
        Err(Stop::Wide { rate }) => Ok(Eliminated::Wide { rate }),
        Err(Stop::Memory) => Err(AllocError),
    }
}

/// Eliminates `rate`, with results like those of `eliminate`.
pub fn step(alloc: Global, system: &System, rate: u8, rows: usize) -> Result<Eliminated, AllocError>
    requires system { IsSystem system.now }
    requires rate { rate < system.now.space.rates }
    ensures ends { IfOk result (SystemEnds system.now rows (rate ∷ [])) }
    ensures region { IfOk result (RegionIsProjection system.now (rate ∷ [])) }
{
    eliminate(alloc, system, [rate].as_slice(), rows)
}

/// The rows over `space` that are left of `rows` after the elimination of `rates`, or why that stops, as `eliminate` has it. After a
/// rate there may be `most` rows.
pub fn rows_after(
    alloc: Global,
    space: Space,
    rows: Vec<Row>,
    rates: &[u8],
    most: usize,
) -> Result<Vec<Row>, Stop>
    requires system { IsSystem (system_of space rows) }
    requires rates { All (λ r. r < space.rates) rates.now }
    ensures ends { IfOk result (λ v. EliminationEnds (2 ^ space.variables) most (ordered_rows rows.items) rates.now (RegionOf v.items)) }
    ensures region { IfOk result (λ v. IsProjection (system_of space rows) rates.now (system_of space v)) }
    ensures stop { IfErr result (StopsBy (EliminationEnds (2 ^ space.variables) most (ordered_rows rows.items) rates.now)) }
{
    let ordered = ordered_rows(alloc, rows)?;
    let mut current = row_list(alloc, ordered)?;
    for rate in rates {
        current = after_rate(alloc, current, space, *rate, most)?;
    }
    Ok(current)
}

/// The rows in order after the elimination of `rate`, if they are at most `most`.
fn after_rate(
    alloc: Global,
    rows: Vec<Row>,
    space: Space,
    rate: u8,
    most: usize,
) -> Result<Vec<Row>, Stop>
    requires { IsSpace space }
    ensures rows { IfOk result (λ v. EliminationEnds (2 ^ space.variables) most rows.items (rate ∷ []) (RegionOf v.items)) }
    ensures stop { IfErr result (StopsBy (EliminationEnds (2 ^ space.variables) most rows.items (rate ∷ []))) }
{
    let list = match next_list(alloc, rows, coordinate(space, rate), most) {
        Ok(list) => list,
        Err(RowFault::Wide) => return Err(Stop::Wide { rate }),
        Err(RowFault::Memory) => return Err(Stop::Memory),
    };
    if list.len() > most {
        return Err(Stop::Rows { rate });
    }
    let next = row_list(alloc, list)?;
    Ok(next)
}

/// The coordinate of `rate`.
fn coordinate(space: Space, rate: u8) -> u32
    requires { IsSpace space }
    ensures { result ≡ 2 ^ space.variables + rate }
{
    (1u32 << space.variables) + rate as u32
}
