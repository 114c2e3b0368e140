//! The constraints of a question's lines, and whether the table of the problem that they pose is too large.
ghost use Rattle.std.specs.Prelude.{◌≡◌, ◌+◌, ◌≤◌, nat_lt, length, All, IfOk, IfErr};
ghost use Rattle.it_problems.specs.Problems.{IsProblem};
ghost use Rattle.it_space.specs.Spaces.{IsSpace};
ghost use Rattle.it_closure.specs.Sizes.{most_entries, table_size};
ghost use Rattle.it_syntax.specs.declared.rest.Stop.TheVariants.{Memory};
ghost use Rattle.it_syntax.specs.Givens.{IsRelationOf, IsGivenOf};
ghost use Rattle.it_demand.specs.Origins.{AreStated};
ghost use Rattle.it_demand.specs.QuestionSpaces.{space_of};
ghost use Rattle.it_question.specs.Limits.{AreLinesOver, IsRegionOf};
ghost use Rattle.it_question.specs.QuestionLimits.{most_lines};
ghost use Rattle.it_question.specs.ReaderSteps.{containment_flag, flag_if_large};
ghost use Rattle.it_question.specs.LineOrigins.{line_origins};
ghost use Rattle.it_question.specs.LineDemands.{line_demands};
ghost use Rattle.it_question.specs.ProblemLines.{givens_alone, lines_with};
ghost use Rattle.it_question.specs.TableSizes.{size_flag, table_flag};

use crate::sizes::FileLimits;
use crate::types::{OwnLines, Region};
use it_closure::{MOST_ENTRIES, size};
use it_demand::{given_constraints, row_constraints};
use it_problems::{Constraint, Problem};
use it_space::Space;
use it_syntax::Names;
use it_syntax::rest::Stop;
use std::alloc::{AllocError, Global};

/// With at most this many variables no table has more entries, within the limits of a question's lines.
const MOST_SMALL: u8 = 9;

/// The constraints of a question's own lines, those of the `given` lines first.
pub fn line_constraints(
    alloc: Global,
    lines: &OwnLines,
    space: Space,
) -> Result<Vec<Constraint>, AllocError>
    requires space { IsSpace space }
    requires givens { All (IsGivenOf space.variables) lines.now.givens }
    requires rows { All (IsRelationOf space.variables space.rates) lines.now.rows }
    requires few_givens { length lines.now.givens ≤ most_lines }
    requires few_rows { length lines.now.rows ≤ most_lines }
    ensures { IfOk result (λ v. AreStated space (line_origins space.variables lines.now) (line_demands space.variables lines.now) v.items) }
{
    let mut constraints = given_constraints(alloc, lines.givens(), 1, space)?;
    let mut others = row_constraints(alloc, lines.rows(), 1, space)?;
    constraints.append(&mut others)?;
    Ok(constraints)
}

/// The constraints of a question's own lines together with those of a region: the `given` lines of both, then the `row` lines of both.
pub fn region_constraints(
    alloc: Global,
    lines: &OwnLines,
    region: &Region,
    space: Space,
) -> Result<Vec<Constraint>, AllocError>
    requires space { IsSpace space }
    requires givens { All (IsGivenOf space.variables) lines.now.givens }
    requires rows { All (IsRelationOf space.variables space.rates) lines.now.rows }
    requires few_givens { length lines.now.givens ≤ most_lines }
    requires few_rows { length lines.now.rows ≤ most_lines }
    requires own { AreLinesOver region.now.names region.now.lines }
    requires names { space ≡ space_of region.now.names }
    ensures { IfOk result (λ v. (let lines = lines_with lines.now region.now in AreStated space (line_origins space.variables lines) (line_demands space.variables lines) v.items)) }
{
    let own = region.lines();
    let givens = lines.givens();
    let rows = lines.rows();
    let first_given = 1 + givens.len() as u16;
    let first_row = 1 + rows.len() as u16;
    let mut constraints = given_constraints(alloc, givens, 1, space)?;
    let mut own_givens = given_constraints(alloc, own.givens(), first_given, space)?;
    let mut shared_rows = row_constraints(alloc, rows, 1, space)?;
    let mut own_rows = row_constraints(alloc, own.rows(), first_row, space)?;
    constraints.append(&mut own_givens)?;
    constraints.append(&mut shared_rows)?;
    constraints.append(&mut own_rows)?;
    Ok(constraints)
}

/// Whether the table of the problem of `space` and `constraints` is too large.
fn is_large(alloc: Global, space: Space, constraints: Vec<Constraint>) -> Result<bool, Stop>
    requires { IsProblem (record { space = space; constraints = constraints.items }) }
    ensures large { IfOk result (λ large. large ≡ nat_lt most_entries (table_size (record { space = space; constraints = constraints.items }))) }
    ensures memory { IfErr result (λ e. e ≡ Memory) }
{
    let size = size(alloc, &Problem { space, constraints })?;
    Ok(MOST_ENTRIES < size)
}

/// Whether the table of a question that asks for a proof is too large.
fn proof_is_large(alloc: Global, names: &Names, lines: &OwnLines) -> Result<bool, Stop>
    requires space { IsSpace (space_of names.now) }
    requires lines { AreLinesOver names.now lines.now }
    ensures large { IfOk result (λ large. size_flag names.now lines.now ≡ flag_if_large large) }
    ensures memory { IfErr result (λ e. e ≡ Memory) }
{
    let space = names.space();
    if space.variables <= MOST_SMALL {
        return Ok(false);
    }
    let constraints = line_constraints(alloc, lines, space)?;
    let large = is_large(alloc, space, constraints)?;
    Ok(large)
}

/// Whether the table of a question that asks for an elimination is too large; its `row` lines are no part of it.
fn elimination_is_large(alloc: Global, names: &Names, lines: &OwnLines) -> Result<bool, Stop>
    requires space { IsSpace (space_of names.now) }
    requires lines { AreLinesOver names.now lines.now }
    ensures large { IfOk result (λ large. size_flag names.now (givens_alone lines.now) ≡ flag_if_large large) }
    ensures memory { IfErr result (λ e. e ≡ Memory) }
{
    let space = names.space();
    if space.variables <= MOST_SMALL {
        return Ok(false);
    }
    let constraints = given_constraints(alloc, lines.givens(), 1, space)?;
    let large = is_large(alloc, space, constraints)?;
    Ok(large)
}

/// Whether the table of a question that asks for a proof is larger than these limits allow.
pub fn proof_is_beyond(
    alloc: Global,
    names: &Names,
    lines: &OwnLines,
    limits: FileLimits,
) -> Result<bool, Stop>
    requires space { IsSpace (space_of names.now) }
    requires lines { AreLinesOver names.now lines.now }
    ensures large { IfOk result (λ large. table_flag limits names.now lines.now ≡ flag_if_large large) }
    ensures memory { IfErr result (λ e. e ≡ Memory) }
{
    if limits.large_tables {
        return Ok(false);
    }
    proof_is_large(alloc, names, lines)
}

/// Whether the table of a question that asks for an elimination is larger than these limits allow.
pub fn elimination_is_beyond(
    alloc: Global,
    names: &Names,
    lines: &OwnLines,
    limits: FileLimits,
) -> Result<bool, Stop>
    requires space { IsSpace (space_of names.now) }
    requires lines { AreLinesOver names.now lines.now }
    ensures large { IfOk result (λ large. table_flag limits names.now (givens_alone lines.now) ≡ flag_if_large large) }
    ensures memory { IfErr result (λ e. e ≡ Memory) }
{
    if limits.large_tables {
        return Ok(false);
    }
    elimination_is_large(alloc, names, lines)
}

/// Whether the table of a question about a containment, with the first region `first`, is too large.
pub fn containment_is_large(
    alloc: Global,
    names: &Names,
    lines: &OwnLines,
    first: &Region,
) -> Result<bool, Stop>
    requires space { IsSpace (space_of names.now) }
    requires lines { AreLinesOver names.now lines.now }
    requires region { IsRegionOf names.now first.now }
    requires few_givens { length lines.now.givens + length first.now.lines.givens ≤ most_lines }
    requires few_rows { length lines.now.rows + length first.now.lines.rows ≤ most_lines }
    ensures large { IfOk result (λ large. containment_flag lines.now first.now ≡ flag_if_large large) }
    ensures memory { IfErr result (λ e. e ≡ Memory) }
{
    let space = first.space();
    if space.variables <= MOST_SMALL {
        return Ok(false);
    }
    let constraints = region_constraints(alloc, lines, first, space)?;
    let large = is_large(alloc, space, constraints)?;
    Ok(large)
}
