//! Constraints by the names of their lines.
ghost use Rattle.std.specs.Prelude.{◌≡◌, ◌++◌, codes, filter, int_lt, not, length, map, pos, slice_index_or, true, ◌==◌, if◌then◌else◌, IfOk, OnOk};
ghost use Rattle.it_problems.specs.declared.problems.Origin.TheVariants.{Rate};
ghost use Rattle.it_print.specs.Lines.{origins_of};
ghost use Rattle.it_terms.specs.FunctionProofs.{by_comment, line_name, listed_names, named_weight, named_weights, times_text, weight_sign};
ghost use Rattle.it_terms.specs.RowOrigins.{line_weight, line_weights, plus_first, row_comment};

use it_print::write_origin;
use it_problems::{Constraint, Origin};
use itoa::Buffer;
use std::alloc::{AllocError, Global};

/// The origin of the constraint with index `line`; that of `row` line 0 if there is none.
fn origin_at(constraints: &[Constraint], line: u32) -> Origin
    ensures { result ≡ slice_index_or (origins_of constraints.now) line (Rate 0) }
{
    let index = line as usize;
    if index < constraints.len() {
        constraints[index].origin
    } else {
        Origin::Rate { line: 0 }
    }
}

/// Writes the name of the line of a constraint.
fn write_line_name(
    out: &mut Vec<u8>,
    constraints: &[Constraint],
    line: u32,
) -> Result<(), AllocError>
    ensures { OnOk result (out.new.items ≡ out.old.items ++ line_name (origins_of constraints.now) line) }
{
    write_origin(out, origin_at(constraints, line))
}

/// What stands before a name in a list of lines: `before` for the first one, a comma for the others.
fn before_name(before: &[u8], is_first: bool) -> &[u8]
    ensures { result.now ≡ (if is_first then before.now else codes ", ") }
{
    if is_first { before } else { b", " }
}

/// Writes the names of `lines`, the first one after `before`, the others after commas.
fn write_names(
    out: &mut Vec<u8>,
    before: &[u8],
    constraints: &[Constraint],
    lines: &[u32],
) -> Result<(), AllocError>
    ensures { OnOk result (out.new.items ≡ out.old.items ++ listed_names before.now (origins_of constraints.now) true lines.now) }
{
    let mut is_first = true;
    for line in lines {
        out.extend_from_slice(before_name(before, is_first))?;
        write_line_name(out, constraints, *line)?;
        is_first = false;
    }
    Ok(())
}

/// The comment that names `lines`, to stand behind a text; empty if there are none.
pub fn by_comment(
    alloc: Global,
    constraints: &[Constraint],
    lines: &[u32],
) -> Result<Vec<u8>, AllocError>
    ensures { IfOk result (λ t. t.items ≡ by_comment (origins_of constraints.now) lines.now) }
{
    let mut out = Vec::new(alloc);
    write_names(&mut out, b"  # by ", constraints, lines)?;
    Ok(out)
}

/// Whether a number is below 0.
fn is_below_zero(number: i128) -> bool
    ensures { result ≡ int_lt number (pos 0) }
{
    number < 0
}

/// The text of a weight's sign: without a plus where the weight is the first one of its side.
fn weight_sign(is_first: bool, is_negative: bool) -> &'static [u8]
    ensures { result.now ≡ weight_sign is_first is_negative }
{
    match (is_first, is_negative) {
        (true, true) => b"- ",
        (true, false) => b"",
        (false, true) => b" - ",
        (false, false) => b" + ",
    }
}

/// Writes `number` and a blank; nothing where it is 1.
fn write_times(out: &mut Vec<u8>, number: u128) -> Result<(), AllocError>
    ensures { OnOk result (out.new.items ≡ out.old.items ++ times_text number) }
{
    if number != 1 {
        let mut buffer = Buffer::new();
        out.extend_from_slice(buffer.format(number).as_bytes())?;
        out.extend_from_slice(b" ")?;
    }
    Ok(())
}

/// Writes a weight of a constraint and then the name of its line.
#[tactic(auto, unfolding(crate::specs::RowOrigins::line_weight))]
fn write_line_weight(
    out: &mut Vec<u8>,
    constraints: &[Constraint],
    is_first: bool,
    weight: &(u32, i128),
) -> Result<(), AllocError>
    ensures { OnOk result (out.new.items ≡ out.old.items ++ line_weight (origins_of constraints.now) is_first weight.now) }
{
    out.extend_from_slice(weight_sign(is_first, is_below_zero(weight.1)))?;
    write_times(out, weight.1.unsigned_abs())?;
    write_line_name(out, constraints, weight.0)
}

/// Writes weights of constraints, each followed by the name of its line.
fn write_line_weights(
    out: &mut Vec<u8>,
    constraints: &[Constraint],
    weights: &[(u32, i128)],
) -> Result<(), AllocError>
    ensures { OnOk result (out.new.items ≡ out.old.items ++ line_weights (origins_of constraints.now) true weights.now) }
{
    let mut is_first = true;
    for weight in weights {
        write_line_weight(out, constraints, is_first, weight)?;
        is_first = false;
    }
    Ok(())
}

/// The weights that aren't below 0.
fn positive(alloc: Global, weights: &[(u32, i128)]) -> Result<Vec<(u32, i128)>, AllocError>
    ensures { IfOk result (λ ws. ws.items ≡ filter (λ w. not (int_lt w.1 (pos 0))) weights.now) }
{
    weights
        .iter()
        .copied()
        .filter(|weight| !is_below_zero(weight.1))
        .collect(alloc)
}

/// The weights below 0.
fn negative(alloc: Global, weights: &[(u32, i128)]) -> Result<Vec<(u32, i128)>, AllocError>
    ensures { IfOk result (λ ws. ws.items ≡ filter (λ w. int_lt w.1 (pos 0)) weights.now) }
{
    weights
        .iter()
        .copied()
        .filter(|weight| is_below_zero(weight.1))
        .collect(alloc)
}

/// The weights that aren't below 0, and then those below 0.
fn plus_first(alloc: Global, weights: &[(u32, i128)]) -> Result<Vec<(u32, i128)>, AllocError>
    ensures { IfOk result (λ ws. ws.items ≡ plus_first weights.now) }
{
    let mut ordered = positive(alloc, weights)?;
    let others = negative(alloc, weights)?;
    ordered.extend_from_slice(others.as_slice())?;
    Ok(ordered)
}

/// The comment behind a row: the lines that it comes from, with these weights, and the lines that say the functions by which it is told.
pub fn origin_comment(
    alloc: Global,
    constraints: &[Constraint],
    weights: &[(u32, i128)],
    lines: &[u32],
) -> Result<Vec<u8>, AllocError>
    ensures { IfOk result (λ t. t.items ≡ row_comment (origins_of constraints.now) weights.now lines.now) }
{
    if weights.is_empty() {
        return by_comment(alloc, constraints, lines);
    }
    let mut out = Vec::new(alloc);
    out.extend_from_slice(b"  # ")?;
    let ordered = plus_first(alloc, weights)?;
    write_line_weights(&mut out, constraints, ordered.as_slice())?;
    write_names(&mut out, b", by ", constraints, lines)?;
    Ok(out)
}

/// Writes a weight of a constraint and then, in parentheses, the name of its line.
#[tactic(auto, unfolding(crate::specs::FunctionProofs::named_weight))]
fn write_weight(
    out: &mut Vec<u8>,
    constraints: &[Constraint],
    is_first: bool,
    weight: &(u32, i128),
) -> Result<(), AllocError>
    ensures { OnOk result (out.new.items ≡ out.old.items ++ named_weight (origins_of constraints.now) is_first weight.now) }
{
    out.extend_from_slice(weight_sign(is_first, is_below_zero(weight.1)))?;
    write_times(out, weight.1.unsigned_abs())?;
    out.extend_from_slice(b"(")?;
    write_line_name(out, constraints, weight.0)?;
    out.extend_from_slice(b")")
}

/// `right` with weights of constraints behind it, by the names of their lines.
pub fn with_names(
    alloc: Global,
    right: &[u8],
    constraints: &[Constraint],
    weights: &[(u32, i128)],
) -> Result<Vec<u8>, AllocError>
    ensures { IfOk result (λ t. t.items ≡ right.now ++ named_weights (origins_of constraints.now) (length right.now == 0) weights.now) }
{
    let mut out = Vec::from_slice(alloc, right)?;
    let mut is_first = right.is_empty();
    for weight in weights {
        write_weight(&mut out, constraints, is_first, weight)?;
        is_first = false;
    }
    Ok(out)
}
