//! Rows that are to be at least 0 or to be 0, and the lines of those of a region.
ghost use Rattle.std.specs.Prelude.{◌≡◌, ◌<◌, ◌+◌, ◌^◌, ◌++◌, ◌==◌, [], length, codes, decimal, if◌then◌else◌, IfOk, OnOk, All, true, false, flat_map, int_lt, pos};
ghost use Rattle.it_print.specs.Lines.{IsRowOver, kind_text, row_line, row_text, sign_text, term_text, terms_text};

use crate::pieces::write_number;
use crate::values::write_coordinate;
use it_problems::Kind;
use it_space::{Mark, Row};
use it_syntax::Names;
use itoa::Buffer;
use std::alloc::{AllocError, Global};

/// Appends the line of each row of the region that answers question k, in order.
pub fn write_row_lines(
    out: &mut Vec<u8>,
    k: usize,
    names: &Names,
    rows: &[(Mark, Row)],
) -> Result<(), AllocError>
    requires { All (λ row. IsRowOver names.now row.1) rows.now }
    ensures { OnOk result (out.new.items ≡ out.old.items ++ flat_map (row_line k names.now) rows.now) }
{
    for row in rows {
        write_row_line(out, k, names, row)?;
    }
    Ok(())
}

/// Appends the line of a row.
#[tactic(auto, unfolding(crate::specs::Lines::row_line))]
fn write_row_line(
    out: &mut Vec<u8>,
    k: usize,
    names: &Names,
    row: &(Mark, Row),
) -> Result<(), AllocError>
    requires { IsRowOver names.now row.now.1 }
    ensures { OnOk result (out.new.items ≡ out.old.items ++ row_line k names.now row.now) }
{
    write_number(out, k)?;
    out.extend_from_slice(b" row ")?;
    out.extend_from_slice(row.0.word().as_bytes())?;
    out.extend_from_slice(b" ")?;
    write_constraint(out, names, Kind::Inequality, &row.1)?;
    out.extend_from_slice(b"\n")
}

/// The text of a row: its terms in order of the coordinates, with ` >= 0` or ` = 0` after them. A row without terms has `0` in
/// their place.
pub fn row_text(alloc: Global, row: &Row, kind: Kind, names: &Names) -> Result<Vec<u8>, AllocError>
    requires { IsRowOver names.now row.now }
    ensures { IfOk result (λ t. t.items ≡ row_text names.now kind row.now) }
{
    let mut out = Vec::new(alloc);
    write_constraint(&mut out, names, kind, row)?;
    Ok(out)
}

/// Appends the text of a row, like `row_text`.
#[tactic(auto, unfolding(crate::specs::Lines::row_text))]
pub fn write_constraint(
    out: &mut Vec<u8>,
    names: &Names,
    kind: Kind,
    row: &Row,
) -> Result<(), AllocError>
    requires { IsRowOver names.now row.now }
    ensures { OnOk result (out.new.items ≡ out.old.items ++ row_text names.now kind row.now) }
{
    write_form(out, names, row.terms())?;
    out.extend_from_slice(kind_text(kind))
}

/// ` >= 0` or ` = 0`, by the kind of a row.
fn kind_text(kind: Kind) -> &'static [u8]
    ensures { result.now ≡ kind_text kind }
{
    match kind {
        Kind::Inequality => b" >= 0",
        Kind::Equation => b" = 0",
    }
}

/// Appends the terms of a row in order, or `0` if it has none.
fn write_form(out: &mut Vec<u8>, names: &Names, terms: &[(u32, i128)]) -> Result<(), AllocError>
    requires { IsRowOver names.now terms.now }
    ensures { OnOk result (out.new.items ≡ out.old.items ++ (if length terms.now == 0 then codes "0" else terms_text names.now true terms.now)) }
{
    match terms {
        [] => out.extend_from_slice(b"0"),
        [first, rest @ ..] => {
            write_term(out, names, true, first)?;
            write_terms(out, names, rest)
        }
    }
}

/// Appends terms that follow another one.
fn write_terms(out: &mut Vec<u8>, names: &Names, terms: &[(u32, i128)]) -> Result<(), AllocError>
    requires { IsRowOver names.now terms.now }
    ensures { OnOk result (out.new.items ≡ out.old.items ++ terms_text names.now false terms.now) }
{
    for term in terms {
        write_term(out, names, false, term)?;
    }
    Ok(())
}

/// Appends a term: its sign, its coefficient and its coordinate.
#[tactic(auto, unfolding(crate::specs::Lines::term_text))]
fn write_term(
    out: &mut Vec<u8>,
    names: &Names,
    is_first: bool,
    term: &(u32, i128),
) -> Result<(), AllocError>
    requires { term.now.0 < 2 ^ length names.now.variables + length names.now.rates }
    ensures { OnOk result (out.new.items ≡ out.old.items ++ term_text names.now is_first term.now) }
{
    write_sign(out, is_first, is_below_zero(term.1))?;
    write_factor(out, term.1.unsigned_abs())?;
    write_coordinate(out, names, term.0)?;
    Ok(())
}

/// Whether `number` is below 0.
fn is_below_zero(number: i128) -> bool
    ensures { result ≡ int_lt number (pos 0) }
{
    number < 0
}

/// Appends the sign of a term: directly before the first one, between blanks before a later one.
fn write_sign(out: &mut Vec<u8>, is_first: bool, is_negative: bool) -> Result<(), AllocError>
    ensures { OnOk result (out.new.items ≡ out.old.items ++ sign_text is_first is_negative) }
{
    match (is_first, is_negative) {
        (true, true) => out.extend_from_slice(b"-"),
        (true, false) => Ok(()),
        (false, true) => out.extend_from_slice(b" - "),
        (false, false) => out.extend_from_slice(b" + "),
    }
}

/// Appends a coefficient without its sign, unless it is 1.
fn write_factor(out: &mut Vec<u8>, factor: u128) -> Result<(), AllocError>
    ensures { OnOk result (out.new.items ≡ out.old.items ++ (if factor == 1 then [] else decimal factor ++ codes " ")) }
{
    if factor != 1 {
        let mut buffer = Buffer::new();
        out.extend_from_slice(buffer.format(factor).as_bytes())?;
        out.extend_from_slice(b" ")?;
    }
    Ok(())
}
