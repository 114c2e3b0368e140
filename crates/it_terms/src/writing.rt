//! Relations as question files write them. What is written is judged as it is read back, so no clause says it here.

use crate::measures::{Measure, own_spelling};
use it_print::{write_number, write_set};
use it_space::VarSet;
use it_syntax::Names;
use it_syntax::types::{Atom, Sign, Term};
use std::alloc::{AllocError, Global};

/// Writes a bar and `given`, unless it is empty, and then the right parenthesis.
fn write_given(out: &mut Vec<u8>, names: &Names, given: VarSet) -> Result<(), AllocError> {
    if given != VarSet::empty() {
        out.extend_from_slice(b"|")?;
        write_set(out, names, given)?;
    }
    out.extend_from_slice(b")")
}

/// Writes `H(A)`, `H(A|C)`, `I(A;B)` or `I(A;B|C)`, the sets in order of declaration; the name of a rate, if there is such a
/// rate; `0`.
fn write_plain(out: &mut Vec<u8>, names: &Names, atom: &Atom) -> Result<(), AllocError> {
    match atom {
        Atom::Nothing => out.extend_from_slice(b"0"),
        Atom::Entropy { of, given } => {
            out.extend_from_slice(b"H(")?;
            write_set(out, names, *of)?;
            write_given(out, names, *given)
        }
        Atom::Mutual { left, right, given } => {
            out.extend_from_slice(b"I(")?;
            write_set(out, names, *left)?;
            out.extend_from_slice(b";")?;
            write_set(out, names, *right)?;
            write_given(out, names, *given)
        }
        Atom::Rate(rate) if *rate < names.space().rates => {
            out.extend_from_slice(names.rate_name(*rate))
        }
        Atom::Rate(_) => Ok(()),
    }
}

/// Writes `atom`, in the author's own spelling if it is one of `measures`.
fn write_atom(
    out: &mut Vec<u8>,
    measures: &[Measure],
    names: &Names,
    atom: &Atom,
) -> Result<(), AllocError> {
    match own_spelling(measures, atom) {
        Some(spelling) => out.extend_from_slice(spelling),
        None => write_plain(out, names, atom),
    }
}

/// The text of a term's sign: without a plus where the term is the first one of its side.
fn sign_before(is_first: bool, negative: bool) -> &'static [u8] {
    match (is_first, negative) {
        (true, true) => b"- ",
        (true, false) => b"",
        (false, true) => b" - ",
        (false, false) => b" + ",
    }
}

/// Writes `number` and a blank; nothing where it is 1.
fn write_factor(out: &mut Vec<u8>, number: u64) -> Result<(), AllocError> {
    if number == 1 {
        return Ok(());
    }
    write_number(out, number as usize)?;
    out.extend_from_slice(b" ")
}

/// Writes the terms of a side with their signs; `0` if there are none.
fn write_side(
    out: &mut Vec<u8>,
    measures: &[Measure],
    names: &Names,
    terms: &[Term],
) -> Result<(), AllocError> {
    for (i, term) in terms.iter().enumerate() {
        out.extend_from_slice(sign_before(i == 0, term.negative))?;
        write_factor(out, term.number)?;
        write_atom(out, measures, names, &term.atom)?;
    }
    if terms.is_empty() {
        out.extend_from_slice(b"0")?;
    }
    Ok(())
}

/// The text of the terms of a side, nothing where there are none.
pub fn terms_text(
    alloc: Global,
    measures: &[Measure],
    names: &Names,
    terms: &[Term],
) -> Result<Vec<u8>, AllocError> {
    let mut out = Vec::new(alloc);
    if !terms.is_empty() {
        write_side(&mut out, measures, names, terms)?;
    }
    Ok(out)
}

/// The text of a relation's sign, between blanks.
fn sign_text(sign: Sign) -> &'static [u8] {
    match sign {
        Sign::AtLeast => b" >= ",
        Sign::AtMost => b" <= ",
        Sign::Equal => b" = ",
    }
}

/// The text of two sums and the sign between them.
pub fn sums_text(
    alloc: Global,
    measures: &[Measure],
    names: &Names,
    left: &[Term],
    sign: Sign,
    right: &[Term],
) -> Result<Vec<u8>, AllocError> {
    let mut out = Vec::new(alloc);
    write_side(&mut out, measures, names, left)?;
    out.extend_from_slice(sign_text(sign))?;
    write_side(&mut out, measures, names, right)?;
    Ok(out)
}
