//! The words of verdicts: of the checker's, and of those on hulls.
ghost use Rattle.std.specs.Prelude.{◌≡◌, ◌<◌, ◌+◌, ◌^◌, ◌++◌, length, OnOk, codes, decimal};
ghost use Rattle.std.specs.Fmt.{signed_decimal};
ghost use Rattle.it_report.specs.BoundsVerdicts.{is_hull};
ghost use Rattle.it_report.specs.LineVerdicts.{factor_verdict_text, fault_text, hull_text, key_text, mismatch_text, other_text, verdict_text};
ghost use Rattle.it_report.specs.FactorSteps.{IsFactorVerdictOver};
ghost use Rattle.it_report.specs.Steps.{IsVerdictOver};

use crate::factors::FactorVerdict;
use it_certificate::Key;
use it_check::Verdict;
use it_print::{write_coordinate, write_number, write_signed};
use it_spans::{Fault, HullVerdict};
use it_syntax::Names;
use std::alloc::AllocError;

/// A key as it stands in reports.
pub fn key_name(key: Key) -> &'static str
    ensures { result.now ≡ key_text key }
{
    match key {
        Key::Answer => "answer",
        Key::Sharing => "sharing",
        Key::Copies => "copies",
        Key::Question => "question",
        Key::Factor => "factor",
        Key::Proofs => "proofs",
        Key::Point => "point",
        Key::Side => "side",
        Key::Cause => "cause",
        Key::At => "at",
        Key::Phase => "phase",
        Key::Rows => "rows",
        Key::Parts => "parts",
        Key::Tried => "tried",
        Key::Rays => "rays",
        Key::Code => "code",
        Key::Origins => "origins",
    }
}

/// Appends words and a number: of a generator, a place, a ray or a row.
fn write_place(out: &mut Vec<u8>, words: &[u8], place: usize) -> Result<(), AllocError>
    ensures { OnOk result (out.new.items ≡ out.old.items ++ (words.now ++ decimal place)) }
{
    out.extend_from_slice(words)?;
    write_number(out, place)
}

/// Appends words and a number.
fn write_value(out: &mut Vec<u8>, words: &[u8], value: &i128) -> Result<(), AllocError>
    ensures { OnOk result (out.new.items ≡ out.old.items ++ (words.now ++ signed_decimal value.now)) }
{
    out.extend_from_slice(words)?;
    write_signed(out, *value)
}

/// Appends words, a generator's number and its value.
fn write_generator_value(
    out: &mut Vec<u8>,
    words: &[u8],
    index: u32,
    value: &i128,
) -> Result<(), AllocError>
    ensures { OnOk result (out.new.items ≡ out.old.items ++ (words.now ++ decimal index ++ codes " " ++ signed_decimal value.now)) }
{
    write_place(out, words, index as usize)?;
    write_value(out, b" ", value)
}

/// Appends words and a coordinate with the numbers of the two sides, where they differ.
fn write_mismatch(
    out: &mut Vec<u8>,
    names: &Names,
    words: &[u8],
    coordinate: u32,
    left: &i128,
    right: &i128,
) -> Result<(), AllocError>
    requires { coordinate < 2 ^ length names.now.variables + length names.now.rates }
    ensures { OnOk result (out.new.items ≡ out.old.items ++ (words.now ++ mismatch_text names.now coordinate left.now right.now)) }
{
    out.extend_from_slice(words)?;
    write_coordinate(out, names, coordinate)?;
    write_value(out, b" ", left)?;
    write_value(out, b" ", right)
}

/// Appends the words of a verdict. A coordinate has the name of its set or rate.
#[tactic(auto, unfolding(crate::specs::LineVerdicts::verdict_text))]
pub fn write_verdict(out: &mut Vec<u8>, names: &Names, verdict: &Verdict) -> Result<(), AllocError>
    requires { IsVerdictOver (2 ^ length names.now.variables + length names.now.rates) verdict.now }
    ensures { OnOk result (out.new.items ≡ out.old.items ++ verdict_text names.now verdict.now) }
{
    match verdict {
        Verdict::Valid => out.extend_from_slice(b"valid"),
        Verdict::BadScale { scale } => write_value(out, b"invalid scale ", scale),
        Verdict::UnknownGenerator { index } => write_place(
            out,
            b"invalid generator ",
            *index as usize,
        ),
        Verdict::NegativeWeight { index } => write_place(
            out,
            b"invalid negative ",
            *index as usize,
        ),
        Verdict::Width { place } => write_place(out, b"invalid width ", *place as usize),
        Verdict::Mismatch {
            coordinate,
            left,
            right,
        } => write_mismatch(out, names, b"invalid mismatch ", *coordinate, left, right),
        Verdict::BrokenElemental { index, value } => {
            write_generator_value(out, b"invalid elemental ", *index, value)
        }
        Verdict::UnmetConstraint { index, value } => {
            write_generator_value(out, b"invalid constraint ", *index, value)
        }
        Verdict::NotViolated { value } => write_value(out, b"invalid target ", value),
    }
}

/// Appends the words of a verdict on what is said of factors.
#[tactic(auto, unfolding(crate::specs::LineVerdicts::factor_verdict_text))]
pub fn write_factor_verdict(
    out: &mut Vec<u8>,
    names: &Names,
    verdict: &FactorVerdict,
) -> Result<(), AllocError>
    requires { IsFactorVerdictOver (2 ^ length names.now.variables + length names.now.rates) verdict.now }
    ensures { OnOk result (out.new.items ≡ out.old.items ++ factor_verdict_text names.now verdict.now) }
{
    match verdict {
        FactorVerdict::BelowOne { den } => write_value(out, b"invalid factor ", den),
        FactorVerdict::Checked(verdict) => write_verdict(out, names, verdict),
        FactorVerdict::NotZero { value } => write_value(out, b"invalid zero ", value),
    }
}

/// Appends that a set is the first whose value is another by a code.
#[tactic(auto, unfolding(crate::specs::LineVerdicts::other_text))]
pub fn write_other(out: &mut Vec<u8>, names: &Names, set: u16) -> Result<(), AllocError>
    requires { set < 2 ^ length names.now.variables }
    ensures { OnOk result (out.new.items ≡ out.old.items ++ other_text names.now set) }
{
    out.extend_from_slice(b"invalid code ")?;
    write_coordinate(out, names, set as u32)
}

/// Appends words, and the number of a ray with that of a row that is dropped after it.
fn write_drop(out: &mut Vec<u8>, words: &[u8], ray: usize, number: usize) -> Result<(), AllocError>
    ensures { OnOk result (out.new.items ≡ out.old.items ++ (words.now ++ decimal ray ++ codes " " ++ decimal number)) }
{
    write_place(out, words, ray)?;
    write_place(out, b" ", number)
}

/// Appends the words of what is wrong with the steps of a hull.
fn write_fault(out: &mut Vec<u8>, fault: &Fault) -> Result<(), AllocError>
    ensures { OnOk result (out.new.items ≡ out.old.items ++ (codes "invalid " ++ fault_text fault.now)) }
{
    match fault {
        Fault::TooMany { ray } => write_place(out, b"invalid many ", *ray),
        Fault::TooWide { ray } => write_place(out, b"invalid wide ", *ray),
        Fault::NoRow { ray, drop } => write_drop(out, b"invalid drop ", *ray, *drop),
        Fault::Refused { ray, drop, .. } => write_drop(out, b"invalid drop ", *ray, *drop),
    }
}

/// Appends the words of a verdict on rows as the hull of rays.
#[tactic(auto, unfolding(crate::specs::LineVerdicts::hull_text))]
pub fn write_hull_verdict(out: &mut Vec<u8>, verdict: &HullVerdict) -> Result<(), AllocError>
    ensures { OnOk result (out.new.items ≡ out.old.items ++ hull_text verdict.now) }
{
    match verdict {
        HullVerdict::Valid => out.extend_from_slice(b"valid"),
        HullVerdict::Faulty(fault) => write_fault(out, fault),
        HullVerdict::OtherRow { place } => write_place(out, b"invalid hull ", *place),
    }
}

/// Whether rows are the hull of rays.
pub fn is_hull(verdict: &HullVerdict) -> bool
    ensures { result ≡ is_hull verdict.now }
{
    matches!(verdict, HullVerdict::Valid)
}
