//! The lines of mode `best`.
ghost use Rattle.std.specs.Prelude.{◌≡◌, ◌≤◌, ◌++◌, length, codes, decimal, IfOk, OnOk};
ghost use Rattle.std.specs.Fmt.{signed_decimal};
ghost use Rattle.it_print.specs.Lines.{origins_of, values_text};
ghost use Rattle.it_print.specs.PosedQuestions.{IsCertificateOf, names_of, posed_origins};
ghost use Rattle.it_ratio.specs.BestViews.{best_view};
ghost use Rattle.it_factor.specs.Lines.{AreValuesOf, IsBestPrintable, IsPrintable, best_cause_text, best_line, reply_line};
ghost use Rattle.it_factor.specs.LineSteps.{least_line, proven_factor_text, unbounded_line};
ghost use Rattle.it_factor.specs.Replies.{reply_view};

use crate::types::Reply;
use it_canon::problem_names;
use it_print::{PosedQuestion, values_text, write_number, write_proof, write_signed};
use it_problems::Constraint;
use it_question::types::Question;
use it_ratio::types::{Best, BestCause};
use it_space::{Certificate, Point};
use std::alloc::{AllocError, Global};

/// Appends a factor, `num`/`den`.
fn write_ratio(out: &mut Vec<u8>, num: i128, den: i128) -> Result<(), AllocError>
    ensures { OnOk result (out.new.items ≡ out.old.items ++ signed_decimal num ++ codes "/" ++ signed_decimal den) }
{
    write_signed(out, num)?;
    out.extend_from_slice(b"/")?;
    write_signed(out, den)
}

/// Appends a factor and its certificate.
#[tactic(auto, unfolding(crate::specs::Lines::factor_text))]
fn write_factor(
    alloc: Global,
    out: &mut Vec<u8>,
    posed: &PosedQuestion<'_>,
    num: i128,
    den: i128,
    proof: &Certificate,
) -> Result<(), AllocError>
    requires there { IsCertificateOf posed.now proof.now }
    ensures { OnOk result (out.new.items ≡ out.old.items ++ proven_factor_text posed.now num den proof.now) }
{
    write_ratio(out, num, den)?;
    out.extend_from_slice(b" ")?;
    write_proof(alloc, out, posed, proof)
}

/// The line of a least factor.
fn least_line(
    alloc: Global,
    posed: &PosedQuestion<'_>,
    num: i128,
    den: i128,
    proof: &Certificate,
    point: &Point,
) -> Result<Vec<u8>, AllocError>
    requires there { IsCertificateOf posed.now proof.now }
    requires point { AreValuesOf (names_of posed.now) point.now }
    ensures { IfOk result (λ t. t.items ≡ least_line posed.now num den proof.now point.now) }
{
    let mut out = Vec::new(alloc);
    write_number(&mut out, posed.number)?;
    out.extend_from_slice(b" best ")?;
    write_factor(alloc, &mut out, posed, num, den, proof)?;
    out.extend_from_slice(b" at ")?;
    let values = values_text(alloc, problem_names(posed.question), point)?;
    out.extend_from_slice(values.as_slice())?;
    out.extend_from_slice(b"\n")?;
    Ok(out)
}

/// The line where there is no factor.
fn never_line(
    alloc: Global,
    posed: &PosedQuestion<'_>,
    point: &Point,
) -> Result<Vec<u8>, AllocError>
    requires { AreValuesOf (names_of posed.now) point.now }
    ensures { IfOk result (λ t. t.items ≡ decimal posed.now.number ++ codes " none " ++ values_text (names_of posed.now) point.now ++ codes "\n") }
{
    let mut out = Vec::new(alloc);
    write_number(&mut out, posed.number)?;
    out.extend_from_slice(b" none ")?;
    let values = values_text(alloc, problem_names(posed.question), point)?;
    out.extend_from_slice(values.as_slice())?;
    out.extend_from_slice(b"\n")?;
    Ok(out)
}

/// The line where there is no least factor.
fn unbounded_line(
    alloc: Global,
    posed: &PosedQuestion<'_>,
    num: i128,
    den: i128,
    proof: &Certificate,
    below: &Certificate,
) -> Result<Vec<u8>, AllocError>
    requires there { IsCertificateOf posed.now proof.now }
    requires below { IsCertificateOf posed.now below.now }
    ensures { IfOk result (λ t. t.items ≡ unbounded_line posed.now num den proof.now below.now) }
{
    let mut out = Vec::new(alloc);
    write_number(&mut out, posed.number)?;
    out.extend_from_slice(b" unbounded ")?;
    write_factor(alloc, &mut out, posed, num, den, proof)?;
    out.extend_from_slice(b" and ")?;
    write_proof(alloc, &mut out, posed, below)?;
    out.extend_from_slice(b"\n")?;
    Ok(out)
}

/// Appends a number of steps with its phase.
fn write_in_phase(out: &mut Vec<u8>, number: u32, phase: u8) -> Result<(), AllocError>
    ensures { OnOk result (out.new.items ≡ out.old.items ++ decimal number ++ codes " in " ++ decimal phase) }
{
    write_number(out, number as usize)?;
    out.extend_from_slice(b" in ")?;
    write_number(out, phase as usize)
}

/// Appends the cause why the factors are undecided.
#[tactic(auto, unfolding(crate::specs::Lines::best_cause_text))]
fn write_cause(out: &mut Vec<u8>, cause: BestCause) -> Result<(), AllocError>
    ensures { OnOk result (out.new.items ≡ out.old.items ++ best_cause_text cause) }
{
    match cause {
        BestCause::Pivots { steps, part: phase } => {
            out.extend_from_slice(b"pivots ")?;
            write_in_phase(out, steps, phase)
        }
        BestCause::Width { step, part: phase } => {
            out.extend_from_slice(b"width ")?;
            write_in_phase(out, step, phase)
        }
        BestCause::Scale => out.extend_from_slice(b"scale"),
        BestCause::Size => out.extend_from_slice(b"size"),
    }
}

/// The line of a question whose factors are undecided.
fn undecided_line(alloc: Global, k: usize, cause: BestCause) -> Result<Vec<u8>, AllocError>
    ensures { IfOk result (λ t. t.items ≡ decimal k ++ codes " undecided " ++ best_cause_text cause ++ codes "\n") }
{
    let mut out = Vec::new(alloc);
    write_number(&mut out, k)?;
    out.extend_from_slice(b" undecided ")?;
    write_cause(&mut out, cause)?;
    out.extend_from_slice(b"\n")?;
    Ok(out)
}

/// The line of a question that isn't `prove E >= F`.
fn other_line(alloc: Global, k: usize) -> Result<Vec<u8>, AllocError>
    ensures { IfOk result (λ t. t.items ≡ decimal k ++ codes " other\n") }
{
    let mut out = Vec::new(alloc);
    write_number(&mut out, k)?;
    out.extend_from_slice(b" other\n")?;
    Ok(out)
}

/// The line of what was found.
fn best_line(alloc: Global, posed: &PosedQuestion<'_>, found: &Best) -> Result<Vec<u8>, AllocError>
    requires printable { IsBestPrintable (names_of posed.now) (length posed.now.constraints.now) found.now }
    ensures { IfOk result (λ t. t.items ≡ best_line posed.now.number (names_of posed.now) (posed_origins posed.now) (best_view found.now)) }
{
    match found {
        Best::Least {
            num,
            den,
            proof,
            point,
        } => least_line(alloc, posed, *num, *den, proof, point),
        Best::Never(point) => never_line(alloc, posed, point),
        Best::Unbounded {
            num,
            den,
            proof,
            below,
        } => unbounded_line(alloc, posed, *num, *den, proof, below),
        Best::Undecided(cause) => undecided_line(alloc, posed.number, *cause),
    }
}

/// The line of a reply to question k, counted from 1. The constraints are those of the question's problem, which are the generators
/// after the elemental inequalities.
pub fn reply_line(
    alloc: Global,
    k: usize,
    question: &Question,
    constraints: &[Constraint],
    reply: &Reply,
) -> Result<Vec<u8>, AllocError>
    requires printable { IsPrintable question.now.body (length constraints.now) reply.now }
    ensures { IfOk result (λ t. t.items ≡ reply_line k question.now.body (origins_of constraints.now) (reply_view reply.now)) }
{
    match reply {
        Reply::Found(best) => {
            let posed = PosedQuestion {
                number: k,
                question,
                constraints,
            };
            best_line(alloc, &posed, best)
        }
        Reply::Other => other_line(alloc, k),
    }
}
