//! The lines of answers.
ghost use Rattle.std.specs.Prelude.{◌≡◌, ◌≤◌, ◌<◌, ◌+◌, ◌^◌, ◌++◌, length, codes, decimal, OnOk, IfOk, All};
ghost use Rattle.it_space.specs.Answers.{answer_view};
ghost use Rattle.it_space.specs.Spaces.{most_coordinates};
ghost use Rattle.it_canon.specs.TrueLines.{variable_count};
ghost use Rattle.it_print.specs.Lines.{AreListed, IsCauseOf, IsPrintable, IsRowOver, answer_line, auxiliary_names, cause_text, contained_line, open_line, origins_of, undecided_line, values_text, region_lines};
ghost use Rattle.it_print.specs.ByConstraints.{proofs_text_by};

use crate::pieces::write_number;
use crate::rows::write_row_lines;
use crate::substitutions::write_substitution;
use crate::sums::write_proofs;
use crate::values::{values_text, write_rate};
use it_canon::problem_names;
use it_problems::Constraint;
use it_question::types::Question;
use it_space::{Answer, Cause, Certificate, Mark, Point, Row, VarSet};
use it_syntax::Names;
use std::alloc::{AllocError, Global};

/// The lines of an answer to question k, counted from 1, with the constraints of the question's problem, which are the
/// generators after the elemental inequalities. A region has one line more than it has rows, every other answer has one line.
pub fn answer_line(
    alloc: Global,
    k: usize,
    question: &Question,
    constraints: &[Constraint],
    answer: &Answer,
) -> Result<Vec<u8>, AllocError>
    requires printable { IsPrintable question.now.body (length constraints.now) answer.now }
    ensures { IfOk result (λ t. t.items ≡ answer_line k question.now.body (origins_of constraints.now) (answer_view answer.now)) }
{
    let names = problem_names(question);
    match answer {
        Answer::Yes(proofs) => yes_line(alloc, k, names, constraints, proofs.as_slice()),
        Answer::No { point, .. } => no_line(alloc, k, names, point),
        Answer::Undecided(cause) => undecided_line(alloc, k, names, *cause),
        Answer::Region(rows) => region_lines(alloc, k, names, rows.as_slice()),
        Answer::Contained { parts, .. } => contained_line(alloc, k, question, parts.as_slice()),
        Answer::Open { tried } => open_line(alloc, k, *tried),
    }
}

/// The line of the answer yes.
fn yes_line(
    alloc: Global,
    k: usize,
    names: &Names,
    constraints: &[Constraint],
    proofs: &[Certificate],
) -> Result<Vec<u8>, AllocError>
    requires some { 1 ≤ length names.now.variables }
    requires there { AreListed (length names.now.variables) (length constraints.now) proofs.now }
    ensures { IfOk result (λ t. t.items ≡ decimal k ++ codes " yes " ++ proofs_text_by names.now constraints.now proofs.now ++ codes "\n") }
{
    let mut out = Vec::new(alloc);
    write_number(&mut out, k)?;
    out.extend_from_slice(b" yes ")?;
    write_proofs(alloc, &mut out, names, constraints, proofs)?;
    out.extend_from_slice(b"\n")?;
    Ok(out)
}

/// The line of the answer no.
fn no_line(alloc: Global, k: usize, names: &Names, point: &Point) -> Result<Vec<u8>, AllocError>
    requires there { length point.now < 2 ^ length names.now.variables + length names.now.rates }
    requires few { length point.now ≤ most_coordinates }
    ensures { IfOk result (λ t. t.items ≡ decimal k ++ codes " no " ++ values_text names.now point.now ++ codes "\n") }
{
    let mut out = Vec::new(alloc);
    write_number(&mut out, k)?;
    out.extend_from_slice(b" no ")?;
    let values = values_text(alloc, names, point)?;
    out.extend_from_slice(values.as_slice())?;
    out.extend_from_slice(b"\n")?;
    Ok(out)
}

/// The line of a question that stays undecided.
#[tactic(auto, unfolding(crate::specs::Lines::undecided_line))]
fn undecided_line(
    alloc: Global,
    k: usize,
    names: &Names,
    cause: Cause,
) -> Result<Vec<u8>, AllocError>
    requires { IsCauseOf (length names.now.rates) cause }
    ensures { IfOk result (λ t. t.items ≡ undecided_line k names.now cause) }
{
    let mut out = Vec::new(alloc);
    write_number(&mut out, k)?;
    out.extend_from_slice(b" undecided ")?;
    write_cause(&mut out, names, cause)?;
    out.extend_from_slice(b"\n")?;
    Ok(out)
}

/// The line with the number of a region's rows, and then the line of each.
fn region_lines(
    alloc: Global,
    k: usize,
    names: &Names,
    rows: &[(Mark, Row)],
) -> Result<Vec<u8>, AllocError>
    requires { All (λ row. IsRowOver names.now row.1) rows.now }
    ensures { IfOk result (λ t. t.items ≡ region_lines k names.now rows.now) }
{
    let mut out = Vec::new(alloc);
    write_number(&mut out, k)?;
    out.extend_from_slice(b" region ")?;
    write_number(&mut out, rows.len())?;
    out.extend_from_slice(b"\n")?;
    write_row_lines(&mut out, k, names, rows)?;
    Ok(out)
}

/// The line of a containment that a substitution shows: the set for each auxiliary variable of the second region.
#[tactic(auto, unfolding(crate::specs::Lines::contained_line))]
fn contained_line(
    alloc: Global,
    k: usize,
    question: &Question,
    sets: &[VarSet],
) -> Result<Vec<u8>, AllocError>
    requires { length sets.now ≡ length (auxiliary_names question.now.body.names question.now.body.verb) }
    ensures { IfOk result (λ t. t.items ≡ contained_line k question.now.body sets.now) }
{
    let mut out = Vec::new(alloc);
    write_number(&mut out, k)?;
    out.extend_from_slice(b" contained")?;
    write_substitution(&mut out, question, sets)?;
    out.extend_from_slice(b"\n")?;
    Ok(out)
}

/// The line of a containment that no candidate shows.
#[tactic(auto, unfolding(crate::specs::Lines::open_line))]
fn open_line(alloc: Global, k: usize, tried: u32) -> Result<Vec<u8>, AllocError>
    ensures { IfOk result (λ t. t.items ≡ open_line k tried) }
{
    let mut out = Vec::new(alloc);
    write_number(&mut out, k)?;
    out.extend_from_slice(b" open ")?;
    write_number(&mut out, tried as usize)?;
    out.extend_from_slice(b"\n")?;
    Ok(out)
}

/// Appends the cause why a question is undecided.
#[tactic(auto, unfolding(crate::specs::Lines::cause_text))]
fn write_cause(out: &mut Vec<u8>, names: &Names, cause: Cause) -> Result<(), AllocError>
    requires { IsCauseOf (length names.now.rates) cause }
    ensures { OnOk result (out.new.items ≡ out.old.items ++ cause_text names.now cause) }
{
    match cause {
        Cause::Pivots(steps) => {
            out.extend_from_slice(b"pivots ")?;
            write_number(out, steps as usize)
        }
        Cause::Width(step) => {
            out.extend_from_slice(b"width ")?;
            write_number(out, step as usize)
        }
        Cause::Scale => out.extend_from_slice(b"scale"),
        Cause::Rows(rate) => {
            out.extend_from_slice(b"rows ")?;
            write_rate(out, names, rate)
        }
        Cause::WideRate(rate) => {
            out.extend_from_slice(b"width ")?;
            write_rate(out, names, rate)
        }
    }
}
