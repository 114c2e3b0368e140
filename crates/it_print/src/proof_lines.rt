//! Answers with the rows that their proofs use.
ghost use Rattle.std.specs.Prelude.{◌≡◌, ◌≤◌, ◌<◌, ◌+◌, ◌++◌, length, filter, flat_map, OnOk, IfOk, All};
ghost use Rattle.it_space.specs.Answers.{answer_view, is_nonzero_weight};
ghost use Rattle.it_polymatroid.specs.Elementals.{elementals};
ghost use Rattle.it_question.specs.ProblemLines.{problem_names};
ghost use Rattle.it_print.specs.Lines.{AreListed, IsPrintable, IsRowOver, row_text};
ghost use Rattle.it_print.specs.PosedQuestions.{HasRowsOver, IsCertificateOf, generator_count, names_of};
ghost use Rattle.it_print.specs.ProofLines.{generator_rows, generator_row_text, proof_text_by, sum_line};
ghost use Rattle.it_print.specs.ByConstraints.{certificate_lines_by, elemental_row_text, proof_lines_by, weight_line_by};

use crate::lines::answer_line;
use crate::pieces::{write_number, write_signed};
use crate::posed::PosedQuestion;
use crate::rows::write_constraint;
use crate::sums::write_weight;
use it_canon::problem_names;
use it_elemental::{count, row};
use it_problems::{Constraint, Kind};
use it_question::types::Question;
use it_space::{Answer, Certificate, Row, is_nonzero_weight};
use it_syntax::Names;
use std::alloc::{AllocError, Global};

/// The lines of an answer to question k, those of `answer_line`, and after them what its certificates add up: for each
/// certificate, with the target of its number, a line for each weight other than 0 with its generator's row, and one with the
/// scale and the target's row.
pub fn proof_text(
    alloc: Global,
    k: usize,
    question: &Question,
    constraints: &[Constraint],
    targets: &[Row],
    answer: &Answer,
) -> Result<Vec<u8>, AllocError>
    requires printable { IsPrintable question.now.body (length constraints.now) answer.now }
    requires rows { All (λ c. IsRowOver (problem_names question.now.body) c.row) constraints.now }
    requires targets { All (IsRowOver (problem_names question.now.body)) targets.now }
    ensures { IfOk result (λ t. t.items ≡ proof_text_by k question.now.body constraints.now targets.now (answer_view answer.now)) }
{
    let mut out = answer_line(alloc, k, question, constraints, answer)?;
    let posed = PosedQuestion {
        number: k,
        question,
        constraints,
    };
    match answer {
        Answer::Yes(proofs) | Answer::Contained { proofs, .. } => {
            write_proof_lines(alloc, &mut out, &posed, targets, proofs.as_slice())?;
        }
        Answer::No { .. } | Answer::Undecided(_) | Answer::Region(_) | Answer::Open { .. } => {}
    }
    Ok(out)
}

/// Appends the lines of certificates, each with its target.
fn write_proof_lines(
    alloc: Global,
    out: &mut Vec<u8>,
    posed: &PosedQuestion<'_>,
    targets: &[Row],
    proofs: &[Certificate],
) -> Result<(), AllocError>
    requires there { AreListed (length (names_of posed.now).variables) (length posed.now.constraints.now) proofs.now }
    requires rows { HasRowsOver posed.now }
    requires targets { All (IsRowOver (names_of posed.now)) targets.now }
    ensures { OnOk result (out.new.items ≡ out.old.items ++ proof_lines_by posed.now proofs.now targets.now) }
{
    // by index, since the invariant speaks of both lists from i on
    for i in 0..proofs.len().min(targets.len()) {
        write_certificate_lines(alloc, out, posed, &proofs[i], &targets[i])?;
    }
    Ok(())
}

/// Appends the lines of a certificate and its target.
#[tactic(auto, unfolding(crate::specs::ProofLines::certificate_lines))]
fn write_certificate_lines(
    alloc: Global,
    out: &mut Vec<u8>,
    posed: &PosedQuestion<'_>,
    certificate: &Certificate,
    target: &Row,
) -> Result<(), AllocError>
    requires there { IsCertificateOf posed.now certificate.now }
    requires rows { HasRowsOver posed.now }
    requires target { IsRowOver (names_of posed.now) target.now }
    ensures { OnOk result (out.new.items ≡ out.old.items ++ certificate_lines_by posed.now certificate.now target.now) }
{
    write_weight_lines(alloc, out, posed, certificate.weights.as_slice())?;
    write_sum_line(out, posed, certificate, target)
}

/// Appends the lines of the weights other than 0.
fn write_weight_lines(
    alloc: Global,
    out: &mut Vec<u8>,
    posed: &PosedQuestion<'_>,
    weights: &[(u32, i128)],
) -> Result<(), AllocError>
    requires there { All (λ w. w.0 < generator_count posed.now) weights.now }
    requires rows { HasRowsOver posed.now }
    ensures { OnOk result (out.new.items ≡ out.old.items ++ flat_map (weight_line_by posed.now) (filter is_nonzero_weight weights.now)) }
{
    for weight in weights {
        if is_nonzero_weight(weight) {
            write_weight_line(alloc, out, posed, weight)?;
        }
    }
    Ok(())
}

/// Appends the line of a weight: the weight, its generator, and the generator's row.
#[tactic(auto, unfolding(crate::specs::ProofLines::weight_line))]
fn write_weight_line(
    alloc: Global,
    out: &mut Vec<u8>,
    posed: &PosedQuestion<'_>,
    weight: &(u32, i128),
) -> Result<(), AllocError>
    requires there { weight.now.0 < generator_count posed.now }
    requires rows { HasRowsOver posed.now }
    ensures { OnOk result (out.new.items ≡ out.old.items ++ weight_line_by posed.now weight.now) }
{
    let names = problem_names(posed.question);
    write_number(out, posed.number)?;
    out.extend_from_slice(b" proof ")?;
    write_weight(out, names, posed.constraints, weight)?;
    out.extend_from_slice(b" : ")?;
    write_generator_row(alloc, out, names, posed.constraints, weight.0)?;
    out.extend_from_slice(b"\n")
}

/// Appends the row of generator number `generator`, an elemental inequality or a constraint.
fn write_generator_row(
    alloc: Global,
    out: &mut Vec<u8>,
    names: &Names,
    constraints: &[Constraint],
    generator: u32,
) -> Result<(), AllocError>
    requires some { 1 ≤ length names.now.variables }
    requires there { generator < length (elementals (length names.now.variables)) + length constraints.now }
    requires rows { All (λ c. IsRowOver names.now c.row) constraints.now }
    ensures { OnOk result (out.new.items ≡ out.old.items ++ generator_row_text names.now (generator_rows names.now constraints.now generator)) }
{
    let elementals = count(names.space().variables);
    if generator < elementals {
        write_elemental_row(alloc, out, names, generator)
    } else {
        write_constraint_row(out, names, &constraints[(generator - elementals) as usize])
    }
}

/// Appends the row of elemental inequality number `index`.
fn write_elemental_row(
    alloc: Global,
    out: &mut Vec<u8>,
    names: &Names,
    index: u32,
) -> Result<(), AllocError>
    requires some { 1 ≤ length names.now.variables }
    requires listed { index < length (elementals (length names.now.variables)) }
    ensures { OnOk result (out.new.items ≡ out.old.items ++ elemental_row_text names.now index) }
{
    let row = row(alloc, names.space().variables, index)?;
    write_constraint(out, names, Kind::Inequality, &row)
}

/// Appends the row of a constraint.
fn write_constraint_row(
    out: &mut Vec<u8>,
    names: &Names,
    constraint: &Constraint,
) -> Result<(), AllocError>
    requires { IsRowOver names.now constraint.now.row }
    ensures { OnOk result (out.new.items ≡ out.old.items ++ row_text names.now constraint.now.kind constraint.now.row) }
{
    write_constraint(out, names, constraint.kind, &constraint.row)
}

/// Appends the line of the scale and the target.
fn write_sum_line(
    out: &mut Vec<u8>,
    posed: &PosedQuestion<'_>,
    certificate: &Certificate,
    target: &Row,
) -> Result<(), AllocError>
    requires { IsRowOver (names_of posed.now) target.now }
    ensures { OnOk result (out.new.items ≡ out.old.items ++ sum_line posed.now.number (names_of posed.now) certificate.now.scale target.now) }
{
    write_number(out, posed.number)?;
    out.extend_from_slice(b" sum ")?;
    write_signed(out, certificate.scale)?;
    out.extend_from_slice(b" : ")?;
    write_constraint(out, problem_names(posed.question), Kind::Inequality, target)?;
    out.extend_from_slice(b"\n")
}
