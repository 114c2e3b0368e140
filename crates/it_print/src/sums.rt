//! Certificates: each weight before its generator, over the scale.
ghost use Rattle.std.specs.Prelude.{◌≡◌, ◌≤◌, ◌<◌, ◌+◌, ◌++◌, length, OnOk, IfOk, All};
ghost use Rattle.it_polymatroid.specs.Elementals.{elementals};
ghost use Rattle.it_canon.specs.TrueLines.{variable_count};
ghost use Rattle.it_print.specs.Lines.{AreListed, weight_text, origins_of, sum_text, variable_names};
ghost use Rattle.it_print.specs.PosedQuestions.{IsCertificateOf, proof_text_of};
ghost use Rattle.it_print.specs.ByConstraints.{certificate_text_by, proofs_text_by};

use crate::generators::write_generator;
use crate::pieces::{write_if, write_signed};
use crate::posed::PosedQuestion;
use it_canon::problem_names;
use it_problems::Constraint;
use it_question::types::Question;
use it_space::{Certificate, is_nonzero_weight};
use it_syntax::Names;
use std::alloc::{AllocError, Global};

/// Appends the certificates with ` and ` between them.
pub fn write_proofs(
    alloc: Global,
    out: &mut Vec<u8>,
    names: &Names,
    constraints: &[Constraint],
    proofs: &[Certificate],
) -> Result<(), AllocError>
    requires some { 1 ≤ length names.now.variables }
    requires there { AreListed (length names.now.variables) (length constraints.now) proofs.now }
    ensures { OnOk result (out.new.items ≡ out.old.items ++ proofs_text_by names.now constraints.now proofs.now) }
{
    let mut some = false;
    for certificate in proofs {
        let mut text = Vec::new(alloc);
        write_certificate(alloc, &mut text, names, constraints, certificate)?;
        some = write_if(out, some, b" and ", true, text.as_slice())?;
    }
    Ok(())
}

/// Appends the scale and the sum of a certificate.
#[tactic(auto, unfolding(crate::specs::Lines::certificate_text))]
fn write_certificate(
    alloc: Global,
    out: &mut Vec<u8>,
    names: &Names,
    constraints: &[Constraint],
    certificate: &Certificate,
) -> Result<(), AllocError>
    requires some { 1 ≤ length names.now.variables }
    requires there { All (λ w. w.0 < length (elementals (length names.now.variables)) + length constraints.now) certificate.now.weights.items }
    ensures { OnOk result (out.new.items ≡ out.old.items ++ certificate_text_by names.now constraints.now certificate.now) }
{
    write_signed(out, certificate.scale)?;
    out.extend_from_slice(b" : ")?;
    write_sum(
        alloc,
        out,
        names,
        constraints,
        certificate.weights.as_slice(),
    )
}

/// Appends the scale and the sum of a certificate of a posed question.
pub fn write_proof(
    alloc: Global,
    out: &mut Vec<u8>,
    posed: &PosedQuestion<'_>,
    proof: &Certificate,
) -> Result<(), AllocError>
    requires there { IsCertificateOf posed.now proof.now }
    ensures { OnOk result (out.new.items ≡ out.old.items ++ proof_text_of posed.now proof.now) }
{
    let names = problem_names(posed.question);
    write_certificate(alloc, out, names, posed.constraints, proof)
}

/// Appends the weights other than 0 with ` + ` between them, or `0`.
#[tactic(auto, using(crate::proofs::LineLemmas::sum_begins, crate::proofs::LineLemmas::sum_step))]
fn write_sum(
    alloc: Global,
    out: &mut Vec<u8>,
    names: &Names,
    constraints: &[Constraint],
    weights: &[(u32, i128)],
) -> Result<(), AllocError>
    requires some { 1 ≤ length names.now.variables }
    requires there { All (λ w. w.0 < length (elementals (length names.now.variables)) + length constraints.now) weights.now }
    ensures { OnOk result (out.new.items ≡ out.old.items ++ sum_text names.now.variables (origins_of constraints.now) weights.now) }
{
    let mut some = false;
    for weight in weights {
        let text = weight_text(alloc, names, constraints, weight)?;
        some = write_if(
            out,
            some,
            b" + ",
            is_nonzero_weight(weight),
            text.as_slice(),
        )?;
    }
    if !some {
        out.extend_from_slice(b"0")?;
    }
    Ok(())
}

/// The text of a weight before its generator.
fn weight_text(
    alloc: Global,
    names: &Names,
    constraints: &[Constraint],
    weight: &(u32, i128),
) -> Result<Vec<u8>, AllocError>
    requires some { 1 ≤ length names.now.variables }
    requires there { weight.now.0 < length (elementals (length names.now.variables)) + length constraints.now }
    ensures { IfOk result (λ t. t.items ≡ weight_text names.now.variables (origins_of constraints.now) weight.now) }
{
    let mut out = Vec::new(alloc);
    write_weight(&mut out, names, constraints, weight)?;
    Ok(out)
}

/// Appends a weight before its generator.
#[tactic(auto, unfolding(crate::specs::Lines::weight_text))]
pub fn write_weight(
    out: &mut Vec<u8>,
    names: &Names,
    constraints: &[Constraint],
    weight: &(u32, i128),
) -> Result<(), AllocError>
    requires some { 1 ≤ length names.now.variables }
    requires there { weight.now.0 < length (elementals (length names.now.variables)) + length constraints.now }
    ensures { OnOk result (out.new.items ≡ out.old.items ++ weight_text names.now.variables (origins_of constraints.now) weight.now) }
{
    write_signed(out, weight.1)?;
    out.extend_from_slice(b" ")?;
    write_generator(out, names, constraints, weight.0)
}

/// The weights other than 0 of a certificate, each before its generator, with ` + ` between them, or `0`. The constraints are
/// those of the question's problem, which are the generators after the elemental inequalities.
pub fn sum_text(
    alloc: Global,
    question: &Question,
    constraints: &[Constraint],
    certificate: &Certificate,
) -> Result<Vec<u8>, AllocError>
    requires there { All (λ w. w.0 < length (elementals (variable_count question.now.body)) + length constraints.now) certificate.now.weights.items }
    ensures { IfOk result (λ t. t.items ≡ sum_text (variable_names question.now.body) (origins_of constraints.now) certificate.now.weights.items) }
{
    let mut out = Vec::new(alloc);
    write_sum(
        alloc,
        &mut out,
        problem_names(question),
        constraints,
        certificate.weights.as_slice(),
    )?;
    Ok(out)
}
