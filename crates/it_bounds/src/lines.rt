//! The lines of mode `outer`.
ghost use Rattle.std.specs.Prelude.{◌≡◌, ◌≤◌, ◌++◌, All, IfOk, OnOk, codes, decimal, length};
ghost use Rattle.it_space.specs.Spaces.{size_of, most_variables, most_rates};
ghost use Rattle.it_demand.specs.QuestionSpaces.{space_of};
ghost use Rattle.it_syntax.specs.NamesViews.{NamesView};
ghost use Rattle.it_print.specs.Lines.{IsRowOver, cause_text, origins_of};
ghost use Rattle.it_print.specs.PosedQuestions.{IsCertificateOf, names_of};
ghost use Rattle.it_outer.specs.Outer.{cause_view};
ghost use Rattle.it_outer.specs.Rounds.{ArePlaces};
ghost use Rattle.it_bounds.specs.Lines.{AreOfNames, IsCausePrintable, IsOfRun, IsPrintable, bounds_cause_text, ray_line, reply_lines};
ghost use Rattle.it_bounds.specs.LineSteps.{bound_lines, count_line, ray_lines, row_line, row_lines};
ghost use Rattle.it_bounds.specs.Replies.{reply_view};

use crate::rays::write_rates;
use crate::types::Reply;
use it_canon::problem_names;
use it_hull::kept_coordinates;
use it_outer::{Limits, OuterCause};
use it_print::{PosedQuestion, row_text, values_text, write_number, write_proof};
use it_problems::{Constraint, Kind};
use it_question::types::Question;
use it_rates::gone_rates;
use it_space::{Cause, Certificate, Mark, Point, Row};
use it_syntax::Names;
use std::alloc::{AllocError, Global};

/// The lines of a reply to question k, counted from 1, which was made within these limits, with the constraints of the problem that all
/// its lines pose, which are the generators after the elemental inequalities. A bound has one line more than it has rows and rays, every
/// other reply has one line.
pub fn reply_lines(
    alloc: Global,
    limits: Limits,
    k: usize,
    question: &Question,
    constraints: &[Constraint],
    reply: &Reply,
) -> Result<Vec<u8>, AllocError>
    requires printable { IsPrintable question.now.body (length constraints.now) reply.now }
    ensures { IfOk result (λ t. t.items ≡ reply_lines limits k question.now.body (origins_of constraints.now) (reply_view reply.now)) }
{
    match reply {
        Reply::Bounded { rows, proofs, rays } => {
            let posed = PosedQuestion {
                number: k,
                question,
                constraints,
            };
            bounds_lines(
                alloc,
                &posed,
                rows.as_slice(),
                proofs.as_slice(),
                rays.as_slice(),
            )
        }
        Reply::Undecided(cause) => undecided_line(alloc, limits, k, problem_names(question), cause),
        Reply::Size => word_line(alloc, k, b" undecided size\n"),
        Reply::Other => word_line(alloc, k, b" other\n"),
    }
}

/// The line of a reply that has the same words for each question.
fn word_line(alloc: Global, k: usize, words: &[u8]) -> Result<Vec<u8>, AllocError>
    ensures { IfOk result (λ t. t.items ≡ decimal k ++ words.now) }
{
    let mut out = Vec::new(alloc);
    write_number(&mut out, k)?;
    out.extend_from_slice(words)?;
    Ok(out)
}

/// The lines of a bound.
#[tactic(auto, unfolding(crate::specs::Lines::bounds_lines))]
fn bounds_lines(
    alloc: Global,
    posed: &PosedQuestion<'_>,
    rows: &[(Mark, Row)],
    proofs: &[Certificate],
    rays: &[Point],
) -> Result<Vec<u8>, AllocError>
    requires as_many { length rows.now ≡ length proofs.now }
    requires rows { All (λ row. IsRowOver (names_of posed.now) row.1) rows.now }
    requires there { All (IsCertificateOf posed.now) proofs.now }
    requires rays { AreOfNames (names_of posed.now) rays.now }
    ensures { IfOk result (λ t. t.items ≡ bound_lines posed.now rows.now proofs.now rays.now) }
{
    let mut out = Vec::new(alloc);
    write_count(&mut out, posed.number, rows.len(), rays.len())?;
    write_rows(alloc, &mut out, posed, rows, proofs)?;
    write_rays(alloc, &mut out, posed, rays)?;
    Ok(out)
}

/// Appends the line with the numbers of rows and of rays.
fn write_count(out: &mut Vec<u8>, k: usize, rows: usize, rays: usize) -> Result<(), AllocError>
    ensures { OnOk result (out.new.items ≡ out.old.items ++ count_line k rows rays) }
{
    write_number(out, k)?;
    out.extend_from_slice(b" outer ")?;
    write_number(out, rows)?;
    out.extend_from_slice(b" ")?;
    write_number(out, rays)?;
    out.extend_from_slice(b"\n")
}

/// Appends the lines of rows with their certificates.
fn write_rows(
    alloc: Global,
    out: &mut Vec<u8>,
    posed: &PosedQuestion<'_>,
    rows: &[(Mark, Row)],
    proofs: &[Certificate],
) -> Result<(), AllocError>
    requires as_many { length rows.now ≡ length proofs.now }
    requires rows { All (λ row. IsRowOver (names_of posed.now) row.1) rows.now }
    requires there { All (IsCertificateOf posed.now) proofs.now }
    ensures { OnOk result (out.new.items ≡ out.old.items ++ row_lines posed.now rows.now proofs.now) }
{
    for i in 0..rows.len() {
        write_row(alloc, out, posed, &rows[i], &proofs[i])?;
    }
    Ok(())
}

/// Appends the line of a row with its certificate.
#[tactic(auto, unfolding(crate::specs::Lines::proven_row_line))]
fn write_row(
    alloc: Global,
    out: &mut Vec<u8>,
    posed: &PosedQuestion<'_>,
    row: &(Mark, Row),
    proof: &Certificate,
) -> Result<(), AllocError>
    requires row { IsRowOver (names_of posed.now) row.now.1 }
    requires there { IsCertificateOf posed.now proof.now }
    ensures { OnOk result (out.new.items ≡ out.old.items ++ row_line posed.now row.now proof.now) }
{
    write_number(out, posed.number)?;
    out.extend_from_slice(b" row ")?;
    out.extend_from_slice(row.0.word().as_bytes())?;
    out.extend_from_slice(b" ")?;
    let names = problem_names(posed.question);
    let text = row_text(alloc, &row.1, Kind::Inequality, names)?;
    out.extend_from_slice(text.as_slice())?;
    out.extend_from_slice(b" by ")?;
    write_proof(alloc, out, posed, proof)?;
    out.extend_from_slice(b"\n")
}

/// Appends the lines of rays.
fn write_rays(
    alloc: Global,
    out: &mut Vec<u8>,
    posed: &PosedQuestion<'_>,
    rays: &[Point],
) -> Result<(), AllocError>
    requires rays { AreOfNames (names_of posed.now) rays.now }
    ensures { OnOk result (out.new.items ≡ out.old.items ++ ray_lines posed.now rays.now) }
{
    let names = problem_names(posed.question);
    let kept = kept_coordinates(alloc, names.space(), gone_rates(posed.question.verb()))?;
    for ray in rays {
        write_ray(alloc, out, posed.number, names, kept.as_slice(), ray)?;
    }
    Ok(())
}

/// Appends the line of a ray.
#[tactic(auto, unfolding(crate::specs::Lines::ray_line))]
fn write_ray(
    alloc: Global,
    out: &mut Vec<u8>,
    k: usize,
    names: &Names,
    kept: &[u32],
    ray: &Point,
) -> Result<(), AllocError>
    requires variables { length names.now.variables ≤ most_variables }
    requires rates { length names.now.rates ≤ most_rates }
    requires kept { ArePlaces (size_of (space_of names.now)) kept.now }
    requires ray { length ray.now ≡ size_of (space_of names.now) }
    ensures { OnOk result (out.new.items ≡ out.old.items ++ ray_line k names.now kept.now ray.now) }
{
    write_number(out, k)?;
    out.extend_from_slice(b" ray ")?;
    write_rates(out, names, kept, ray)?;
    out.extend_from_slice(b" at ")?;
    let values = values_text(alloc, names, ray)?;
    out.extend_from_slice(values.as_slice())?;
    out.extend_from_slice(b"\n")
}

/// The line of a question whose bound is undecided.
fn undecided_line(
    alloc: Global,
    limits: Limits,
    k: usize,
    names: &Names,
    cause: &OuterCause,
) -> Result<Vec<u8>, AllocError>
    requires { IsCausePrintable names.now cause.now }
    ensures { IfOk result (λ t. t.items ≡ decimal k ++ codes " undecided " ++ bounds_cause_text names.now limits (cause_view cause.now) ++ codes "\n") }
{
    let mut out = Vec::new(alloc);
    write_number(&mut out, k)?;
    out.extend_from_slice(b" undecided ")?;
    write_cause(alloc, &mut out, limits, names, cause)?;
    out.extend_from_slice(b"\n")?;
    Ok(out)
}

/// Appends the cause why a bound is undecided.
#[tactic(auto, unfolding(crate::specs::Lines::bounds_cause_text))]
pub fn write_cause(
    alloc: Global,
    out: &mut Vec<u8>,
    limits: Limits,
    names: &Names,
    cause: &OuterCause,
) -> Result<(), AllocError>
    requires { IsCausePrintable names.now cause.now }
    ensures { OnOk result (out.new.items ≡ out.old.items ++ bounds_cause_text names.now limits (cause_view cause.now)) }
{
    match cause {
        OuterCause::Run(row, cause) => {
            write_run(out, *cause)?;
            out.extend_from_slice(b" in ")?;
            let text = row_text(alloc, row, Kind::Inequality, names)?;
            out.extend_from_slice(text.as_slice())
        }
        OuterCause::Rows => out.extend_from_slice(b"rows"),
        OuterCause::Width => out.extend_from_slice(b"width"),
        OuterCause::Rays => {
            out.extend_from_slice(b"rays ")?;
            write_number(out, limits.rays)
        }
    }
}

/// Appends the cause why a run has no end within its bounds.
#[tactic(auto, unfolding(it_print::specs::Lines::cause_text))]
fn write_run(out: &mut Vec<u8>, cause: Cause) -> Result<(), AllocError>
    requires { IsOfRun cause }
    ensures { OnOk result ((v : NamesView) → out.new.items ≡ out.old.items ++ cause_text v cause) }
{
    match cause {
        Cause::Pivots(steps) => {
            out.extend_from_slice(b"pivots ")?;
            write_number(out, steps as usize)
        }
        Cause::Width(step) => {
            out.extend_from_slice(b"width ")?;
            write_number(out, step as usize)
        }
        Cause::Scale => out.extend_from_slice(b"scale"),
        // no run ends by these
        Cause::Rows(_) => unreachable!(),
        Cause::WideRate(_) => unreachable!(),
    }
}
