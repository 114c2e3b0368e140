//! The lines of reports of mode `outer`.
ghost use Rattle.std.specs.Prelude.{◌≡◌, ◌≤◌, ◌++◌, All, IfOk, codes, length, map, option_map, true};
ghost use Rattle.it_space.specs.Answers.{certificate_view};
ghost use Rattle.it_space.specs.Spaces.{size_of};
ghost use Rattle.it_demand.specs.QuestionSpaces.{space_of};
ghost use Rattle.it_certificate.specs.Values.{source_texts};
ghost use Rattle.it_rates.specs.Asked.{gone_rates, kept_rates};
ghost use Rattle.it_rates.specs.Frames.{hull_frame};
ghost use Rattle.it_hull.specs.Hulls.{first_rows};
ghost use Rattle.it_spans.specs.Spans.{step_views};
ghost use Rattle.it_bounds.specs.HullSteps.{AreMade};
ghost use Rattle.it_bounds.specs.Replies.{reply_view};
ghost use Rattle.it_bounds.specs.Reports.{AreToldSteps, IsToldReply, IsToldReport, unreported};
ghost use Rattle.it_bounds.specs.ReportViews.{IsBounded, IsBoundsReport, IsToldCause};
ghost use Rattle.it_bounds.specs.RightReplies.{limits_for};
ghost use Rattle.it_space.specs.Rows.{most_system_rows};

use crate::lines::write_cause;
use crate::steps::hull_steps;
use crate::types::Reply;
use it_canon::problem_names;
use it_certificate::{ReportedBounds, SourceText, bounds_json, misfit_json, unmarked};
use it_hull::kept_coordinates;
use it_outer::Limits;
use it_question::types::Question;
use it_rates::{gone_rates, problem_of_lines};
use it_space::{Certificate, Point};
use it_spans::{Frame, Step};
use it_syntax::Names;
use std::alloc::{AllocError, Global};

/// The line of a report of a reply that was made within these limits: its bounds with the steps that make the hull of their rays, and
/// without marks; where it has none, or the steps aren't made, a misfit with the words of the mode's line. The hull is made by one more
/// ray and one reduction after the other; the rows that are dropped have certificates, so that whoever judges needs no search.
pub fn reply_report(
    alloc: Global,
    limits: Limits,
    question: &Question,
    reply: &Reply,
) -> Result<Vec<u8>, AllocError>
    requires few_rows { limits.rows ≤ most_system_rows }
    requires reply { IsToldReply question.now.body reply.now }
    ensures { IfOk result (λ line. IsToldReport limits question.now (reply_view reply.now) line.items) }
{
    let mut line = told_line(alloc, limits, question, reply)?;
    line.extend_from_slice(b"\n")?;
    Ok(line)
}

/// The line without its end.
fn told_line(
    alloc: Global,
    limits: Limits,
    question: &Question,
    reply: &Reply,
) -> Result<Vec<u8>, AllocError>
    requires few_rows { limits.rows ≤ most_system_rows }
    requires reply { IsToldReply question.now.body reply.now }
    ensures { IfOk result (λ line. IsToldReport limits question.now (reply_view reply.now) (line.items ++ codes "\n")) }
{
    let text = question.text(alloc)?;
    let source = SourceText::Question(text.as_slice());
    match told_steps(alloc, limits, question, reply)? {
        Some(steps) => {
            let line = bounded_json(alloc, source, reply, steps)?;
            Ok(line)
        }
        None => {
            let words = unreported(alloc, limits, problem_names(question), reply)?;
            let line = misfit_json(alloc, source, words.as_slice())?;
            Ok(line)
        }
    }
}

/// The steps that make the hull of a reply's rays; none where it has no rays, or they aren't made.
fn told_steps(
    alloc: Global,
    limits: Limits,
    question: &Question,
    reply: &Reply,
) -> Result<Option<Vec<Step>>, AllocError>
    requires few_rows { limits.rows ≤ most_system_rows }
    requires reply { IsToldReply question.now.body reply.now }
    ensures { IfOk result (λ s. AreToldSteps true limits question.now.body (reply_view reply.now) (option_map (λ v. step_views v.items) s)) }
{
    match reply {
        Reply::Bounded { rays, .. } => {
            let steps = steps_for(alloc, limits, question, rays.as_slice())?;
            Ok(steps)
        }
        Reply::Undecided(_) => Ok(None),
        Reply::Size => Ok(None),
        Reply::Other => Ok(None),
    }
}

/// The steps that make the hull of rays, with the limits for the question.
fn steps_for(
    alloc: Global,
    limits: Limits,
    question: &Question,
    rays: &[Point],
) -> Result<Option<Vec<Step>>, AllocError>
    requires few_rows { limits.rows ≤ most_system_rows }
    requires asked { 1 ≤ length (gone_rates question.now.body.verb) }
    requires rays { All (λ ray. length ray ≡ size_of (space_of question.now.body.names)) rays.now }
    ensures { IfOk result (λ s. AreMade (hull_frame limits.rows question.now.body) (limits_for question.now.body limits).effort (first_rows (kept_rates question.now.body (gone_rates question.now.body.verb))) rays.now (option_map (λ v. step_views v.items) s)) }
{
    let problem = problem_of_lines(alloc, question)?;
    let own = limits.under(alloc, &problem)?;
    let steps = steps_of(alloc, own, question, rays)?;
    Ok(steps)
}

/// The steps that make the hull of rays, where the question asks to eliminate rates: multipliers stand at the first of these.
fn steps_of(
    alloc: Global,
    limits: Limits,
    question: &Question,
    rays: &[Point],
) -> Result<Option<Vec<Step>>, AllocError>
    requires few_rows { limits.rows ≤ most_system_rows }
    requires asked { 1 ≤ length (gone_rates question.now.body.verb) }
    requires rays { All (λ ray. length ray ≡ size_of (space_of question.now.body.names)) rays.now }
    ensures { IfOk result (λ s. AreMade (hull_frame limits.rows question.now.body) limits.effort (first_rows (kept_rates question.now.body (gone_rates question.now.body.verb))) rays.now (option_map (λ v. step_views v.items) s)) }
{
    question.facts();
    let space = question.space();
    let gone = gone_rates(question.verb());
    let kept = kept_coordinates(alloc, space, gone)?;
    let frame = Frame {
        space,
        spare: gone[0],
        rows: limits.rows,
    };
    // named before it is answered, so that the contract of the call stands at the answer
    let steps = hull_steps(alloc, frame, kept.as_slice(), limits.effort, rays)?;
    Ok(steps)
}

/// The line of bounds, without its end.
fn bounded_json(
    alloc: Global,
    source: SourceText<'_>,
    reply: &Reply,
    steps: Vec<Step>,
) -> Result<Vec<u8>, AllocError>
    requires { IsBounded reply.now }
    ensures { IfOk result (λ out. IsBoundsReport (source_texts source.entry) (reply_view reply.now) (step_views steps.items) out.items) }
{
    let Reply::Bounded { rows, proofs, .. } = reply else {
        unreachable!()
    };
    let bounds = ReportedBounds {
        rows: unmarked(alloc, rows.as_slice())?,
        proofs: copied(alloc, proofs.as_slice())?,
        steps,
    };
    let line = bounds_json(alloc, source, &bounds)?;
    Ok(line)
}

/// Copies of `proofs`, in order.
fn copied(alloc: Global, proofs: &[Certificate]) -> Result<Vec<Certificate>, AllocError>
    ensures { IfOk result (λ v. map certificate_view v.items ≡ map certificate_view proofs.now) }
{
    let mut own = Vec::new(alloc);
    for proof in proofs {
        let copy = proof.copy(alloc)?;
        own.push(copy)?;
    }
    Ok(own)
}

/// The words that say why there are no bounds to report.
fn unreported(
    alloc: Global,
    limits: Limits,
    names: &Names,
    reply: &Reply,
) -> Result<Vec<u8>, AllocError>
    requires { IsToldCause names.now reply.now }
    ensures { IfOk result (λ v. v.items ≡ unreported limits names.now (reply_view reply.now)) }
{
    let mut words = Vec::new(alloc);
    match reply {
        Reply::Bounded { .. } => words.extend_from_slice(b"undecided drops")?,
        Reply::Undecided(cause) => {
            words.extend_from_slice(b"undecided ")?;
            write_cause(alloc, &mut words, limits, names, cause)?;
        }
        Reply::Size => words.extend_from_slice(b"undecided size")?,
        Reply::Other => words.extend_from_slice(b"other")?,
    }
    Ok(words)
}
