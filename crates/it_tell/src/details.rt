//! The lines below the first one of an answer: proofs and points, and those of regions and containments.
ghost use Rattle.std.specs.Prelude.{◌≡◌, ◌⊎◌, ◌≤◌, ◌<◌, ◌+◌, ◌^◌, ◌++◌, length, map, codes, IfOk, IfSome, OnOk};
ghost use Rattle.std.specs.List.{flat_map};
ghost use Rattle.it_space.specs.Answers.{answer_view, certificate_view};
ghost use Rattle.it_space.specs.Rows.{value};
ghost use Rattle.it_space.specs.Spaces.{most_coordinates};
ghost use Rattle.it_space.specs.Answers.AnswerView.{Yes};
ghost use Rattle.it_syntax.specs.Meaning.{relation_view};
ghost use Rattle.it_question.specs.Questions.{Prove};
ghost use Rattle.it_question.specs.ProblemLines.{problem_names};
ghost use Rattle.it_canon.specs.TrueLines.{variable_count};
ghost use Rattle.it_canon.specs.QuestionDemands.{question_origins};
ghost use Rattle.it_certificate.specs.AnswerShapes.{HasQuestionShape};
ghost use Rattle.it_print.specs.Lines.{AreListed, IsPrintable, origins_of, values_text};
ghost use Rattle.it_polymatroid.specs.Certificates.{Form};
ghost use Rattle.it_report.specs.Steps.{IsAboutRelation};
ghost use Rattle.it_facts.specs.Points.{TellsPoint};
ghost use Rattle.it_terms.specs.FunctionProofs.{ArePrinted};
ghost use Rattle.it_tell.specs.Tellings.{ArePrintedSteps, ArePrintedTexts, AreProofSteps, AreProofTexts, IsPointText, IsProofText, indented_line, step_line, weights_text};
ghost use Rattle.it_tell.specs.Steps.{AppendsDetails, AppendsPoint, AppendsProof, AppendsProofs, AreFormRows, IsListed, IsStyled, proven_form};

use crate::alike::alike_text;
use crate::containments::{Containment, write_contained};
use crate::regions::write_rows;
use crate::settings::{Options, Style, is_plain};
use it_canon::{problem_names, target_rows};
use it_facts::told_point;
use it_print::{sum_text, values_text, write_signed};
use it_problems::Constraint;
use it_question::types::{Question, Verb};
use it_space::{Answer, Certificate, Point, Row};
use it_syntax::types::Relation;
use it_terms::{PrintedProof, Proven, printed_form, printed_steps, told_form, told_steps};
use std::alloc::{AllocError, Global};

/// Appends a text as a line below the first one.
#[tactic(auto, unfolding(crate::specs::Tellings::indented_line))]
pub fn write_indented(out: &mut Vec<u8>, text: &[u8]) -> Result<(), AllocError>
    ensures { OnOk result (out.new.items ≡ out.old.items ++ indented_line text.now) }
{
    out.extend_from_slice(b"  ")?;
    out.extend_from_slice(text)?;
    out.extend_from_slice(b"\n")
}

/// The weights of a certificate as answers have them.
#[tactic(auto, unfolding(it_print::specs::Lines::certificate_text))]
fn weights_text(
    alloc: Global,
    question: &Question,
    constraints: &[Constraint],
    certificate: &Certificate,
) -> Result<Vec<u8>, AllocError>
    requires there { IsListed (variable_count question.now.body) (length constraints.now) certificate.now }
    ensures { IfOk result (λ t. t.items ≡ weights_text question.now.body (origins_of constraints.now) (certificate_view certificate.now)) }
{
    let mut out = Vec::new(alloc);
    out.extend_from_slice(b"as weights ")?;
    write_signed(&mut out, certificate.scale)?;
    out.extend_from_slice(b" : ")?;
    let sum = sum_text(alloc, question, constraints, certificate)?;
    out.extend_from_slice(sum.as_slice())?;
    Ok(out)
}

/// The relation of a question that is about one.
fn relation_of(question: &Question) -> &Relation
    requires { IsAboutRelation question.now.body.verb }
    ensures { question.now.body.verb ≡ Prove (relation_view result.now) }
{
    let Verb::Prove(relation) = question.verb() else {
        unreachable!()
    };
    relation
}

/// The rows of the targets of the relation that a question asks for.
fn relation_rows(
    alloc: Global,
    question: &Question,
    proofs: &[Certificate],
) -> Result<Vec<Row>, AllocError>
    requires fits { HasQuestionShape question.now.body (Yes (map certificate_view proofs.now)) }
    ensures { IfOk result (λ rows. AreFormRows question.now.body (Yes (map certificate_view proofs.now)) rows.items) }
{
    question.facts();
    // the proofs are named in the clauses alone
    let _proofs = proofs;
    let relation = relation_of(question);
    let rows = target_rows(alloc, relation, question.space())?;
    Ok(rows)
}

/// A question with how it is told and the constraints of its problem, which are the generators after the elemental inequalities.
#[derive(Clone, Copy)]
pub struct Asked<'a> {
    pub question: &'a Question,
    pub options: Options,
    pub constraints: &'a [Constraint],
}

/// The text of a proof, and those of its steps.
#[derive(Drop)]
struct Texts {
    proof: Vec<u8>,
    steps: Vec<Vec<u8>>,
}

/// A proof in a style where functions hold, and the weights of the constraints that it names.
#[derive(Drop)]
struct Styled {
    proof: Vec<u8>,
    named: Vec<(u32, i128)>,
}

/// The proof of `style` where functions hold; None in the plain style.
fn in_style(
    alloc: Global,
    text: Vec<u8>,
    whole: Vec<u8>,
    named: Vec<(u32, i128)>,
    style: Style,
) -> Option<Styled>
    ensures { IfSome result (λ s. IsStyled style named.items text.items whole.items s.named.items s.proof.items) }
{
    match style {
        Style::Plain => None,
        Style::Named => Some(Styled { proof: text, named }),
        Style::Whole => Some(Styled {
            proof: whole,
            named: Vec::new(alloc),
        }),
    }
}

/// The steps of a proof where functions hold, where they are asked for and found.
fn steps_under(
    alloc: Global,
    question: &Question,
    options: Options,
    proof: &[u8],
    lines: &[u32],
    named: &[(u32, i128)],
) -> Result<Vec<Vec<u8>>, AllocError>
    ensures { IfOk result (λ steps. ArePrintedSteps question.now.body options lines.now named.now proof.now (map (λ s. s.items) steps.items)) }
{
    if !options.steps {
        return Ok(Vec::new(alloc));
    }
    match printed_steps(alloc, question, proof, lines, named)? {
        Some(steps) => Ok(steps),
        None => Ok(Vec::new(alloc)),
    }
}

/// `proof` with the comment `by` behind it.
fn with_comment(mut proof: Vec<u8>, by: &[u8]) -> Result<Vec<u8>, AllocError>
    ensures { IfOk result (λ t. t.items ≡ proof.items ++ by.now) }
{
    proof.extend_from_slice(by)?;
    Ok(proof)
}

/// The texts of a proof in the style of `options` where functions hold; None in the plain style.
fn styled_texts(
    alloc: Global,
    question: &Question,
    proof: PrintedProof,
    options: Options,
) -> Result<Option<Texts>, AllocError>
    ensures { IfOk result (λ o. IfSome o (λ t. (target : Form) → ArePrinted question.now.body target proof.lines.items proof.named.items proof.text.items proof.whole.items proof.by.items → ArePrintedTexts question.now.body options target (record { proof = t.proof.items; steps = map (λ s. s.items) t.steps.items }))) }
{
    let PrintedProof {
        text,
        whole,
        by,
        lines,
        named,
    } = proof;
    let Some(own) = in_style(alloc, text, whole, named, options.style) else {
        return Ok(None);
    };
    let steps = steps_under(
        alloc,
        question,
        options,
        own.proof.as_slice(),
        lines.as_slice(),
        own.named.as_slice(),
    )?;
    let proof = with_comment(own.proof, by.as_slice())?;
    Ok(Some(Texts { proof, steps }))
}

/// The texts of the proof of a row where the question's functions hold, where that is asked for and found.
fn printed_texts(
    alloc: Global,
    question: &Question,
    proven: &Proven<'_>,
    options: Options,
) -> Result<Option<Texts>, AllocError>
    ensures { IfOk result (λ o. IfSome o (λ t. ArePrintedTexts question.now.body options (value proven.now.row.now) (record { proof = t.proof.items; steps = map (λ s. s.items) t.steps.items }))) }
{
    if is_plain(options.style) {
        return Ok(None);
    }
    let Some(proof) = printed_form(alloc, question, proven, options.short)? else {
        return Ok(None);
    };
    let texts = styled_texts(alloc, question, proof, options)?;
    Ok(texts)
}

/// The proof of a row as an equation that is true of every map, or its weights.
#[tactic(auto, unfolding(crate::specs::Tellings::IsProofText))]
fn plain_proof(alloc: Global, asked: &Asked<'_>, proven: &Proven<'_>) -> Result<Vec<u8>, AllocError>
    requires origins { origins_of asked.now.constraints.now ≡ question_origins asked.now.question.now.body }
    requires there { IsListed (variable_count asked.now.question.now.body) (length asked.now.constraints.now) proven.now.certificate.now }
    ensures { IfOk result (λ t. IsProofText asked.now.question.now.body (proven_form proven.now) t.items) }
{
    let question = asked.question;
    match told_form(alloc, question, proven, asked.options.short)? {
        Some(text) => Ok(text),
        None => weights_text(alloc, question, asked.constraints, proven.certificate),
    }
}

/// The steps of a proof, where they are asked for and found.
fn steps_of(
    alloc: Global,
    question: &Question,
    options: Options,
    proof: &[u8],
) -> Result<Vec<Vec<u8>>, AllocError>
    ensures { IfOk result (λ steps. AreProofSteps question.now.body options proof.now (map (λ s. s.items) steps.items)) }
{
    if !options.steps {
        return Ok(Vec::new(alloc));
    }
    match told_steps(alloc, question, proof)? {
        Some(steps) => Ok(steps),
        None => Ok(Vec::new(alloc)),
    }
}

/// The texts of the proof of a row as an equation that is true of every map, or its weights.
fn plain_texts(alloc: Global, asked: &Asked<'_>, proven: &Proven<'_>) -> Result<Texts, AllocError>
    requires origins { origins_of asked.now.constraints.now ≡ question_origins asked.now.question.now.body }
    requires there { IsListed (variable_count asked.now.question.now.body) (length asked.now.constraints.now) proven.now.certificate.now }
    ensures { IfOk result (λ t. AreProofTexts asked.now.question.now.body asked.now.options (proven_form proven.now) (record { proof = t.proof.items; steps = map (λ s. s.items) t.steps.items })) }
{
    let proof = plain_proof(alloc, asked, proven)?;
    let steps = steps_of(alloc, asked.question, asked.options, proof.as_slice())?;
    Ok(Texts { proof, steps })
}

/// The texts of the proof of a row in the question's own terms, or of its weights.
#[tactic(auto, unfolding(crate::specs::Tellings::AreProofTexts))]
fn proof_texts(alloc: Global, asked: &Asked<'_>, proven: &Proven<'_>) -> Result<Texts, AllocError>
    requires origins { origins_of asked.now.constraints.now ≡ question_origins asked.now.question.now.body }
    requires there { IsListed (variable_count asked.now.question.now.body) (length asked.now.constraints.now) proven.now.certificate.now }
    ensures { IfOk result (λ t. AreProofTexts asked.now.question.now.body asked.now.options (proven_form proven.now) (record { proof = t.proof.items; steps = map (λ s. s.items) t.steps.items })) }
{
    match printed_texts(alloc, asked.question, proven, asked.options)? {
        Some(texts) => Ok(texts),
        None => plain_texts(alloc, asked, proven),
    }
}

/// Appends a text as a line below that of a proof.
#[tactic(auto, unfolding(crate::specs::Tellings::step_line))]
fn write_step(out: &mut Vec<u8>, text: &[u8]) -> Result<(), AllocError>
    ensures { OnOk result (out.new.items ≡ out.old.items ++ step_line text.now) }
{
    out.extend_from_slice(b"    ")?;
    out.extend_from_slice(text)?;
    out.extend_from_slice(b"\n")
}

/// Appends a line for each step.
fn write_steps(out: &mut Vec<u8>, steps: &[Vec<u8>]) -> Result<(), AllocError>
    ensures { OnOk result (out.new.items ≡ out.old.items ++ flat_map step_line (map (λ s. s.items) steps.now)) }
{
    for step in steps {
        write_step(out, step.as_slice())?;
    }
    Ok(())
}

/// Appends the lines of the proof of a row; with the terms of its line on the left, where the row is that of one of its targets.
pub fn write_proof(
    alloc: Global,
    out: &mut Vec<u8>,
    asked: &Asked<'_>,
    proven: &Proven<'_>,
) -> Result<(), AllocError>
    requires origins { origins_of asked.now.constraints.now ≡ question_origins asked.now.question.now.body }
    requires there { IsListed (variable_count asked.now.question.now.body) (length asked.now.constraints.now) proven.now.certificate.now }
    ensures { OnOk result (AppendsProof asked.now.question.now.body asked.now.options (proven_form proven.now) out.old.items out.new.items) }
{
    let texts = proof_texts(alloc, asked, proven)?;
    write_indented(out, texts.proof.as_slice())?;
    write_steps(out, texts.steps.as_slice())
}

/// Appends the lines of each proof of a row, in order.
pub fn write_proofs<'a>(
    alloc: Global,
    out: &mut Vec<u8>,
    asked: &Asked<'_>,
    rows: &'a [Row],
    proofs: &'a [Certificate],
) -> Result<(), AllocError>
    requires origins { origins_of asked.now.constraints.now ≡ question_origins asked.now.question.now.body }
    requires there { AreListed (variable_count asked.now.question.now.body) (length asked.now.constraints.now) proofs.now }
    requires as_many { length rows.now ≡ length proofs.now }
    ensures { OnOk result (AppendsProofs asked.now.question.now.body asked.now.options rows.now (map certificate_view proofs.now) out.old.items out.new.items) }
{
    for (i, certificate) in proofs.iter().enumerate() {
        let row = &rows[i];
        let proven = Proven {
            row,
            certificate,
            line: None,
        };
        write_proof(alloc, out, asked, &proven)?;
    }
    Ok(())
}

/// Appends the lines of the proofs of a relation.
fn write_relation_proofs(
    alloc: Global,
    out: &mut Vec<u8>,
    question: &Question,
    options: Options,
    constraints: &[Constraint],
    proofs: &[Certificate],
) -> Result<(), AllocError>
    requires origins { origins_of constraints.now ≡ question_origins question.now.body }
    requires there { AreListed (variable_count question.now.body) (length constraints.now) proofs.now }
    requires fits { HasQuestionShape question.now.body (Yes (map certificate_view proofs.now)) }
    ensures { OnOk result (AppendsDetails question.now.body options (Yes (map certificate_view proofs.now)) out.old.items out.new.items) }
{
    let rows = relation_rows(alloc, question, proofs)?;
    let asked = Asked {
        question,
        options,
        constraints,
    };
    write_proofs(alloc, out, &asked, rows.as_slice(), proofs)
}

/// A point as answers have it.
fn values_of(alloc: Global, question: &Question, point: &Point) -> Result<Vec<u8>, AllocError>
    requires there { length point.now < 2 ^ variable_count question.now.body + length (problem_names question.now.body).rates }
    requires few { length point.now ≤ most_coordinates }
    ensures { IfOk result (λ t. t.items ≡ codes "as point " ++ values_text (problem_names question.now.body) point.now) }
{
    let values = values_text(alloc, problem_names(question), point)?;
    let mut text = Vec::new(alloc);
    text.extend_from_slice(b"as point ")?;
    text.extend_from_slice(values.as_slice())?;
    Ok(text)
}

/// A point by some of its values, where maps say what the others are, or by those that answers have.
#[tactic(auto, unfolding(crate::specs::Tellings::IsPointText))]
fn point_by_values(alloc: Global, question: &Question, point: &Point) -> Result<Vec<u8>, AllocError>
    requires there { length point.now < 2 ^ variable_count question.now.body + length (problem_names question.now.body).rates }
    requires few { length point.now ≤ most_coordinates }
    ensures { IfOk result (λ t. IsPointText (problem_names question.now.body) point.now t.items) }
{
    match alike_text(alloc, question, point)? {
        Some(text) => Ok(text),
        None => values_of(alloc, question, point),
    }
}

/// The shorter one of two texts.
fn shorter(one: Vec<u8>, other: Vec<u8>) -> Vec<u8>
    ensures { (result.items ≡ one.items) ⊎ (result.items ≡ other.items) }
{
    if other.len() < one.len() { other } else { one }
}

/// A point by `facts` that determine it, or by some of its values, where maps say what the others are and the text is shorter.
#[tactic(auto, using(crate::proofs::AlikeLemmas::shorter_point), unfolding(crate::specs::Tellings::IsPointText))]
fn point_by_facts(
    alloc: Global,
    question: &Question,
    point: &Point,
    facts: Vec<u8>,
) -> Result<Vec<u8>, AllocError>
    requires there { length point.now < 2 ^ variable_count question.now.body + length (problem_names question.now.body).rates }
    requires few { length point.now ≤ most_coordinates }
    requires tells { TellsPoint (problem_names question.now.body) point.now facts.items }
    ensures { IfOk result (λ t. IsPointText (problem_names question.now.body) point.now t.items) }
{
    match alike_text(alloc, question, point)? {
        Some(text) => Ok(shorter(facts, text)),
        None => Ok(facts),
    }
}

/// A point by facts that determine it, or by values.
fn any_point(alloc: Global, question: &Question, point: &Point) -> Result<Vec<u8>, AllocError>
    requires there { length point.now < 2 ^ variable_count question.now.body + length (problem_names question.now.body).rates }
    requires few { length point.now ≤ most_coordinates }
    ensures { IfOk result (λ t. IsPointText (problem_names question.now.body) point.now t.items) }
{
    match told_point(alloc, question, point)? {
        Some(facts) => point_by_facts(alloc, question, point, facts),
        None => point_by_values(alloc, question, point),
    }
}

/// Appends the line of a point.
fn write_point(
    alloc: Global,
    out: &mut Vec<u8>,
    question: &Question,
    point: &Point,
) -> Result<(), AllocError>
    requires there { length point.now < 2 ^ variable_count question.now.body + length (problem_names question.now.body).rates }
    requires few { length point.now ≤ most_coordinates }
    ensures { OnOk result (AppendsPoint (problem_names question.now.body) point.now out.old.items out.new.items) }
{
    let text = any_point(alloc, question, point)?;
    write_indented(out, text.as_slice())
}

/// Appends the lines below the first one of an answer: those of proofs with their steps, where these are asked for.
#[tactic(auto, unfolding(crate::specs::Tellings::AreDetails))]
pub fn write_details(
    alloc: Global,
    out: &mut Vec<u8>,
    question: &Question,
    options: Options,
    constraints: &[Constraint],
    answer: &Answer,
) -> Result<(), AllocError>
    requires origins { origins_of constraints.now ≡ question_origins question.now.body }
    requires fits { HasQuestionShape question.now.body (answer_view answer.now) }
    requires printable { IsPrintable question.now.body (length constraints.now) answer.now }
    ensures { OnOk result (AppendsDetails question.now.body options (answer_view answer.now) out.old.items out.new.items) }
{
    match answer {
        Answer::Yes(proofs) => write_relation_proofs(
            alloc,
            out,
            question,
            options,
            constraints,
            proofs.as_slice(),
        ),
        Answer::No { point, .. } => write_point(alloc, out, question, point),
        Answer::Undecided(_) => Ok(()),
        Answer::Region(rows) => write_rows(alloc, out, question, options, rows.as_slice()),
        Answer::Contained { parts, proofs } => {
            let asked = Containment {
                question,
                options,
                constraints,
                parts: parts.as_slice(),
            };
            write_contained(alloc, out, &asked, proofs.as_slice())
        }
        Answer::Open { .. } => Ok(()),
    }
}
