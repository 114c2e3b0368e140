//! Answers as lines of JSON.
ghost use Rattle.std.specs.Prelude.{◌≡◌, IfOk, map, string_bytes, false, Some, IsAscii, IsUtf8};
ghost use Rattle.serde_json.specs.Data.{put};
ghost use Rattle.serde_json.specs.Read.{read};
ghost use Rattle.serde_json.specs.View.{members_view, view};
ghost use Rattle.serde_json.specs.Written.{members_have_float};
ghost use Rattle.it_space.specs.Answers.{IfRate, answer_view, certificate_view};
ghost use Rattle.it_space.specs.Answers.AnswerView.{Yes, No, Undecided, Region, Contained, Open};
ghost use Rattle.it_ratio.specs.BestViews.{best_view};
ghost use Rattle.it_certificate.specs.Bounds.{bounds_view};
ghost use Rattle.it_certificate.specs.FactorValues.{best_members};
ghost use Rattle.it_certificate.specs.Values.{IsAsciiRate, IsWritable, answer_members, answer_text, answer_value, ascii_byte, ascii_string, bounds_members, derived_members, derived_text, derived_value, misfit_members, report_text, source_texts, with_source};

use crate::factor_values::best_members;
use crate::objects::Members;
use crate::types::{ReportedBounds, SourceText};
use crate::values::{
    ascii_text, cause_word, integers, proofs, rows, sets, side_word, step_or_rate_value, steps,
    unmarked_rows,
};
use it_ratio::types::Best;
use it_space::{Answer, Cause, Certificate, Mark, Point, Row, VarSet};
use it_syntax::Names;
use serde_json::{Value, json};
use std::alloc::{AllocError, Global};

/// The members of a yes.
#[tactic(auto, unfolding(crate::specs::Values::answer_members))]
fn yes_members(
    alloc: Global,
    names: &Names,
    certificates: &[Certificate],
) -> Result<Members, AllocError>
    ensures { IfOk result (λ m. members_view m.map.entries ≡ answer_members names.now (Yes (map certificate_view certificates.now))) }
{
    let proofs = proofs(alloc, certificates)?;
    let members = Members::new(alloc).with(alloc, "proofs", proofs)?;
    members.with_text(alloc, "answer", "yes")
}

/// The members of a no.
#[tactic(auto, unfolding(crate::specs::Values::answer_members))]
fn no_members(
    alloc: Global,
    names: &Names,
    back: bool,
    point: &Point,
) -> Result<Members, AllocError>
    ensures { IfOk result (λ m. members_view m.map.entries ≡ answer_members names.now (No back point.now)) }
{
    let values = integers(alloc, point.values())?;
    let members = Members::new(alloc).with(alloc, "point", values)?;
    let members = members.with_text(alloc, "side", side_word(back))?;
    members.with_text(alloc, "answer", "no")
}

/// The members of an undecided.
#[tactic(auto, unfolding(crate::specs::Values::answer_members))]
fn undecided_members(alloc: Global, names: &Names, cause: Cause) -> Result<Members, AllocError>
    requires { IfRate (IsAsciiRate names.now) cause }
    ensures { IfOk result (λ m. members_view m.map.entries ≡ answer_members names.now (Undecided cause)) }
{
    let place = step_or_rate_value(alloc, names, cause)?;
    let members = Members::new(alloc).with(alloc, "at", place)?;
    let members = members.with_text(alloc, "cause", cause_word(cause))?;
    members.with_text(alloc, "answer", "undecided")
}

/// The members of a region.
#[tactic(auto, unfolding(crate::specs::Values::answer_members))]
fn region_members(
    alloc: Global,
    names: &Names,
    marked: &[(Mark, Row)],
) -> Result<Members, AllocError>
    ensures { IfOk result (λ m. members_view m.map.entries ≡ answer_members names.now (Region marked.now)) }
{
    let rows = rows(alloc, marked)?;
    let members = Members::new(alloc).with(alloc, "rows", rows)?;
    members.with_text(alloc, "answer", "region")
}

/// The members of a containment.
#[tactic(auto, unfolding(crate::specs::Values::answer_members))]
fn contained_members(
    alloc: Global,
    names: &Names,
    parts: &[VarSet],
    certificates: &[Certificate],
) -> Result<Members, AllocError>
    ensures { IfOk result (λ m. members_view m.map.entries ≡ answer_members names.now (Contained parts.now (map certificate_view certificates.now))) }
{
    let parts = sets(alloc, parts)?;
    let members = Members::new(alloc).with(alloc, "parts", parts)?;
    let proofs = proofs(alloc, certificates)?;
    let members = members.with(alloc, "proofs", proofs)?;
    members.with_text(alloc, "answer", "contained")
}

/// The members of a search in which no candidate was proved.
#[tactic(auto, unfolding(crate::specs::Values::answer_members))]
fn open_members(alloc: Global, names: &Names, tried: u32) -> Result<Members, AllocError>
    ensures { IfOk result (λ m. members_view m.map.entries ≡ answer_members names.now (Open tried)) }
{
    let count = json!(in alloc; tried)?;
    let members = Members::new(alloc).with(alloc, "tried", count)?;
    members.with_text(alloc, "answer", "open")
}

/// The members of an answer.
fn answer_members(alloc: Global, names: &Names, answer: &Answer) -> Result<Members, AllocError>
    requires { IsWritable names.now (answer_view answer.now) }
    ensures { IfOk result (λ m. members_view m.map.entries ≡ answer_members names.now (answer_view answer.now)) }
{
    match answer {
        Answer::Yes(certificates) => yes_members(alloc, names, certificates.as_slice()),
        Answer::No { back, point } => no_members(alloc, names, *back, point),
        Answer::Undecided(cause) => undecided_members(alloc, names, *cause),
        Answer::Region(rows) => region_members(alloc, names, rows.as_slice()),
        Answer::Contained { parts, proofs } => {
            contained_members(alloc, names, parts.as_slice(), proofs.as_slice())
        }
        Answer::Open { tried } => open_members(alloc, names, *tried),
    }
}

/// The value of an answer to the question of a text.
#[tactic(auto, unfolding(crate::specs::Values::answer_value))]
fn answer_value(
    alloc: Global,
    question: &str,
    names: &Names,
    answer: &Answer,
) -> Result<Value, AllocError>
    requires { IsWritable names.now (answer_view answer.now) }
    ensures { IfOk result (λ v. view v ≡ answer_value question.now names.now (answer_view answer.now)) }
{
    let members = answer_members(alloc, names, answer)?;
    let members = members.with_text(alloc, "question", question)?;
    Ok(members.into_value())
}

/// The text of an answer, which reads back as its value.
fn answer_string(
    alloc: Global,
    question: &str,
    names: &Names,
    answer: &Answer,
) -> Result<String, AllocError>
    requires { IsWritable names.now (answer_view answer.now) }
    ensures text { IfOk result (λ s. string_bytes s ≡ answer_text question.now names.now (answer_view answer.now)) }
    ensures reads_back { IfOk result (λ s. read (string_bytes s) ≡ Some (answer_value question.now names.now (answer_view answer.now))) }
{
    let value = answer_value(alloc, question, names, answer)?;
    value.to_string(alloc)
}

/// The line of an answer, without its end: compact JSON with its keys in alphabetical order. `text` is the question's text, and
/// `names` are its names, by which causes name rates. Weights of 0 are left out; the others keep their order.
pub fn answer_json(
    alloc: Global,
    text: &[u8],
    names: &Names,
    answer: &Answer,
) -> Result<Vec<u8>, AllocError>
    requires ascii { IsAscii text.now }
    requires writable { IsWritable names.now (answer_view answer.now) }
    ensures text { IfOk result (λ out. out.items ≡ answer_text text.now names.now (answer_view answer.now)) }
    ensures reads_back { IfOk result (λ out. read out.items ≡ Some (answer_value text.now names.now (answer_view answer.now))) }
    ensures utf8 { IfOk result (λ out. IsUtf8 out.items) }
{
    let line = answer_string(alloc, ascii_text(text), names, answer)?;
    // asked for its clause, that the bytes are UTF-8
    let _text = line.as_str();
    Ok(line.into_bytes())
}

/// The members of a region with a certificate for each of its rows.
fn derived_members(
    alloc: Global,
    names: &Names,
    rows: &[(Mark, Row)],
    origins: &[Certificate],
) -> Result<Members, AllocError>
    ensures { IfOk result (λ m. members_view m.map.entries ≡ derived_members names.now rows.now (map certificate_view origins.now)) }
{
    let members = region_members(alloc, names, rows)?;
    let origins = proofs(alloc, origins)?;
    members.with(alloc, "origins", origins)
}

/// The value of a region with a certificate for each of its rows, as the answer to the question of a text.
#[tactic(auto, unfolding(crate::specs::Values::derived_value))]
fn derived_value(
    alloc: Global,
    question: &str,
    names: &Names,
    rows: &[(Mark, Row)],
    origins: &[Certificate],
) -> Result<Value, AllocError>
    ensures { IfOk result (λ v. view v ≡ derived_value question.now names.now rows.now (map certificate_view origins.now)) }
{
    let members = derived_members(alloc, names, rows, origins)?;
    let members = members.with_text(alloc, "question", question)?;
    Ok(members.into_value())
}

/// The text of a region with a certificate for each of its rows, which reads back as its value.
fn derived_string(
    alloc: Global,
    question: &str,
    names: &Names,
    rows: &[(Mark, Row)],
    origins: &[Certificate],
) -> Result<String, AllocError>
    ensures text { IfOk result (λ s. string_bytes s ≡ derived_text question.now names.now rows.now (map certificate_view origins.now)) }
    ensures reads_back { IfOk result (λ s. read (string_bytes s) ≡ Some (derived_value question.now names.now rows.now (map certificate_view origins.now))) }
{
    let value = derived_value(alloc, question, names, rows, origins)?;
    value.to_string(alloc)
}

/// The line of a region with a certificate for each of its rows, without its end: as `answer_json` writes it, with the
/// certificates at the key `origins`.
pub fn derived_json(
    alloc: Global,
    text: &[u8],
    names: &Names,
    rows: &[(Mark, Row)],
    origins: &[Certificate],
) -> Result<Vec<u8>, AllocError>
    requires { IsAscii text.now }
    ensures text { IfOk result (λ out. out.items ≡ derived_text text.now names.now rows.now (map certificate_view origins.now)) }
    ensures reads_back { IfOk result (λ out. read out.items ≡ Some (derived_value text.now names.now rows.now (map certificate_view origins.now))) }
    ensures utf8 { IfOk result (λ out. IsUtf8 out.items) }
{
    let line = derived_string(alloc, ascii_text(text), names, rows, origins)?;
    // asked for its clause, that the bytes are UTF-8
    let _text = line.as_str();
    Ok(line.into_bytes())
}

/// `byte`, or a question mark where it isn't ASCII.
fn ascii_byte(byte: u8) -> u8
    ensures { result ≡ ascii_byte byte }
{
    if byte < 128 { byte } else { b'?' }
}

/// `bytes` with a question mark for each byte that isn't ASCII.
#[tactic(auto, using(crate::proofs::ValueLemmas::are_ascii))]
fn in_ascii(alloc: Global, bytes: &[u8]) -> Result<Vec<u8>, AllocError>
    ensures bytes { IfOk result (λ v. v.items ≡ map ascii_byte bytes.now) }
    ensures ascii { IfOk result (λ v. IsAscii v.items) }
{
    let mut out = Vec::new(alloc);
    for byte in bytes {
        out.push(ascii_byte(*byte))?;
    }
    Ok(out)
}

/// The members with `bytes` as a text in ASCII at `key`.
fn with_bytes(
    alloc: Global,
    members: Members,
    key: &str,
    bytes: &[u8],
) -> Result<Members, AllocError>
    ensures { IfOk result (λ m. members_view m.map.entries ≡ put key.now (ascii_string bytes.now) (members_view members.map.entries)) }
{
    let text = in_ascii(alloc, bytes)?;
    members.with_text(alloc, key, ascii_text(text.as_slice()))
}

/// The members with the texts of `source`.
fn with_source(
    alloc: Global,
    members: Members,
    source: SourceText<'_>,
) -> Result<Members, AllocError>
    ensures { IfOk result (λ m. members_view m.map.entries ≡ with_source (source_texts source.entry) (members_view members.map.entries)) }
{
    match source {
        SourceText::Question(text) => with_bytes(alloc, members, "question", text),
        SourceText::Copies { head, question } => {
            let members = with_bytes(alloc, members, "copies", head)?;
            with_bytes(alloc, members, "question", question)
        }
        SourceText::Sharing(text) => with_bytes(alloc, members, "sharing", text),
    }
}

/// The members of a misfit.
fn misfit_members(alloc: Global, cause: &[u8]) -> Result<Members, AllocError>
    ensures { IfOk result (λ m. members_view m.map.entries ≡ misfit_members cause.now) }
{
    let members = with_bytes(alloc, Members::new(alloc), "cause", cause)?;
    members.with_text(alloc, "answer", "misfit")
}

/// The line of `members`, of which none is a float, about `source`.
fn line_about(
    alloc: Global,
    members: Members,
    source: SourceText<'_>,
) -> Result<Vec<u8>, AllocError>
    requires { members_have_float (members_view members.map.entries) ≡ false }
    ensures { IfOk result (λ out. out.items ≡ report_text (source_texts source.entry) (members_view members.map.entries)) }
{
    let members = with_source(alloc, members, source)?;
    let value = members.into_value();
    let line = value.to_string(alloc)?;
    Ok(line.into_bytes())
}

/// The line of an answer to what `source` asks, without its end: compact JSON with its keys in alphabetical order. `names` are
/// the names of the question that is asked, by which causes name rates. Weights of 0 are left out; the others keep their order.
/// Each byte of the texts that isn't ASCII is written as `?`.
pub fn report_json(
    alloc: Global,
    source: SourceText<'_>,
    names: &Names,
    answer: &Answer,
) -> Result<Vec<u8>, AllocError>
    requires { IsWritable names.now (answer_view answer.now) }
    ensures { IfOk result (λ out. out.items ≡ report_text (source_texts source.entry) (answer_members names.now (answer_view answer.now))) }
{
    let members = answer_members(alloc, names, answer)?;
    line_about(alloc, members, source)
}

/// The line of what is found of the factors of the relation about which `source` asks, without its end, as `report_json` writes
/// it.
pub fn best_json(alloc: Global, source: SourceText<'_>, best: &Best) -> Result<Vec<u8>, AllocError>
    ensures { IfOk result (λ out. out.items ≡ report_text (source_texts source.entry) (best_members (best_view best.now))) }
{
    let members = best_members(alloc, best)?;
    line_about(alloc, members, source)
}

/// The line of a question that can't have what `source` asks for, without its end; `cause` is the words of the reason.
pub fn misfit_json(
    alloc: Global,
    source: SourceText<'_>,
    cause: &[u8],
) -> Result<Vec<u8>, AllocError>
    ensures { IfOk result (λ out. out.items ≡ report_text (source_texts source.entry) (misfit_members cause.now)) }
{
    let members = misfit_members(alloc, cause)?;
    line_about(alloc, members, source)
}

/// The members of an outer bound.
#[tactic(auto, unfolding(crate::specs::Values::bounds_members))]
fn bounds_members(alloc: Global, bounds: &ReportedBounds) -> Result<Members, AllocError>
    ensures { IfOk result (λ m. members_view m.map.entries ≡ bounds_members (bounds_view bounds.now)) }
{
    let proofs = proofs(alloc, bounds.proofs.as_slice())?;
    let members = Members::new(alloc).with(alloc, "proofs", proofs)?;
    let rays = steps(alloc, bounds.steps.as_slice())?;
    let members = members.with(alloc, "rays", rays)?;
    let rows = unmarked_rows(alloc, bounds.rows.as_slice())?;
    let members = members.with(alloc, "rows", rows)?;
    members.with_text(alloc, "answer", "outer")
}

/// The line of an outer bound of what `source` asks about, without its end: compact JSON with its keys in alphabetical order.
/// Weights of 0 are left out; the others keep their order, as rows and rays do. Each byte of the texts that isn't ASCII is
/// written as `?`.
pub fn bounds_json(
    alloc: Global,
    source: SourceText<'_>,
    bounds: &ReportedBounds,
) -> Result<Vec<u8>, AllocError>
    ensures { IfOk result (λ out. out.items ≡ report_text (source_texts source.entry) (bounds_members (bounds_view bounds.now))) }
{
    let members = bounds_members(alloc, bounds)?;
    line_about(alloc, members, source)
}
