//! What a report line is about: the question that is asked.
ghost use Rattle.std.specs.Prelude.{◌≡◌, ◌≤◌, ◌++◌, All, IfOk, codes, false, is_some, length, map, option_map, true};
ghost use Rattle.serde_json.specs.Find.{get};
ghost use Rattle.serde_json.specs.View.{view};
ghost use Rattle.it_question.specs.Limits.{IsQuestion};
ghost use Rattle.it_copy.specs.CopyLines.{AreNamed, copy_view};
ghost use Rattle.it_certificate.specs.Parts.{text_of};
ghost use Rattle.it_certificate.specs.ReportSteps.{GivesCopied, GivesExtended, GivesMade, GivesMadeFrom, GivesSource, refusal_by};
ghost use Rattle.it_certificate.specs.Sources.{source_key};

use crate::keys::{Key, Refusal};
use crate::members::text_of_member;
use crate::questions::question_of;
use it_copy::types::{CopyFault, CopyLine};
use it_copy::{copy_file, extend};
use it_question::FileLimits;
use it_question::types::{FileFault, Question};
use it_sharing::types::{MadeFault, Sharing};
use it_sharing::{made, sharing};
use serde_json::Value;
use std::alloc::{AllocError, Global};

/// Whether the object has this member.
fn has_member(value: &Value, key: &str) -> bool
    ensures { result ≡ is_some (get key.now (view value.now)) }
{
    value.get(key).is_some()
}

/// The text of this member.
fn text_at<'a>(value: &'a Value, key: &str) -> Option<&'a str>
    ensures { option_map (λ s. s.now) result ≡ text_of (get key.now (view value.now)) }
{
    text_of_member(value.get(key))
}

/// The key that tells what the line is about.
#[tactic(auto, unfolding(crate::specs::Sources::source_key))]
pub fn source_key(value: &Value) -> Key
    ensures { result ≡ source_key (view value.now) }
{
    if has_member(value, "sharing") {
        Key::Sharing
    } else if has_member(value, "copies") {
        Key::Copies
    } else {
        Key::Question
    }
}

/// The question that a sharing file makes, unless its sets are too many.
fn made_from(alloc: Global, sharing: &Sharing) -> Result<Question, Refusal>
    ensures reading { GivesMadeFrom sharing.now result }
    ensures limits { IfOk result (λ q. IsQuestion q.body) }
{
    match made(alloc, sharing) {
        Ok(made) => Ok(made.into_question()),
        Err(MadeFault::Memory) => Err(Refusal::Memory),
        Err(MadeFault::Many) => Err(Refusal::Shape),
    }
}

/// The question that at most 1,048,576 bytes make, if they are a sharing file of few sets.
#[tactic(auto, using(crate::proofs::SourceLemmas::made_long, crate::proofs::SourceLemmas::made_by_file))]
fn made_of(alloc: Global, bytes: &[u8], limits: FileLimits) -> Result<Question, Refusal>
    ensures reading { GivesMade limits bytes.now result }
    ensures limits { IfOk result (λ q. IsQuestion q.body) }
{
    if bytes.len() > 1_048_576 {
        return Err(Refusal::Shape);
    }
    match sharing(alloc, bytes, limits) {
        Ok(sharing) => made_from(alloc, &sharing),
        Err(FileFault::Memory) => Err(Refusal::Memory),
        Err(FileFault::Fault { .. }) => Err(Refusal::Shape),
    }
}

/// Why a question isn't extended with copies, by the fault of these.
fn refusal_by(fault: CopyFault) -> Refusal
    ensures { result ≡ refusal_by fault }
{
    match fault {
        CopyFault::Memory => Refusal::Memory,
        CopyFault::Verb | CopyFault::Copy { .. } | CopyFault::Many | CopyFault::Large => {
            Refusal::Shape
        }
    }
}

/// The only one of `questions`, extended with `copies`; `Shape` where there isn't just one, or it can't have them.
#[tactic(auto, using(crate::proofs::SourceLemmas::not_one, crate::proofs::SourceLemmas::extended_only, crate::proofs::SourceLemmas::misfit_only))]
fn extended(
    alloc: Global,
    copies: &[CopyLine],
    questions: &[Question],
    limits: FileLimits,
) -> Result<Question, Refusal>
    requires limits { All (λ q. IsQuestion q.body) questions.now }
    requires names { AreNamed copies.now }
    requires few { length copies.now ≤ 4 }
    ensures reading { GivesExtended limits (map copy_view copies.now) questions.now result }
    ensures limits { IfOk result (λ q. IsQuestion q.body) }
{
    if questions.len() != 1 {
        return Err(Refusal::Shape);
    }
    match extend(alloc, &questions[0], copies, limits) {
        Ok(extended) => Ok(extended),
        Err(fault) => Err(refusal_by(fault)),
    }
}

/// The only question of at most 1,048,577 bytes with the copies that their head asks for.
#[tactic(auto, using(crate::proofs::SourceLemmas::copied_long, crate::proofs::SourceLemmas::copied_by_file))]
fn copied(alloc: Global, bytes: &[u8], limits: FileLimits) -> Result<Question, Refusal>
    ensures reading { GivesCopied limits bytes.now result }
    ensures limits { IfOk result (λ q. IsQuestion q.body) }
{
    if bytes.len() > 1_048_577 {
        return Err(Refusal::Shape);
    }
    match copy_file(alloc, bytes, limits) {
        Ok(file) => extended(
            alloc,
            file.copies.as_slice(),
            file.questions.as_slice(),
            limits,
        ),
        Err(FileFault::Memory) => Err(Refusal::Memory),
        Err(FileFault::Fault { .. }) => Err(Refusal::Shape),
    }
}

/// `first` followed by `second`.
fn joined(alloc: Global, first: &str, second: &str) -> Result<Vec<u8>, AllocError>
    ensures { IfOk result (λ bytes. bytes.items ≡ first.now ++ second.now) }
{
    let mut bytes = Vec::new(alloc);
    bytes.extend_from_slice(first.as_bytes())?;
    bytes.extend_from_slice(second.as_bytes())?;
    Ok(bytes)
}

/// The question that the sharing file `sharing` makes.
#[tactic(auto, using(crate::proofs::SourceLemmas::sharing_given, crate::proofs::SourceLemmas::no_sharing_given))]
fn sharing_at(alloc: Global, value: &Value, limits: FileLimits) -> Result<Question, Refusal>
    requires there { is_some (get (codes "sharing") (view value.now)) ≡ true }
    ensures reading { GivesSource limits (view value.now) result }
    ensures limits { IfOk result (λ q. IsQuestion q.body) }
{
    match text_at(value, "sharing") {
        Some(text) => made_of(alloc, text.as_bytes(), limits),
        None => Err(Refusal::Shape),
    }
}

/// The question of the text `question`, with the copies that the head `copies` asks for.
#[tactic(auto, using(crate::proofs::SourceLemmas::copies_given, crate::proofs::SourceLemmas::no_head_given, crate::proofs::SourceLemmas::no_question_given))]
fn copies_at(alloc: Global, value: &Value, limits: FileLimits) -> Result<Question, Refusal>
    requires no_sharing { is_some (get (codes "sharing") (view value.now)) ≡ false }
    requires there { is_some (get (codes "copies") (view value.now)) ≡ true }
    ensures reading { GivesSource limits (view value.now) result }
    ensures limits { IfOk result (λ q. IsQuestion q.body) }
{
    let Some(head) = text_at(value, "copies") else {
        return Err(Refusal::Shape);
    };
    let Some(text) = text_at(value, "question") else {
        return Err(Refusal::Shape);
    };
    match joined(alloc, head, text) {
        Ok(bytes) => copied(alloc, bytes.as_slice(), limits),
        Err(_) => Err(Refusal::Memory),
    }
}

/// The question of the text `question`.
#[tactic(auto, using(crate::proofs::SourceLemmas::text_given, crate::proofs::SourceLemmas::no_text_given))]
fn question_at(alloc: Global, value: &Value, limits: FileLimits) -> Result<Question, Refusal>
    requires no_sharing { is_some (get (codes "sharing") (view value.now)) ≡ false }
    requires no_copies { is_some (get (codes "copies") (view value.now)) ≡ false }
    ensures reading { GivesSource limits (view value.now) result }
    ensures limits { IfOk result (λ q. IsQuestion q.body) }
{
    match text_at(value, "question") {
        Some(text) => question_of(alloc, text, limits),
        None => Err(Refusal::Shape),
    }
}

/// The question that a report asks, within these limits: that of the sharing file where there is one, else that of the text, with copies where there is a
/// head.
pub fn source_at(alloc: Global, value: &Value, limits: FileLimits) -> Result<Question, Refusal>
    ensures reading { GivesSource limits (view value.now) result }
    ensures limits { IfOk result (λ q. IsQuestion q.body) }
{
    if has_member(value, "sharing") {
        sharing_at(alloc, value, limits)
    } else if has_member(value, "copies") {
        copies_at(alloc, value, limits)
    } else {
        question_at(alloc, value, limits)
    }
}
