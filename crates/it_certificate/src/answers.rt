//! The answer of a report, by its kind.
ghost use Rattle.std.specs.Prelude.{◌≡◌, ◌≤◌, ok_or, option_map, codes, option_and_then};
ghost use Rattle.serde_json.specs.View.{view};
ghost use Rattle.serde_json.specs.Find.{get};
ghost use Rattle.it_space.specs.Answers.{answer_view};
ghost use Rattle.it_space.specs.Answers.AnswerView.{Yes, Region, Open};
ghost use Rattle.it_space.specs.Spaces.{IsSpace, size_of, most_variables};
ghost use Rattle.it_elemental.specs.Generators.{is_equation};
ghost use Rattle.it_demand.specs.Demands.{kind_of};
ghost use Rattle.it_certificate.specs.AnswerReading.{contained_at, no_at, undecided_at};
ghost use Rattle.it_certificate.specs.declared.keys.Key.TheVariants as keys;
ghost use Rattle.it_certificate.specs.ReportSteps.{target_count};
ghost use Rattle.it_certificate.specs.Parts.{count_at, proofs_at, rows_at};
ghost use Rattle.it_certificate.specs.Steps.{GivesKeyed, fault_by};

use crate::keys::{Key, Refusal, ReportFault};
use crate::members::{back_at, cause_at, cause_kind_at, point_in, proofs_at, tried_at};
use crate::obligations::target_count;
use crate::rows::rows_at;
use crate::sets::parts_at;
use it_space::{Answer, Space};
use it_syntax::Names;
use it_syntax::types::Sign;
use serde_json::Value;
use std::alloc::Global;

/// The fault of a line whose part at `key` isn't read, because of `refusal`.
pub fn fault(refusal: Refusal, key: Key) -> ReportFault
    ensures { result ≡ fault_by refusal key }
{
    match refusal {
        Refusal::Memory => ReportFault::Memory,
        Refusal::Shape => ReportFault::Shape { key },
    }
}

/// Whether a relation of this sign is an equality.
fn is_equality(sign: Sign) -> bool
    ensures { result ≡ is_equation (kind_of sign) }
{
    match sign {
        Sign::AtLeast | Sign::AtMost => false,
        Sign::Equal => true,
    }
}

/// Reads the answer `yes`: as many certificates as a relation of this sign has targets.
pub fn yes_at(alloc: Global, value: &Value, sign: Sign) -> Result<Answer, ReportFault>
    ensures { GivesKeyed answer_view result (ok_or (option_map Yes (proofs_at (target_count sign) (view value.now))) keys.Proofs) }
{
    match proofs_at(alloc, value, target_count(sign)) {
        Ok(proofs) => Ok(Answer::Yes(proofs)),
        Err(refusal) => Err(fault(refusal, Key::Proofs)),
    }
}

/// Reads the answer `no`: a value for each coordinate, and a side of the relation.
#[tactic(auto, unfolding(crate::specs::AnswerReading::no_at))]
pub fn no_at(alloc: Global, value: &Value, space: Space, sign: Sign) -> Result<Answer, ReportFault>
    requires { IsSpace space }
    ensures { GivesKeyed answer_view result (no_at (size_of space) sign (view value.now)) }
{
    let point = match point_in(alloc, value, space) {
        Ok(point) => point,
        Err(refusal) => return Err(fault(refusal, Key::Point)),
    };
    match back_at(value, is_equality(sign)) {
        Some(back) => Ok(Answer::No { back, point }),
        None => Err(ReportFault::Shape { key: Key::Side }),
    }
}

/// Reads the answer `undecided`; a rate in it is one of `names`.
#[tactic(auto, unfolding(crate::specs::AnswerReading::undecided_at))]
pub fn undecided_at(value: &Value, names: &Names) -> Result<Answer, ReportFault>
    ensures { GivesKeyed answer_view result (undecided_at names.now.rates (view value.now)) }
{
    let Some(kind) = cause_kind_at(value) else {
        return Err(ReportFault::Shape { key: Key::Cause });
    };
    match cause_at(value, names, kind) {
        Some(cause) => Ok(Answer::Undecided(cause)),
        None => Err(ReportFault::Shape { key: Key::At }),
    }
}

/// Reads a region over a space with `size` coordinates.
pub fn region_at(alloc: Global, value: &Value, size: u32) -> Result<Answer, ReportFault>
    ensures { GivesKeyed answer_view result (ok_or (option_map Region (rows_at size (view value.now))) keys.Rows) }
{
    match rows_at(alloc, value, size) {
        Ok(rows) => Ok(Answer::Region(rows)),
        Err(refusal) => Err(fault(refusal, Key::Rows)),
    }
}

/// Reads a containment: `auxiliaries` sets of `variables` variables, and `obligations` certificates.
#[tactic(auto, unfolding(crate::specs::AnswerReading::contained_at))]
pub fn contained_at(
    alloc: Global,
    value: &Value,
    auxiliaries: u8,
    variables: u8,
    obligations: usize,
) -> Result<Answer, ReportFault>
    requires { variables ≤ most_variables }
    ensures { GivesKeyed answer_view result (contained_at auxiliaries variables obligations (view value.now)) }
{
    let parts = match parts_at(alloc, value, auxiliaries, variables) {
        Ok(parts) => parts,
        Err(refusal) => return Err(fault(refusal, Key::Parts)),
    };
    match proofs_at(alloc, value, obligations) {
        Ok(proofs) => Ok(Answer::Contained { parts, proofs }),
        Err(refusal) => Err(fault(refusal, Key::Proofs)),
    }
}

/// Reads a search in which no candidate was proved.
pub fn open_at(value: &Value) -> Result<Answer, ReportFault>
    ensures { GivesKeyed answer_view result (ok_or (option_map Open (option_and_then count_at (get (codes "tried") (view value.now)))) keys.Tried) }
{
    match tried_at(value) {
        Some(tried) => Ok(Answer::Open { tried }),
        None => Err(ReportFault::Shape { key: Key::Tried }),
    }
}
