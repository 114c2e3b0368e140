//! The answers that each verb gives.
ghost use Rattle.serde_json.specs.View.{view};
ghost use Rattle.it_space.specs.Answers.{answer_view};
ghost use Rattle.it_space.specs.Spaces.{IsSpace};
ghost use Rattle.it_demand.specs.QuestionSpaces.{space_of};
ghost use Rattle.it_question.specs.Questions.{verb_view};
ghost use Rattle.it_question.specs.Limits.{IsVerbOver};
ghost use Rattle.it_certificate.specs.Reports.{verb_answer};
ghost use Rattle.it_certificate.specs.Steps.{GivesKeyed};

use crate::answers::{contained_at, no_at, open_at, region_at, undecided_at, yes_at};
use crate::keys::{Key, ReportFault};
use crate::kinds::AnswerKind;
use crate::obligations::obligation_count;
use it_question::types::{Question, Verb};
use it_space::Answer;
use it_syntax::Names;
use serde_json::Value;
use std::alloc::Global;

/// The answer to a question of this verb.
#[tactic(auto, using(crate::proofs::ObligationLemmas::targets_counted))]
fn verb_answer(
    alloc: Global,
    value: &Value,
    names: &Names,
    verb: &Verb,
    kind: AnswerKind,
) -> Result<Answer, ReportFault>
    requires space { IsSpace (space_of names.now) }
    requires verb { IsVerbOver names.now (verb_view verb.now) }
    ensures { GivesKeyed answer_view result (verb_answer names.now (verb_view verb.now) kind (view value.now)) }
{
    match verb {
        Verb::Prove(relation) => match kind {
            AnswerKind::Yes => yes_at(alloc, value, relation.sign),
            AnswerKind::No => no_at(alloc, value, names.space(), relation.sign),
            AnswerKind::Undecided => undecided_at(value, names),
            AnswerKind::Region | AnswerKind::Contained | AnswerKind::Open => {
                Err(ReportFault::Shape { key: Key::Answer })
            }
        },
        Verb::Eliminate(_) => match kind {
            AnswerKind::Undecided => undecided_at(value, names),
            AnswerKind::Region => region_at(alloc, value, names.space().size()),
            AnswerKind::Yes | AnswerKind::No | AnswerKind::Contained | AnswerKind::Open => {
                Err(ReportFault::Shape { key: Key::Answer })
            }
        },
        Verb::Contain { first, second, .. } => match kind {
            AnswerKind::Contained => {
                let variables = first.space().variables;
                let obligations = obligation_count(second);
                contained_at(alloc, value, second.auxiliaries(), variables, obligations)
            }
            AnswerKind::Open => open_at(value),
            AnswerKind::Yes | AnswerKind::No | AnswerKind::Undecided | AnswerKind::Region => {
                Err(ReportFault::Shape { key: Key::Answer })
            }
        },
    }
}

/// The answer to a question.
pub fn question_answer(
    alloc: Global,
    value: &Value,
    question: &Question,
    kind: AnswerKind,
) -> Result<Answer, ReportFault>
    ensures { GivesKeyed answer_view result (verb_answer question.now.body.names question.now.body.verb kind (view value.now)) }
{
    verb_answer(alloc, value, question.names(), question.verb(), kind)
}
