//! The question that a text reads as.
ghost use Rattle.std.specs.Prelude.{All, IfOk, IfSome};
ghost use Rattle.it_question.specs.Limits.{IsQuestion};
ghost use Rattle.it_certificate.specs.ReportSteps.{GivesOnly, IsOnly};

use crate::keys::Refusal;
use it_question::types::{FileFault, Question};
use it_question::{FileLimits, questions};
use std::alloc::Global;

/// The only question of a list, if it has one.
fn single_question(questions: Vec<Question>) -> Option<Question>
    ensures one { IsOnly questions.items result }
    ensures limits { All (λ q. IsQuestion q.body) questions.items → IfSome result (λ q. IsQuestion q.body) }
{
    let mut questions = questions;
    if questions.len() == 1 {
        questions.pop()
    } else {
        None
    }
}

/// The question that a text of at most 1,048,577 bytes reads as, within these limits, if it reads as exactly one.
pub fn question_of(alloc: Global, text: &str, limits: FileLimits) -> Result<Question, Refusal>
    ensures reading { GivesOnly limits text.now result }
    ensures limits { IfOk result (λ q. IsQuestion q.body) }
{
    let bytes = text.as_bytes();
    if bytes.len() > 1_048_577 {
        return Err(Refusal::Shape);
    }
    match questions(alloc, bytes, limits) {
        Ok(all) => match single_question(all) {
            Some(question) => Ok(question),
            None => Err(Refusal::Shape),
        },
        Err(FileFault::Memory) => Err(Refusal::Memory),
        Err(FileFault::Fault { .. }) => Err(Refusal::Shape),
    }
}
