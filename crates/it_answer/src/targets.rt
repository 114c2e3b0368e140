//! The rows of the forms that an answer is about.
ghost use Rattle.std.specs.Prelude.{◌≡◌, map, IfOk};
ghost use Rattle.it_space.specs.Answers.{answer_view};
ghost use Rattle.it_syntax.specs.Meaning.{relation_view};
ghost use Rattle.it_question.specs.Questions.{Contain, Prove};
ghost use Rattle.it_canon.specs.QuestionDemands.{terms_in};
ghost use Rattle.it_region.specs.Obligations.{IsSubstitution};
ghost use Rattle.it_answer.specs.AnswerKinds.{IsAnswerTo};
ghost use Rattle.it_answer.specs.RowAnswers.{obligation_rows, relation_rows};
ghost use Rattle.it_region.specs.AnswerForms.{answer_forms};

use it_question::types::{Question, Region, Verb};
use it_region::{candidate, obligations, pair};
use it_space::{Answer, Row, VarSet};
use it_syntax::types::Relation;
use std::alloc::{AllocError, Global};

/// The rows that an answer is about, in order: to `prove` those of the relation's targets, of a containment those of the
/// obligations of its sets. Any other answer has none.
pub fn target_rows(
    alloc: Global,
    question: &Question,
    answer: &Answer,
) -> Result<Vec<Row>, AllocError>
    requires fits { IsAnswerTo question.now.body (answer_view answer.now) }
    ensures { IfOk result (λ v. v.items ≡ map (terms_in question.now.body) (answer_forms question.now.body (answer_view answer.now))) }
{
    match question.verb() {
        Verb::Prove(relation) => relation_rows(alloc, question, relation),
        Verb::Eliminate(_) => Ok(Vec::new(alloc)),
        Verb::Contain {
            first,
            second,
            tries,
        } => contained_rows(alloc, question, first, second, tries.as_slice(), answer),
    }
}

/// The rows of a relation's targets.
fn relation_rows(
    alloc: Global,
    question: &Question,
    relation: &Relation,
) -> Result<Vec<Row>, AllocError>
    requires proves { question.now.body.verb ≡ Prove (relation_view relation.now) }
    ensures { IfOk result (λ v. v.items ≡ relation_rows question.now.body (relation_view relation.now)) }
{
    it_canon::target_rows(alloc, relation, question.space())
}

/// The rows of the obligations, where the answer is a containment.
fn contained_rows(
    alloc: Global,
    question: &Question,
    first: &Region,
    second: &Region,
    tries: &[[VarSet; 4]],
    answer: &Answer,
) -> Result<Vec<Row>, AllocError>
    requires contains { question.now.body.verb ≡ Contain first.now second.now tries.now }
    requires fits { IsAnswerTo question.now.body (answer_view answer.now) }
    ensures { IfOk result (λ v. v.items ≡ map (terms_in question.now.body) (answer_forms question.now.body (answer_view answer.now))) }
{
    match answer {
        Answer::Contained { parts, .. } => {
            obligation_rows(alloc, question, first, second, tries, parts.as_slice())
        }
        _ => Ok(Vec::new(alloc)),
    }
}

/// The rows of the obligations that these parts give.
fn obligation_rows(
    alloc: Global,
    question: &Question,
    first: &Region,
    second: &Region,
    tries: &[[VarSet; 4]],
    parts: &[VarSet],
) -> Result<Vec<Row>, AllocError>
    requires contains { question.now.body.verb ≡ Contain first.now second.now tries.now }
    requires parts { IsSubstitution first.now second.now parts.now }
    ensures { IfOk result (λ v. v.items ≡ obligation_rows question.now.body first.now second.now parts.now) }
{
    let pair = pair(alloc, question)?;
    let candidate = candidate(parts);
    // named before it is answered, so that the contract of the call stands at the answer
    let rows = obligations(alloc, &pair, &candidate)?;
    Ok(rows)
}
