//! The answers to questions.
ghost use Rattle.std.specs.Prelude.{◌≡◌, map, IfOk};
ghost use Rattle.it_space.specs.Answers.{answer_view, certificate_view};
ghost use Rattle.it_syntax.specs.Meaning.{relation_view};
ghost use Rattle.it_syntax.specs.Givens.{IsRelationOf};
ghost use Rattle.it_demand.specs.Origins.{AreStated};
ghost use Rattle.it_demand.specs.QuestionSpaces.{space_of};
ghost use Rattle.it_question.specs.ProblemLines.{problem_names};
ghost use Rattle.it_canon.specs.QuestionDemands.{question_demands, question_origins, problem_of, IsProblemOf};
ghost use Rattle.it_prove.specs.ProofViews.{proof_view};
ghost use Rattle.it_answer.specs.RightAnswers.{IsAnswered, budgets_under};
ghost use Rattle.it_answer.specs.RowAnswers.{AnswersEquality, AnswersInequality, AnswersRelation, answer_after_one, answer_after_two};

use crate::containments::containment;
use crate::regions::region;
use crate::types::{AnsweredProblem, Budgets};
use it_canon::{canon, problem};
use it_columns::opposite_row;
use it_contain::Proposer;
use it_problems::Problem;
use it_prove::{ClosedProblem, Effort, Proof, prove};
use it_question::types::{Question, Verb};
use it_space::{Answer, Certificate};
use it_syntax::types::{Relation, Sign};
use std::alloc::{AllocError, Global};

/// A right answer to a question, within the budgets; where the defined run about the question's problem is out of reach, by quick runs
/// alone. The boxes propose what a containment tries after its `try` lines, and learn of the candidate that it finds, for later questions.
pub fn answer(
    alloc: Global,
    question: &Question,
    budgets: Budgets,
    boxes: &mut Vec<Box<dyn Proposer>>,
) -> Result<AnsweredProblem, AllocError>
    ensures space { IfOk result (λ a. a.problem.space ≡ space_of (problem_names question.now.body)) }
    ensures problem { IfOk result (λ a. AreStated a.problem.space (question_origins question.now.body) (question_demands question.now.body) a.problem.constraints) }
    ensures answered { IfOk result (λ a. IsAnswered (budgets_under (problem_of question.now.body) budgets) (map plan boxes.old.items) question.now a.answer (map plan boxes.new.items)) }
{
    let problem = problem(alloc, question)?;
    let own = budgets.under(alloc, &problem)?;
    let answer = answer_under(alloc, question, &problem, own, boxes)?;
    Ok(AnsweredProblem { problem, answer })
}

/// The answer to a question by its verb, with the question's problem.
fn answer_under(
    alloc: Global,
    question: &Question,
    problem: &Problem,
    budgets: Budgets,
    boxes: &mut Vec<Box<dyn Proposer>>,
) -> Result<Answer, AllocError>
    requires problem { IsProblemOf question.now.body problem.now }
    ensures { IfOk result (λ a. IsAnswered budgets (map plan boxes.old.items) question.now a (map plan boxes.new.items)) }
{
    match question.verb() {
        Verb::Prove(relation) => { relation_answer(alloc, problem, relation, budgets.effort) }
        Verb::Eliminate(rates) => { region(alloc, question, rates.as_slice(), problem, budgets) }
        Verb::Contain { .. } => containment(alloc, question, budgets, boxes),
    }
}

/// The answer about a relation under a problem, with this effort for each target. The two targets of an equality are the left
/// side less the right one, then the right side less the left one; the second is asked only where the first has a certificate.
fn relation_answer(
    alloc: Global,
    problem: &Problem,
    relation: &Relation,
    effort: Effort,
) -> Result<Answer, AllocError>
    requires relation { IsRelationOf problem.now.space.variables problem.now.space.rates (relation_view relation.now) }
    ensures { IfOk result (λ a. AnswersRelation problem.now (relation_view relation.now) (answer_view a) effort) }
{
    match relation.sign {
        Sign::AtLeast => inequality(alloc, problem, relation, effort),
        Sign::AtMost => inequality(alloc, problem, relation, effort),
        Sign::Equal => equation(alloc, problem, relation, effort),
    }
}

/// The answer about an inequality, which has one target.
fn inequality(
    alloc: Global,
    problem: &Problem,
    relation: &Relation,
    effort: Effort,
) -> Result<Answer, AllocError>
    requires relation { IsRelationOf problem.now.space.variables problem.now.space.rates (relation_view relation.now) }
    ensures { IfOk result (λ a. AnswersInequality problem.now (relation_view relation.now) (answer_view a) effort) }
{
    let row = canon(alloc, relation, problem.space())?;
    let proof = prove(alloc, problem, &row, effort)?;
    after_one(alloc, proof)
}

/// The answer about an equation, which has two targets. What is made of the problem serves both.
fn equation(
    alloc: Global,
    problem: &Problem,
    relation: &Relation,
    effort: Effort,
) -> Result<Answer, AllocError>
    requires relation { IsRelationOf problem.now.space.variables problem.now.space.rates (relation_view relation.now) }
    ensures { IfOk result (λ a. AnswersEquality problem.now (relation_view relation.now) (answer_view a) effort) }
{
    let row = canon(alloc, relation, problem.space())?;
    let mut closed = ClosedProblem::read(alloc, problem, effort)?;
    match closed.prove(alloc, problem, &row, effort)? {
        Proof::Yes(certificate) => {
            let other = opposite_row(alloc, &row)?;
            let proof = closed.prove(alloc, problem, &other, effort)?;
            after_two(alloc, certificate, proof)
        }
        proof => after_one(alloc, proof),
    }
}

/// The answer after the first target, where no other is to be asked.
fn after_one(alloc: Global, proof: Proof) -> Result<Answer, AllocError>
    ensures { IfOk result (λ a. answer_view a ≡ answer_after_one (proof_view proof)) }
{
    match proof {
        Proof::Yes(certificate) => {
            let proofs = vec![in alloc; certificate]?;
            Ok(Answer::Yes(proofs))
        }
        Proof::No(point) => Ok(Answer::No { back: false, point }),
        Proof::Undecided(cause) => Ok(Answer::Undecided(cause)),
    }
}

/// The answer after the second target, where the first has a certificate.
fn after_two(alloc: Global, first: Certificate, proof: Proof) -> Result<Answer, AllocError>
    ensures { IfOk result (λ a. answer_view a ≡ answer_after_two (certificate_view first) (proof_view proof)) }
{
    match proof {
        Proof::Yes(second) => {
            let proofs = vec![in alloc; first, second]?;
            Ok(Answer::Yes(proofs))
        }
        Proof::No(point) => Ok(Answer::No { back: true, point }),
        Proof::Undecided(cause) => Ok(Answer::Undecided(cause)),
    }
}
