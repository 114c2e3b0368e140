//! Targets by one of the two runs alone: by the defined run, or by the quick run, which may settle nothing.

ghost use Rattle.std.specs.Prelude.{◌≡◌};
ghost use Rattle.it_question.specs.Questions.{Prove};
ghost use Rattle.it_space.specs.Rows.{IsOver};
ghost use Rattle.it_space.specs.Spaces.{size_of};
ghost use Rattle.it_syntax.specs.Meaning.{relation_view};

use crate::Task;
use crate::output::Output;
use crate::reductions::elimination;
use it_canon::{problem, target_rows};
use it_problems::Problem;
use it_prove::{Effort, Proof, Runs, prove, settle};
use it_question::types::{Question, Verb};
use it_quick::QuickProblem;
use it_space::Row;
use it_syntax::types::Relation;
use std::alloc::{AllocError, Global};

/// The defined run, with as many steps as it takes.
const DEFINED: Effort = Effort {
    runs: Runs::Defined,
    pivots: None,
};

/// The run that is asked, the number of targets that it was asked about, and the number of them that it settled.
#[derive(Drop)]
pub struct Asking {
    quick: bool,
    steps: u32,
    // what quick runs keep of the problem
    kept: Option<QuickProblem>,
    asked: u32,
    settled: u32,
}

impl Asking {
    /// The defined run, before the first target.
    pub fn defined() -> Asking {
        Asking {
            quick: false,
            steps: 0,
            kept: None,
            asked: 0,
            settled: 0,
        }
    }

    /// The run of a task.
    fn of(task: &Task<'_>) -> Asking {
        Asking {
            quick: task.way == "quick",
            steps: task.limit,
            kept: None,
            asked: 0,
            settled: 0,
        }
    }

    /// The answer of the run about a target.
    fn answer(
        &mut self,
        alloc: Global,
        problem: &Problem,
        target: &Row,
    ) -> Result<Option<Proof>, AllocError>
        requires target { IsOver (size_of problem.now.space) target.now }
    {
        if !self.quick {
            return Ok(Some(prove(alloc, problem, target, DEFINED)?));
        }
        let mut quick = match self.kept.take() {
            Some(quick) => quick,
            None => QuickProblem::read(alloc, problem)?,
        };
        let proof = settle(alloc, &mut quick, problem, target, self.steps)?;
        self.kept = Some(quick);
        Ok(proof)
    }

    /// Whether the run proves a target.
    pub fn proves(
        &mut self,
        alloc: Global,
        problem: &Problem,
        target: &Row,
    ) -> Result<bool, AllocError>
        requires target { IsOver (size_of problem.now.space) target.now }
    {
        self.asked = self.asked.wrapping_add(1);
        let (is_yes, is_settled) = match self.answer(alloc, problem, target)? {
            Some(Proof::Yes(_)) => (true, true),
            Some(Proof::No(_)) => (false, true),
            _ => (false, false),
        };
        self.settled = self.settled.wrapping_add(u32::from(is_settled));
        Ok(is_yes)
    }
}

/// Whether the run proves each target of a relation, up to one that it doesn't.
fn proves_relation(
    alloc: Global,
    question: &Question,
    relation: &Relation,
    asking: &mut Asking,
) -> Result<bool, AllocError>
    requires proves { question.now.body.verb ≡ Prove (relation_view relation.now) }
{
    question.facts();
    let problem = problem(alloc, question)?;
    for target in target_rows(alloc, relation, problem.space())?.as_slice() {
        if !asking.proves(alloc, &problem, target)? {
            return Ok(false);
        }
    }
    Ok(true)
}

/// Writes the answer of the run about a question.
fn answer(
    alloc: Global,
    out: &mut Output,
    question: &Question,
    asking: &mut Asking,
) -> Result<(), AllocError> {
    match question.verb() {
        Verb::Prove(relation) => {
            let is_yes = proves_relation(alloc, question, relation, asking)?;
            out.put(if is_yes { "yes" } else { "no" });
        }
        Verb::Eliminate(rates) => {
            let (counts, _) = elimination(alloc, question, rates.as_slice(), "anew", asking)?;
            out.put("region ");
            out.put(counts.last().copied().unwrap_or(0));
        }
        Verb::Contain { .. } => out.put("other"),
    }
    Ok(())
}

/// Writes the answer of the run about a question, the number of targets that it was asked about, and the number of those that it
/// settled.
pub fn write(
    alloc: Global,
    out: &mut Output,
    question: &Question,
    task: &Task<'_>,
) -> Result<(), AllocError> {
    let mut asking = Asking::of(task);
    answer(alloc, out, question, &mut asking)?;
    out.put(' ');
    out.put(asking.asked);
    out.put(' ');
    out.put(asking.settled);
    out.put('\n');
    Ok(())
}
