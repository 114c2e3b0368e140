//! Mode `bench`: a generated question file, and how many of its answers are of each kind.
ghost use Rattle.std.specs.Prelude.{◌≤◌, ◌<◌, ◌^◌, ℕ, List, [], map, All, IfOk};
ghost use Rattle.it_question.specs.Limits.{IsQuestion};
ghost use Rattle.it_question.specs.Files.{IsFile};
ghost use Rattle.it_gen.specs.GeneratedFiles.{generated_file};
ghost use Rattle.it_cli.specs.Counts.{AreCounted, IsBenchLine, no_counts};
ghost use Rattle.it_cli.specs.InnerEnds.{EndsForBytes};
ghost use Rattle.it_cli.specs.Outputs.{bench_mode};

use crate::counts::{Counts, bench_line};
use crate::status::Status;
use crate::telling::tell;
use it_answer::{Budgets, answer};
use it_contain::Proposer;
use it_gen::{generated_is_file, questions_of};
use it_outside::Sink;
use it_question::types::{FileFault, Question};
use it_question::{FileLimits, file_is_one, questions};
use std::alloc::{AllocError, Global};

/// Answers the questions of a generated file, and writes the line of their counts.
pub fn bench<K: Sink>(
    alloc: Global,
    seed: u32,
    count: u32,
    budgets: Budgets,
    boxes: &mut Vec<Box<dyn Proposer>>,
    sink: &mut K,
) -> Status
    requires seed { seed < 2 ^ 31 }
    requires some { 1 ≤ count }
    requires few { count ≤ 1000 }
    ensures { (bytes : List ℕ) → EndsForBytes K.taken K.faults (bench_mode budgets (map plan boxes.old.items) seed count) sink.old sink.new bytes result }
{
    match generated_line(alloc, seed, count, budgets, boxes) {
        Ok(line) => tell(sink, line.as_slice(), Status::Done),
        Err(_) => Status::Memory,
    }
}

/// The line of counts for the generated file of a seed and a count.
fn generated_line(
    alloc: Global,
    seed: u32,
    count: u32,
    budgets: Budgets,
    boxes: &mut Vec<Box<dyn Proposer>>,
) -> Result<Vec<u8>, AllocError>
    requires seed { seed < 2 ^ 31 }
    requires some { 1 ≤ count }
    requires few { count ≤ 1000 }
    ensures { IfOk result (λ line. IsBenchLine budgets (map plan boxes.old.items) seed count line.items) }
{
    let questions = generated_questions(alloc, seed, count)?;
    let counts = counts_of(alloc, budgets, questions.as_slice(), boxes)?;
    bench_line(alloc, seed, count, counts)
}

/// The questions of the generated file of a seed and a count.
fn generated_questions(alloc: Global, seed: u32, count: u32) -> Result<Vec<Question>, AllocError>
    requires seed { seed < 2 ^ 31 }
    requires some { 1 ≤ count }
    requires few { count ≤ 1000 }
    ensures read { IfOk result (λ qs. IsFile (generated_file seed count) qs.items) }
    ensures limits { IfOk result (λ qs. All (λ q. IsQuestion q.body) qs.items) }
{
    let bytes = questions_of(alloc, seed, count)?;
    generated_is_file();
    file_is_one();
    match questions(alloc, bytes.as_slice(), FileLimits::USUAL) {
        Ok(questions) => Ok(questions),
        Err(FileFault::Memory) => Err(AllocError),
        Err(FileFault::Fault { .. }) => unreachable!(),
    }
}

/// The counts of the answers to questions in order, by boxes that learn of each candidate that is found.
fn counts_of(
    alloc: Global,
    budgets: Budgets,
    questions: &[Question],
    boxes: &mut Vec<Box<dyn Proposer>>,
) -> Result<Counts, AllocError>
    requires limits { All (λ q. IsQuestion q.body) questions.now }
    ensures { IfOk result (λ counts. AreCounted budgets (map plan boxes.old.items) [] no_counts questions.now counts) }
{
    let mut counts = Counts::new();
    for question in questions {
        let answered = answer(alloc, question, budgets, boxes)?;
        counts = counts.with_answer(&answered.answer);
    }
    Ok(counts)
}
