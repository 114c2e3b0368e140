//! Kernels of the product, for timing (bench/run) and for vectors (examples/vectors). `bench KERNEL WAY LIMIT TURNS` reads its input
//! from the standard input, does its work TURNS times, and prints what comes out. KERNEL and WAY are one of
//! fractions add, mul or compare: the operation on each pair of fractions, a pair on a line as four numbers; a sum over the results.
//! WAY each writes the results of all operations, a line for each pair.
//! questions read, text or rows: each question as it is read, its text, or the rows of its constraints and targets.
//! systems ends: systems of columns and a target, a line each; which engine answers each (`narrow` by rows in 32 bits, `wide` in 64,
//! `exact` by fractions), and how its run ends.
//! simplex solve or exact: whether the target of the first question is a sum of the elemental inequalities, with a budget of LIMIT
//! steps, as the product asks or by the table of fractions alone; how the run ends. WAY system writes the columns in place of it.
//! reading file: the reading of the input as a question file; its bytes and its questions.
//! reduce shared, anew or plain: the elimination of the rates of the first question, with a reduction after each, in which what is
//! made of the givens serves each row or each row is a call of its own, or without; the rows after each rate, and the calls.
//! contain kept or plain: the search of the first question by at most LIMIT candidates, in which no obligation is solved twice, or
//! each is; how it ends, and the calls.
#![tactic(auto)]

ghost use Rattle.std.specs.Prelude.{◌≤◌, length};
ghost use Rattle.it_syntax.specs.Lines.{most_text_bytes};

mod fractions;
mod output;
mod readings;
mod reductions;
mod runs;
mod searches;
mod systems;
mod targets;

use crate::output::Output;
use it_outside::{StdSource, read_all};
use it_question::types::Question;
use it_question::{FileLimits, questions};
use std::alloc::{AllocError, Global};
use std::{io, str};

/// The most bytes of an input.
const MOST: usize = 1_048_576;

/// How a kernel does its work, with which limit and how often.
#[derive(Clone, Copy)]
pub struct Task<'a> {
    pub way: &'a str,
    pub limit: u32,
    pub turns: u32,
}

/// The number of questions of a file.
fn count(alloc: Global, file: &[u8]) -> usize
    requires { length file.now ≤ most_text_bytes }
{
    match questions(alloc, file, FileLimits::USUAL) {
        Ok(questions) => questions.len(),
        Err(_) => 0,
    }
}

/// Reads a question file again and again, and writes its bytes and its questions.
fn reading(alloc: Global, out: &mut Output, file: &[u8], task: &Task<'_>)
    requires { length file.now ≤ most_text_bytes }
{
    let mut questions = 0;
    for _ in 0..task.turns {
        questions = count(alloc, file);
    }
    out.put(file.len());
    out.put(' ');
    out.put(questions);
    out.put('\n');
}

/// Writes each question.
fn write_all(
    alloc: Global,
    out: &mut Output,
    kernel: &str,
    questions: &[Question],
    task: &Task<'_>,
) -> Result<(), AllocError> {
    for question in questions {
        if kernel == "targets" {
            targets::write(alloc, out, question, task)?;
        } else {
            readings::write(alloc, out, question, task)?;
        }
    }
    Ok(())
}

/// The work of a kernel on a question.
fn asking(
    alloc: Global,
    out: &mut Output,
    kernel: &str,
    question: &Question,
    task: &Task<'_>,
) -> Result<(), AllocError> {
    match kernel {
        "simplex" => runs::time(alloc, out, question, task),
        "reduce" => reductions::time(alloc, out, question, task),
        "contain" => searches::time(alloc, out, question, task),
        _ => {
            out.put("no kernel\n");
            Ok(())
        }
    }
}

/// The work of a kernel on a question file.
fn on_questions(
    alloc: Global,
    out: &mut Output,
    kernel: &str,
    file: &[u8],
    task: &Task<'_>,
) -> Result<(), AllocError>
    requires { length file.now ≤ most_text_bytes }
{
    match questions(alloc, file, FileLimits::USUAL) {
        Ok(questions) if kernel == "questions" || kernel == "targets" => {
            write_all(alloc, out, kernel, questions.as_slice(), task)
        }
        Ok(questions) if !questions.is_empty() => {
            asking(alloc, out, kernel, &questions.as_slice()[0], task)
        }
        _ => {
            out.put("no question\n");
            Ok(())
        }
    }
}

/// The work of a kernel on the lines of a text.
fn on_lines(
    alloc: Global,
    out: &mut Output,
    kernel: &str,
    input: &[u8],
    task: &Task<'_>,
) -> Result<(), AllocError> {
    match str::from_utf8(input) {
        Ok(text) if kernel == "fractions" => fractions::time(alloc, out, text, task),
        Ok(text) => systems::write_ends(alloc, out, text),
        Err(_) => {
            out.put("no text\n");
            Ok(())
        }
    }
}

/// The work of a kernel on its input.
fn time(
    alloc: Global,
    out: &mut Output,
    kernel: &str,
    input: &[u8],
    task: &Task<'_>,
) -> Result<(), AllocError> {
    if kernel == "fractions" || kernel == "systems" {
        return on_lines(alloc, out, kernel, input, task);
    }
    if input.len() > MOST {
        return Ok(());
    }
    if kernel == "reading" {
        reading(alloc, out, input, task);
        return Ok(());
    }
    on_questions(alloc, out, kernel, input, task)
}

/// Reads the input, and does a kernel's work on it.
fn run(rt: HostRuntime, kernel: &str, task: &Task<'_>) -> io::Result<()> {
    let alloc = rt.alloc();
    let mut out = Output::new(rt);
    match read_all(alloc, &mut StdSource::new(rt.stdin()), MOST) {
        Ok(input) => time(alloc, &mut out, kernel, input.as_slice(), task)?,
        Err(_) => out.put("no input\n"),
    }
    out.end()
}

fn main(rt: HostRuntime) -> io::Result<()> {
    let words = std::env::args(&rt)?
        .skip(1)
        .collect::<Vec<String>>(rt.alloc())?;
    let [kernel, way, limit, turns] = words.as_slice() else {
        return println!(rt; "usage: bench KERNEL WAY LIMIT TURNS < INPUT");
    };
    let task = Task {
        way: way.as_str(),
        limit: limit.as_str().parse::<u32>().unwrap_or(0),
        turns: turns.as_str().parse::<u32>().unwrap_or(0),
    };
    run(rt, kernel.as_str(), &task)
}
