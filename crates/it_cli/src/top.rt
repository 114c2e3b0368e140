//! The top call.
ghost use Rattle.std.specs.Prelude.{◌≡◌, ◌≤◌, Some, length, map};
ghost use Rattle.std.specs.Option.{IfSome};
ghost use Rattle.it_settings.specs.Settings.{AreInRange};
ghost use Rattle.it_cli.specs.Ends.{Ends, call_of};
ghost use Rattle.it_cli.specs.InnerEnds.{EndsForBytes, EndsForSettings};
ghost use Rattle.it_cli.specs.Outputs.{mode_of, most_bytes};
ghost use Rattle.it_cli.specs.Right.{budgets_of, effort_of, limits_of, limits_of_names};

use crate::answering::answer_file;
use crate::benching::bench;
use crate::bounding::find_bounds;
use crate::checking::check_report;
use crate::heads::{Wanted, reply_to_file};
use crate::refusals::LONG;
use crate::requests::{AnswerRequest, Request};
use crate::sharing::answer_sharing;
use crate::status::Status;
use crate::telling::tell;
use it_answer::Budgets;
use it_contain::Proposer;
use it_outer::Limits;
use it_outside::{InFault, Sink, Source, read_all};
use it_prove::{Effort, Runs};
use it_question::FileLimits;
use it_settings::settings;
use it_settings::types::{Run, Settings, WordsFault};
use std::alloc::Global;

/// The line that is written where the words have no reading.
const USAGE: &[u8] =
    b"usage: itip answer|check|bench|copy|best|sharing [--format text|json|proof] [--pivots N] [--rows N] [--tries N] [--seed N] [--count N]\n";

/// All that the program does: `words` are those of the command line after the program's name, `proposers` the boxes that
/// propose candidates for containments. The input is read whole before the first line of output. The lines of one question, or
/// the line of one verdict, are written by one write, in order.
pub fn itip<S: Source, K: Sink>(
    alloc: Global,
    words: &[&str],
    source: &mut S,
    sink: &mut K,
    proposers: Vec<Box<dyn Proposer>>,
) -> Status
    ensures { Ends (call_of S.left S.faults K.taken K.faults words.now (map plan proposers.items) source.old source.new sink.old sink.new) result }
{
    let mut boxes = proposers;
    call(alloc, words, source, sink, &mut boxes)
}

/// Like `itip`, with boxes that outlive the call.
fn call<S: Source, K: Sink>(
    alloc: Global,
    words: &[&str],
    source: &mut S,
    sink: &mut K,
    boxes: &mut Vec<Box<dyn Proposer>>,
) -> Status
    ensures { Ends (call_of S.left S.faults K.taken K.faults words.now (map plan boxes.old.items) source.old source.new sink.old sink.new) result }
{
    match settings(alloc, words) {
        Ok(settings) => run(alloc, settings, source, sink, boxes),
        Err(WordsFault::Usage) => tell(sink, USAGE, Status::Usage),
        Err(WordsFault::Memory) => Status::Memory,
    }
}

/// Runs the mode of `settings`.
fn run<S: Source, K: Sink>(
    alloc: Global,
    settings: Settings,
    source: &mut S,
    sink: &mut K,
    boxes: &mut Vec<Box<dyn Proposer>>,
) -> Status
    requires { AreInRange settings }
    ensures { EndsForSettings S.left S.faults K.taken K.faults settings (map plan boxes.old.items) source.old source.new sink.old sink.new result }
{
    match limit(settings) {
        Some(most) => read(alloc, settings, most, source, sink, boxes),
        None => reply(alloc, settings, &[], sink, boxes),
    }
}

/// Runs a mode with an input of at most `most` bytes.
fn read<S: Source, K: Sink>(
    alloc: Global,
    settings: Settings,
    most: usize,
    source: &mut S,
    sink: &mut K,
    boxes: &mut Vec<Box<dyn Proposer>>,
) -> Status
    requires ranges { AreInRange settings }
    requires limit { most_bytes settings ≡ Some most }
    ensures { EndsForSettings S.left S.faults K.taken K.faults settings (map plan boxes.old.items) source.old source.new sink.old sink.new result }
{
    match read_all(alloc, source, most) {
        Ok(bytes) => reply(alloc, settings, bytes.as_slice(), sink, boxes),
        Err(InFault::ReadFault) => Status::ReadFault,
        Err(InFault::TooLong) => tell(sink, LONG, Status::Refused),
        Err(InFault::Memory) => Status::Memory,
    }
}

/// The most bytes of a file, 2^20.
const MOST_FILE_BYTES: usize = 1_048_576;

/// The most bytes of a report, 2^26.
const MOST_REPORT_BYTES: usize = 67_108_864;

/// The most bytes of an input; None where the mode has no input.
fn limit(settings: Settings) -> Option<usize>
    ensures { result ≡ most_bytes settings }
{
    match settings {
        Settings::Answer { .. } => Some(MOST_FILE_BYTES),
        Settings::Check { .. } => Some(MOST_REPORT_BYTES),
        Settings::Bench { .. } => None,
        Settings::Copy { .. } => Some(MOST_FILE_BYTES),
        Settings::Best { .. } => Some(MOST_FILE_BYTES),
        Settings::Outer { .. } => Some(MOST_FILE_BYTES),
        Settings::Sharing { .. } => Some(MOST_FILE_BYTES),
    }
}

/// The effort to decide a target.
fn effort_of(run: Run, pivots: Option<u32>) -> Effort
    ensures { result ≡ effort_of run pivots }
{
    match run {
        Run::Bland => Effort {
            runs: Runs::Defined,
            pivots,
        },
        Run::Quick => Effort {
            runs: Runs::QuickFirst,
            pivots,
        },
    }
}

/// The budgets of an answer.
fn budgets_of(run: Run, pivots: Option<u32>, rows: u32, tries: u32) -> Budgets
    requires few { rows ≤ 4096 }
    ensures { result ≡ budgets_of run pivots rows tries }
{
    Budgets {
        effort: effort_of(run, pivots),
        rows: rows as u16,
        tries,
    }
}

/// The limits of a search for outer bounds.
fn limits_of(run: Run, pivots: Option<u32>, rows: u32, tries: u32) -> Limits
    ensures { result ≡ limits_of run pivots rows tries }
{
    Limits {
        rows: rows as usize,
        rays: tries as usize,
        effort: effort_of(run, pivots),
    }
}

/// The limits of files whose questions may name so many variables, where their number is given.
fn limits_of_names(names: Option<u8>) -> FileLimits
    ensures { result ≡ limits_of_names names }
{
    match names {
        Some(variables) => FileLimits::wide(variables),
        None => FileLimits::USUAL,
    }
}

/// Runs the mode of `settings` on the bytes of a whole input, or on none.
fn reply<K: Sink>(
    alloc: Global,
    settings: Settings,
    bytes: &[u8],
    sink: &mut K,
    boxes: &mut Vec<Box<dyn Proposer>>,
) -> Status
    requires ranges { AreInRange settings }
    requires fits { IfSome (most_bytes settings) (λ most. length bytes.now ≤ most) }
    ensures { EndsForBytes K.taken K.faults (mode_of (map plan boxes.old.items) settings) sink.old sink.new bytes.now result }
{
    match settings {
        Settings::Answer {
            format,
            run,
            pivots,
            rows,
            tries,
            names,
        } => {
            let limits = limits_of_names(names);
            let budgets = budgets_of(run, pivots, rows, tries);
            let request = AnswerRequest {
                limits,
                format,
                budgets,
            };
            answer_file(alloc, request, bytes, boxes, sink)
        }
        Settings::Check { names } => check_report(alloc, limits_of_names(names), bytes, sink),
        Settings::Bench {
            seed,
            count,
            run,
            pivots,
            rows,
            tries,
        } => {
            let budgets = budgets_of(run, pivots, rows, tries);
            bench(alloc, seed, count, budgets, boxes, sink)
        }
        Settings::Copy {
            report,
            run,
            pivots,
            names,
        } => {
            let limits = limits_of_names(names);
            let effort = effort_of(run, pivots);
            let request = Request {
                limits,
                report,
                effort,
            };
            reply_to_file(alloc, Wanted::Answers, request, bytes, sink)
        }
        Settings::Best {
            report,
            run,
            pivots,
            names,
        } => {
            let limits = limits_of_names(names);
            let effort = effort_of(run, pivots);
            let request = Request {
                limits,
                report,
                effort,
            };
            reply_to_file(alloc, Wanted::Factors, request, bytes, sink)
        }
        Settings::Outer {
            report,
            run,
            pivots,
            rows,
            tries,
            names,
        } => {
            let file = limits_of_names(names);
            let limits = limits_of(run, pivots, rows, tries);
            find_bounds(alloc, file, report, limits, bytes, sink)
        }
        Settings::Sharing {
            report,
            run,
            pivots,
            names,
        } => {
            let limits = limits_of_names(names);
            let effort = effort_of(run, pivots);
            let request = Request {
                limits,
                report,
                effort,
            };
            answer_sharing(alloc, request, bytes, sink)
        }
    }
}
