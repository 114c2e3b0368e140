//! The top call of the program `tell`.
ghost use Rattle.std.specs.Prelude.{[]};
ghost use Rattle.it_cli.specs.Ends.{call_of};
ghost use Rattle.it_cli.specs.InnerEnds.{EndOfLine};
ghost use Rattle.it_tell.specs.Ends.{Ends};
ghost use Rattle.it_tell.specs.Steps.{EndsForTelling};

use crate::reports::tell_report;
use crate::settings::{Options, Settings, settings_of};
use it_cli::Status;
use it_outside::{InFault, Sink, Source, read_all, write_all};
use std::alloc::Global;

/// The most bytes of a report.
const MOST: usize = 67108864;

/// The line that refuses a report of more bytes.
const LONG: &[u8] = b"refused long\n";

/// The text for `--help`.
const HELP: &[u8] =
    b"usage: tell [--steps] [--short] [--named | --whole] <REPORT\nTells what the lines of a report say, as `itip answer --format json` writes one, in the field's own notation.\n--steps: below each proof its steps\n--short: proofs with the least sum of terms, which may take long\n--named: proofs where the question's functions hold, with constraints by their lines' names\n--whole: these with the lines' own terms, to be pasted\n";

/// The text for `--version`.
const VERSION: &[u8] = b"tell 1\n";

/// All that the program does: `words` are those of the command line after the program's name. It reads a report, as `itip
/// answer --format json` writes it, and writes what is told of each of its lines. The report is read whole before the first
/// line of output. The lines about one line of the report are written by one write, in order. If the words have no reading
/// nothing is written.
pub fn tell<S: Source, K: Sink>(
    alloc: Global,
    words: &[&str],
    source: &mut S,
    sink: &mut K,
) -> Status
    ensures { Ends (call_of S.left S.faults K.taken K.faults words.now [] source.old source.new sink.old sink.new) result }
{
    match settings_of(words) {
        Some(Settings::Tell(options)) => tell_source(alloc, options, source, sink),
        Some(Settings::Help) => write_last(sink, HELP, Status::Done),
        Some(Settings::Version) => write_last(sink, VERSION, Status::Done),
        None => Status::Usage,
    }
}

/// Tells the report that `source` gives.
fn tell_source<S: Source, K: Sink>(
    alloc: Global,
    options: Options,
    source: &mut S,
    sink: &mut K,
) -> Status
    ensures { EndsForTelling S.left S.faults K.taken K.faults options source.old source.new sink.old sink.new result }
{
    match read_all(alloc, source, MOST) {
        Ok(bytes) => tell_report(alloc, options, bytes.as_slice(), sink),
        Err(InFault::ReadFault) => Status::ReadFault,
        Err(InFault::TooLong) => write_last(sink, LONG, Status::Refused),
        Err(InFault::Memory) => Status::Memory,
    }
}

/// Writes `text` and returns `status`, or `WriteFault` if the write fails.
fn write_last<K: Sink>(sink: &mut K, text: &[u8], status: Status) -> Status
    ensures { EndOfLine (K.taken sink.old) (K.taken sink.new) (K.faults sink.old) (K.faults sink.new) text.now status result }
{
    match write_all(sink, text) {
        Ok(()) => status,
        Err(_) => Status::WriteFault,
    }
}
