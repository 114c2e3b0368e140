//! Modes that go line by line through a report.
ghost use Rattle.std.specs.Prelude.{◌≡◌, ℕ, IfOk};
ghost use Rattle.it_cli.specs.InnerEnds.{EndsForBytes};
ghost use Rattle.it_cli.specs.LineModes.{IsReplied, LineMode, mode_of_lines};
ghost use Rattle.it_cli.specs.Outputs.{verdict_status};

use crate::status::Status;
use it_outside::{Sink, write_all};
use it_question::first_line;
use it_report::JudgedLine;
use std::alloc::{AllocError, Global};

/// What is written of each line of a report.
pub trait Replies {
    /// The replies that are right for a line, with their texts.
    ghost mode: { Self → LineMode };

    /// The reply to line `k` of a report; lines are counted from 1, and `line` comes without its end.
    fn reply(&self, alloc: Global, k: usize, line: &[u8]) -> Result<JudgedLine, AllocError>
        ensures { IfOk result (λ j. IsReplied (mode self.now) k line.now j.text.items j.invalid) };
}

/// Writes the reply to each line of a report as soon as it is there. The status says whether one says `invalid`.
pub fn write_replies<R: Replies, K: Sink>(
    alloc: Global,
    replies: &R,
    bytes: &[u8],
    sink: &mut K,
) -> Status
    ensures { EndsForBytes K.taken K.faults (mode_of_lines (R.mode replies.now)) sink.old sink.new bytes.now result }
{
    let mut rest = bytes;
    let mut count: usize = 0;
    let mut some_invalid = false;
    while !rest.is_empty() {
        let (line, after) = first_line(rest);
        let Ok(reply) = replies.reply(alloc, count + 1, line) else {
            return Status::Memory;
        };
        let Ok(()) = write_all(sink, reply.text.as_slice()) else {
            return Status::WriteFault;
        };
        some_invalid |= reply.invalid;
        count += 1;
        rest = after;
    }
    status_after(some_invalid)
}

/// The status after all replies are written.
fn status_after(some_invalid: bool) -> Status
    ensures { result ≡ verdict_status some_invalid }
{
    if some_invalid {
        Status::Invalid
    } else {
        Status::Done
    }
}
