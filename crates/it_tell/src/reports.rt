//! The lines about a report.
ghost use Rattle.it_cli.specs.InnerEnds.{EndsForBytes};
ghost use Rattle.it_tell.specs.Ends.{tell_mode};
ghost use Rattle.it_tell.specs.Steps.{tellings};

use crate::lines::tell_line;
use crate::settings::Options;
use it_cli::{Replies, Status, write_replies};
use it_outside::Sink;
use it_report::JudgedLine;
use std::alloc::{AllocError, Global};

/// What is told of each line, as the options ask for it.
impl Replies for Options {
    ghost mode = { tellings };

    fn reply(&self, alloc: Global, k: usize, line: &[u8]) -> Result<JudgedLine, AllocError> {
        tell_line(alloc, *self, k, line)
    }
}

/// Tells a report; writes what is told of a line as soon as it is there.
pub fn tell_report<K: Sink>(alloc: Global, options: Options, bytes: &[u8], sink: &mut K) -> Status
    ensures { EndsForBytes K.taken K.faults (tell_mode options) sink.old sink.new bytes.now result }
{
    write_replies(alloc, &options, bytes, sink)
}
