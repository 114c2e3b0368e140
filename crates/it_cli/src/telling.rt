//! The last line that a call writes.
ghost use Rattle.it_cli.specs.InnerEnds.{EndOfLine};

use crate::status::Status;
use it_outside::{Sink, write_all};

/// Writes `line` and returns `status`, or `WriteFault` if the write fails.
pub fn tell<K: Sink>(sink: &mut K, line: &[u8], status: Status) -> Status
    ensures { EndOfLine (K.taken sink.old) (K.taken sink.new) (K.faults sink.old) (K.faults sink.new) line.now status result }
{
    match write_all(sink, line) {
        Ok(()) => status,
        Err(_) => Status::WriteFault,
    }
}
