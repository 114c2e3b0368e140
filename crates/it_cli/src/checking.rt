//! Mode `check`: a report and its verdicts.
ghost use Rattle.it_cli.specs.InnerEnds.{EndsForBytes};
ghost use Rattle.it_cli.specs.LineModes.{verdicts};
ghost use Rattle.it_cli.specs.Outputs.{check_mode};

use crate::replying::{Replies, write_replies};
use crate::status::Status;
use it_outside::Sink;
use it_question::FileLimits;
use it_report::{JudgedLine, judge};
use std::alloc::{AllocError, Global};

/// The verdict on each line, whose question is within these limits.
#[derive(Clone, Copy)]
struct Verdicts {
    limits: FileLimits,
}

impl Replies for Verdicts {
    ghost mode = { λ v. verdicts v.limits };

    fn reply(&self, alloc: Global, k: usize, line: &[u8]) -> Result<JudgedLine, AllocError> {
        let judged = judge(alloc, k, line, self.limits)?;
        Ok(judged)
    }
}

/// Checks a report, whose questions are within these limits; writes each verdict as soon as it is there.
pub fn check_report<K: Sink>(
    alloc: Global,
    limits: FileLimits,
    bytes: &[u8],
    sink: &mut K,
) -> Status
    ensures { EndsForBytes K.taken K.faults (check_mode limits) sink.old sink.new bytes.now result }
{
    write_replies(alloc, &Verdicts { limits }, bytes, sink)
}
