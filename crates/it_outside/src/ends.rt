//! Sources and sinks, as the program sees them.
ghost use Rattle.std.specs.Prelude.{ℕ, ◌≡◌, List, ◌<◌, length, Option, IfOk};
ghost use Rattle.std.specs.Io.{ReadsAtMost, WritesAtMost};
ghost use Rattle.std.specs.Io.KnownBytes.{ReadConsumes};
ghost use Rattle.it_outside.specs.Traffic.{WriteGains};
ghost use Rattle.it_outside.specs.Causes.{faults_after};

/// A read or a write that failed: none of its bytes count as moved, and the count of faults goes up by one.
#[derive(Clone, Copy, Debug, PartialEq, Eq)]
pub struct Failed;

/// Where bytes come from.
pub trait Source {
    /// The bytes that are left, where the source's contract says them.
    ghost left: { Self → Option (List ℕ) };

    /// The number of calls that failed so far. It saturates at the greatest `u64`.
    ghost faults: { Self → ℕ };

    /// Puts the next bytes at the front of `buf` and returns their number.
    /// 0 for a buffer that isn't empty means the end: nothing is left.
    fn read(&mut self, buf: &mut [u8]) -> Result<usize, Failed>
        ensures bound { ReadsAtMost result buf.new }
        ensures bytes { ReadConsumes (left self.old) (left self.new) result buf.new }
        ensures counted { faults self.new ≡ faults_after (faults self.old) result };
}

/// Where bytes go to.
pub trait Sink {
    /// The bytes that were taken, where the sink's contract says them. It may stop saying them, and never begins to.
    ghost taken: { Self → Option (List ℕ) };

    /// The number of calls that failed so far. It saturates at the greatest `u64`.
    ghost faults: { Self → ℕ };

    /// Takes the first bytes of `piece` and returns their number, at least 1 if `piece` isn't empty.
    fn write(&mut self, piece: &[u8]) -> Result<usize, Failed>
        ensures bound { WritesAtMost result piece.now }
        ensures moves { IfOk result (λ n. 0 < length piece.now → 0 < n) }
        ensures bytes { WriteGains (taken self.old) (taken self.new) result piece.now }
        ensures counted { faults self.new ≡ faults_after (faults self.old) result };
}
