//! Sources and sinks in memory that never fail: their counts of faults stay 0.
ghost use Rattle.std.specs.Prelude.{◌≡◌, ◌<◌, ◌≤◌, ◌++◌, [], length, min, take, drop, Some, Ok, IfOk, vec_capacity};
ghost use Rattle.std.specs.Io.{ReadsAtMost, WritesAtMost};
ghost use Rattle.std.specs.Io.KnownBytes.{ReadConsumes};
ghost use Rattle.it_outside.specs.Causes.{faults_after};
ghost use Rattle.it_outside.specs.Sure.{new_sure_sink, bytes_told, after_sure_write};
ghost use Rattle.it_outside.specs.Traffic.{WriteGains};

use crate::ends::{Failed, Sink, Source};
use crate::memory::copy_front;
use std::marker::Model;

/// A source over bytes in memory, of which a call gives as many as the buffer holds.
#[derive(Drop)]
pub struct SureSource {
    bytes: Vec<u8>,
    at: usize,
}

impl Model for SureSource {
    ghost use Rattle.std.specs.Prelude.{ℕ, List, ◌≤◌, drop, vec_len};

    ghost Value = { List ℕ };

    ghost view = { λ s. drop s.at s.bytes.items };

    ghost invariant = { λ s. s.at ≤ vec_len s.bytes };
}

impl SureSource {
    /// A source that gives `bytes`.
    pub fn new(bytes: Vec<u8>) -> SureSource
        ensures { result ≡ bytes.items }
    {
        SureSource { bytes, at: 0 }
    }
}

impl Source for SureSource {
    ghost left = { λ s. Some s };

    ghost faults = { λ s. 0 };

    fn read(&mut self, buf: &mut [u8]) -> Result<usize, Failed>
        ensures bound { ReadsAtMost result buf.new }
        ensures bytes { ReadConsumes (Some self.old) (Some self.new) result buf.new }
        ensures counted { 0 ≡ faults_after 0 result }

        // Which bytes are given: as many as are left and fit the buffer.
        ensures gives { result ≡ Ok (min (length buf.old) (length self.old)) }
        ensures filled { buf.new ≡ take (length buf.old) self.old ++ drop (length self.old) buf.old }
        ensures after { self.new ≡ drop (length buf.old) self.old }
    {
        let left = &self.bytes[self.at..];
        let count = buf.len().min(left.len());
        copy_front(left, buf, count);
        self.at += count;
        Ok(count)
    }
}

/// A sink that takes everything and keeps the first bytes, up to a limit. Of later bytes it keeps only whether there are any, and if
/// there are, its contract no longer says what it took. It allocates nothing.
#[derive(Drop)]
pub struct SureSink {
    room: Vec<u8>,
    limit: usize,
    more: bool,
}

impl Model for SureSink {
    ghost use Rattle.std.specs.Prelude.{◌≡◌, ◌≤◌, IsTrue, vec_len, vec_capacity};
    ghost use Rattle.it_outside.specs.Sure.{SureSinkView};

    ghost Value = { SureSinkView };

    ghost view = { λ s. record { limit = s.limit; kept = s.room.items; more = s.more } };

    ghost invariant = { λ s. (vec_len s.room ≤ s.limit) × (s.limit ≤ vec_capacity s.room) × (IsTrue s.more → vec_len s.room ≡ s.limit) };
}

impl SureSink {
    /// A sink that keeps the first `limit` bytes, in `room`, where space is reserved for them.
    pub fn new(room: Vec<u8>, limit: usize) -> SureSink
        requires empty { room.items ≡ [] }
        requires reserved { limit ≤ vec_capacity room }
        ensures { result ≡ new_sure_sink limit }
    {
        SureSink {
            room,
            limit,
            more: false,
        }
    }

    /// The bytes that the sink kept.
    pub fn bytes(&self) -> &[u8]
        ensures { result.now ≡ self.now.kept }
    {
        self.room.as_slice()
    }

    /// Whether the sink took more bytes than it kept.
    pub fn has_more(&self) -> bool
        ensures { result ≡ self.now.more }
    {
        self.more
    }
}

impl Sink for SureSink {
    ghost taken = { bytes_told };

    ghost faults = { λ s. 0 };

    fn write(&mut self, piece: &[u8]) -> Result<usize, Failed>
        ensures bound { WritesAtMost result piece.now }
        ensures moves { IfOk result (λ count. 0 < length piece.now → 0 < count) }
        ensures bytes { WriteGains (bytes_told self.old) (bytes_told self.new) result piece.now }
        ensures counted { 0 ≡ faults_after 0 result }

        // Which bytes are taken: all.
        ensures takes { result ≡ Ok (length piece.now) }
        ensures after { self.new ≡ after_sure_write self.old piece.now }
    {
        let spare = self.limit - self.room.len();
        let count = spare.min(piece.len());
        // The space was reserved, so this allocates nothing and doesn't fail.
        let Ok(()) = self.room.extend_from_slice(&piece[..count]) else {
            return Err(Failed);
        };
        if spare < piece.len() {
            self.more = true;
        }
        Ok(piece.len())
    }
}
