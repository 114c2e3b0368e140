//! Adapters: sources over readers, and sinks over writers.
ghost use Rattle.std.specs.Prelude.{◌≡◌, ◌<◌, length, nat_eq, None, IfOk};
ghost use Rattle.std.specs.Io.{ReadsAtMost, WritesAtMost};
ghost use Rattle.std.specs.Io.KnownBytes.{ReadConsumes};
ghost use Rattle.it_outside.specs.Causes.{faults_after};
ghost use Rattle.it_outside.specs.Standard.{PassesOn, ReadsOnce, WritesAndFlushes, read_answer, write_answer};
ghost use Rattle.it_outside.specs.Traffic.{WriteGains};

use crate::ends::{Failed, Sink, Source};
use crate::streams::{Reader, Writer};
use std::io;
use std::marker::Model;

/// A source over any reader. Its contract doesn't say its bytes.
#[derive(Drop)]
pub struct StdSource<R: Reader + Drop> {
    reader: R,
    faults: u64,
}

impl<R: Reader + Drop> Model for StdSource<R> {
    ghost use Rattle.it_outside.specs.Standard.{Adapter};

    ghost Value = { Adapter R };

    ghost view = { λ s. record { inner = s.reader; faults = s.faults } };
}

impl<R: Reader + Drop> StdSource<R> {
    /// The source over `reader`, before its first call.
    pub fn new(reader: R) -> StdSource<R>
        ensures { result ≡ record { inner = reader; faults = 0 } }
    {
        StdSource { reader, faults: 0 }
    }
}

/// The count of faults after a call that returned `answer`.
fn faults_after(faults: u64, answer: &Result<usize, Failed>) -> u64
    ensures { result ≡ faults_after faults answer.now }
{
    match answer {
        Ok(_) => faults,
        Err(Failed) => faults.saturating_add(1),
    }
}

/// The result of a read with `outcome`.
fn read_answer(outcome: io::Result<usize>) -> Result<usize, Failed>
    ensures { result ≡ read_answer outcome }
{
    outcome.map_err(|_| Failed)
}

impl<R: Reader + Drop> Source for StdSource<R> {
    ghost left = { λ _. None };

    ghost faults = { λ s. s.faults };

    fn read(&mut self, buf: &mut [u8]) -> Result<usize, Failed>
        ensures bound { ReadsAtMost result buf.new }
        ensures bytes { ReadConsumes None None result buf.new }

        // The reader was called once. The read gives what the reader gave, and fails exactly if it failed.
        ensures once { ReadsOnce R.Reads self.old.inner result buf.new self.new.inner }
        ensures handed_on { ReadConsumes (R.remaining self.old.inner) (R.remaining self.new.inner) result
            buf.new }
        ensures counted { self.new.faults ≡ faults_after self.old.faults result }
    {
        let outcome = self.reader.read_once(buf);
        let result = read_answer(outcome);
        self.faults = faults_after(self.faults, &result);
        result
    }
}

/// A sink over any writer, which is flushed after each write. Its contract doesn't say its bytes.
#[derive(Drop)]
pub struct StdSink<W: Writer + Drop> {
    writer: W,
    faults: u64,
}

impl<W: Writer + Drop> Model for StdSink<W> {
    ghost use Rattle.it_outside.specs.Standard.{Adapter};

    ghost Value = { Adapter W };

    ghost view = { λ s. record { inner = s.writer; faults = s.faults } };
}

impl<W: Writer + Drop> StdSink<W> {
    /// The sink over `writer`, before its first call.
    pub fn new(writer: W) -> StdSink<W>
        ensures { result ≡ record { inner = writer; faults = 0 } }
    {
        StdSink { writer, faults: 0 }
    }
}

/// The result of a write with outcome `written` and a flush with outcome `flushed`; `is_empty` says whether the piece was empty.
fn write_answer(
    written: io::Result<usize>,
    is_empty: bool,
    flushed: io::Result<()>,
) -> Result<usize, Failed>
    ensures { result ≡ write_answer written is_empty flushed }
{
    match (written, flushed) {
        (Ok(count), Ok(())) if count > 0 || is_empty => Ok(count),
        _ => Err(Failed),
    }
}

impl<W: Writer + Drop> Sink for StdSink<W> {
    ghost taken = { λ _. None };

    ghost faults = { λ s. s.faults };

    fn write(&mut self, piece: &[u8]) -> Result<usize, Failed>
        ensures bound { WritesAtMost result piece.now }
        ensures moves { IfOk result (λ count. 0 < length piece.now → 0 < count) }
        ensures bytes { WriteGains None None result piece.now }

        // The writer was called once and then flushed, and the write fails exactly if one of the two failed, or if nothing was
        // taken of a piece that isn't empty. In a write that fails, the writer may have taken a prefix of the piece.
        ensures once { WritesAndFlushes W.Writes W.Flushes (nat_eq (length piece.now) 0) self.old.inner piece.now
            result self.new.inner }
        ensures handed_on { PassesOn (W.contents self.old.inner) (W.contents self.new.inner) result piece.now }
        ensures counted { self.new.faults ≡ faults_after self.old.faults result }
    {
        let written = self.writer.write_once(piece);
        let flushed = self.writer.flush_once();
        let result = write_answer(written, piece.is_empty(), flushed);
        self.faults = faults_after(self.faults, &result);
        result
    }
}
