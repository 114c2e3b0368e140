//! Sources and sinks in memory, with calls that fail on request.
ghost use Rattle.std.specs.Prelude.{◌≡◌, ◌<◌, ◌≤◌, ◌++◌, ◌↔◌, length, max, take, drop, Some, IsErr, IsOk, IsTrue, IfOk, OnOk, OnErr};
ghost use Rattle.std.specs.Io.{ReadsAtMost, WritesAtMost};
ghost use Rattle.std.specs.Io.KnownBytes.{ReadConsumes};
ghost use Rattle.it_outside.specs.Causes.{faults_after};
ghost use Rattle.it_outside.specs.Memory.{ReadFails, WriteFails, after_read, after_write, new_sink, new_source, read_count, write_count};
ghost use Rattle.it_outside.specs.Traffic.{WriteGains};

use crate::ends::{Failed, Sink, Source};
use std::alloc::{AllocError, Global};
use std::marker::Model;

/// A source over bytes in memory, given in steps, with given reads that fail.
#[derive(Drop)]
pub struct MemorySource {
    bytes: Vec<u8>,
    at: usize,
    step: usize,
    failing: Vec<u64>,
    calls: u64,
    faults: u64,
}

impl Model for MemorySource {
    ghost use Rattle.std.specs.Prelude.{◌<◌, ◌≤◌, drop, vec_len};
    ghost use Rattle.it_outside.specs.Memory.{MemorySourceView};

    ghost Value = { MemorySourceView };

    ghost view = { λ s. record {
      left = drop s.at s.bytes.items;
      step = s.step;
      failing = s.failing.items;
      calls = s.calls;
      faults = s.faults;
    } };

    ghost invariant = { λ s. (s.at ≤ vec_len s.bytes) × (0 < s.step) };
}

impl MemorySource {
    /// A source that gives `bytes`, at most `step` in a call, and fails in the calls whose numbers are in `failing`.
    /// Calls are counted from 1, and the count saturates at the greatest `u64`.
    pub fn new(bytes: Vec<u8>, step: usize, failing: Vec<u64>) -> MemorySource
        requires { 0 < step }
        ensures { result ≡ new_source bytes.items step failing.items }
    {
        MemorySource {
            bytes,
            at: 0,
            step,
            failing,
            calls: 0,
            faults: 0,
        }
    }
}

/// Copies the first `count` bytes of `from` to the front of `to`.
pub fn copy_front(from: &[u8], to: &mut [u8], count: usize)
    requires source { count ≤ length from.now }
    requires target { count ≤ length to.old }
    ensures { to.new ≡ take count from.now ++ drop count to.old }
{
    to[..count].copy_from_slice(&from[..count]);
}

impl Source for MemorySource {
    ghost left = { λ s. Some s.left };

    ghost faults = { λ s. s.faults };

    fn read(&mut self, buf: &mut [u8]) -> Result<usize, Failed>
        ensures bound { ReadsAtMost result buf.new }
        ensures bytes { ReadConsumes (Some self.old.left) (Some self.new.left) result buf.new }
        ensures counted { self.new.faults ≡ faults_after self.old.faults result }

        // Which bytes are given, and when the call fails.
        ensures fails { IsErr result ↔ ReadFails self.old }
        ensures gives { IfOk result (λ count. count ≡ read_count self.old (length buf.old)) }
        ensures filled { IfOk result (λ count. buf.new ≡ take count self.old.left ++ drop count buf.old) }
        ensures untouched { OnErr result (buf.new ≡ buf.old) }
        ensures after { self.new ≡ after_read self.old result }
    {
        self.calls = self.calls.saturating_add(1);
        if self.failing.contains(&self.calls) {
            self.faults = self.faults.saturating_add(1);
            return Err(Failed);
        }
        let left = &self.bytes[self.at..];
        let count = self.step.min(buf.len()).min(left.len());
        copy_front(left, buf, count);
        self.at += count;
        Ok(count)
    }
}

/// A sink in memory, with given writes that fail. It takes no more than the space that was reserved.
#[derive(Drop)]
pub struct MemorySink {
    bytes: Vec<u8>,
    room: usize,
    step: usize,
    failing: Vec<u64>,
    calls: u64,
    faults: u64,
}

impl Model for MemorySink {
    ghost use Rattle.std.specs.Prelude.{◌+◌, ◌<◌, ◌≤◌, vec_len, vec_capacity};
    ghost use Rattle.it_outside.specs.Memory.{MemorySinkView};

    ghost Value = { MemorySinkView };

    ghost view = { λ s. record {
      bytes = s.bytes.items;
      room = s.room;
      step = s.step;
      failing = s.failing.items;
      calls = s.calls;
      faults = s.faults;
    } };

    ghost invariant = { λ s. (vec_len s.bytes + s.room ≤ vec_capacity s.bytes) × (0 < s.step) };
}

impl MemorySink {
    /// A sink that takes at most `step` bytes in a call, and fails in the calls whose numbers are in `failing`.
    /// Calls are counted from 1, and the count saturates at the greatest `u64`.
    /// At first no space is reserved.
    pub fn new(alloc: Global, step: usize, failing: Vec<u64>) -> MemorySink
        requires { 0 < step }
        ensures { result ≡ new_sink step failing.items }
    {
        MemorySink {
            bytes: Vec::new(alloc),
            room: 0,
            step,
            failing,
            calls: 0,
            faults: 0,
        }
    }

    /// The bytes that were taken.
    pub fn bytes(&self) -> &[u8]
        ensures { result.now ≡ self.now.bytes }
    {
        self.bytes.as_slice()
    }

    /// Reserves space for at least `more` bytes, the space that is free already included.
    pub fn reserve(&mut self, more: usize) -> Result<(), AllocError>
        ensures ok { OnOk result (self.new ≡ record self.old { room = max self.old.room more }) }
        ensures err { OnErr result (self.new ≡ self.old) }
        ensures enough { more ≤ self.old.room → IsOk result }
    {
        self.bytes.reserve(more)?;
        self.room = self.room.max(more);
        Ok(())
    }

    /// Whether the next write fails, if it is of `piece`.
    fn write_fails(&self, piece: &[u8]) -> bool
        ensures { IsTrue result ↔ WriteFails self.now piece.now }
    {
        let call = self.calls.saturating_add(1);
        self.failing.contains(&call) || (self.room == 0 && !piece.is_empty())
    }
}

impl Sink for MemorySink {
    ghost taken = { λ s. Some s.bytes };

    ghost faults = { λ s. s.faults };

    fn write(&mut self, piece: &[u8]) -> Result<usize, Failed>
        ensures bound { WritesAtMost result piece.now }
        ensures moves { IfOk result (λ count. 0 < length piece.now → 0 < count) }
        ensures bytes { WriteGains (Some self.old.bytes) (Some self.new.bytes) result piece.now }
        ensures counted { self.new.faults ≡ faults_after self.old.faults result }

        // Which bytes are taken, and when the call fails.
        ensures fails { IsErr result ↔ WriteFails self.old piece.now }
        ensures takes { IfOk result (λ count. count ≡ write_count self.old piece.now) }
        ensures after { self.new ≡ after_write self.old piece.now result }
    {
        let fails = self.write_fails(piece);
        self.calls = self.calls.saturating_add(1);
        if fails {
            self.faults = self.faults.saturating_add(1);
            return Err(Failed);
        }
        let count = self.step.min(piece.len()).min(self.room);
        // The space was reserved, so this allocates nothing and doesn't fail.
        let Ok(()) = self.bytes.extend_from_slice(&piece[..count]) else {
            return Err(Failed);
        };
        self.room -= count;
        Ok(count)
    }
}
