//! Tests: reading and writing, with calls that fail at the read, the write and the flush.
ghost use Rattle.std.specs.Prelude.{◌≡◌, ◌<◌, IfOk};

use it_outside::{
    InFault, MemorySink, MemorySource, OutFault, StdSink, StdSource, SureSink, SureSource,
    read_all, write_all,
};
use std::alloc::{AllocError, Global};
use std::io;
use std::io::{ErrorKind, Read, Write};

const LINE: &[u8] = b"1 yes 1 : 1 I(X;Y)\n";

/// A source of `bytes` that gives `step` of them at a call and fails at the calls `failing`.
fn source(
    alloc: Global,
    bytes: &[u8],
    step: usize,
    failing: &[u64],
) -> Result<MemorySource, AllocError>
    requires { 0 < step }
{
    let failing = Vec::from_slice(alloc, failing)?;
    Ok(MemorySource::new(Vec::from_slice(alloc, bytes)?, step, failing))
}

/// Whether the reading of `bytes` up to `limit` of them ends with `want`, where `step` come at a call and the calls `failing` fail.
fn reads(
    alloc: Global,
    bytes: &[u8],
    step: usize,
    failing: &[u64],
    limit: usize,
    want: Result<&[u8], InFault>,
) -> bool
    requires { 0 < step }
{
    let Ok(source) = source(alloc, bytes, step, failing) else {
        return false;
    };
    let mut source = source;
    match read_all(alloc, &mut source, limit) {
        Ok(all) => want == Ok(all.as_slice()),
        Err(fault) => want == Err(fault),
    }
}

/// Whether reading ends at the end, the limit or a fault.
fn ends_there(alloc: Global) -> bool {
    let all: &[u8] = b"abc";
    reads(alloc, all, 1, &[], 3, Ok(all))
        && reads(alloc, all, 9, &[], 3, Ok(all))
        && reads(alloc, all, 1, &[], 2, Err(InFault::TooLong))
        && reads(alloc, all, 9, &[], 2, Err(InFault::TooLong))
        && reads(alloc, all, 1, &[2], 3, Err(InFault::ReadFault))
        && reads(alloc, b"", 1, &[], 0, Ok(b""))
}

/// Whether a read that would fail after the end changes nothing. One read gives all bytes and the second tells the end, so the
/// third isn't made; three reads give a byte each and the fourth tells the end.
fn ends_before(alloc: Global) -> bool {
    let all: &[u8] = b"abc";
    reads(alloc, all, 9, &[3], 3, Ok(all)) && reads(alloc, all, 1, &[5], 3, Ok(all))
}

#[test]
fn reading_ends_at_the_end_the_limit_or_a_fault(rt: HostRuntime) {
    assert!(rt; ends_there(rt.alloc()));
    assert!(rt; ends_before(rt.alloc()));
}

/// A sink with room for `room` bytes that takes `step` at a call and fails at the calls `failing`.
fn sink(alloc: Global, room: usize, step: usize, failing: &[u64]) -> Result<MemorySink, AllocError>
    requires { 0 < step }
{
    let mut sink = MemorySink::new(alloc, step, Vec::from_slice(alloc, failing)?);
    sink.reserve(room)?;
    Ok(sink)
}

/// Whether the writing of the line to a sink with room for `room` bytes, that takes `step` at a call and fails at the calls
/// `failing`, ends with `want`, with the line's first `count` bytes there.
fn writes(
    alloc: Global,
    room: usize,
    step: usize,
    failing: &[u64],
    count: usize,
    want: Result<(), OutFault>,
) -> bool
    requires { 0 < step }
{
    let Ok(sink) = sink(alloc, room, step, failing) else {
        return false;
    };
    let mut sink = sink;
    let end = write_all(&mut sink, LINE);
    end == want && LINE.get(..count) == Some(sink.bytes())
}

/// Whether writing stops at a fault or without room.
fn stops(alloc: Global) -> bool {
    let fault = Err(OutFault::WriteFault);
    writes(alloc, 19, 1, &[], 19, Ok(()))
        && writes(alloc, 19, 7, &[4], 19, Ok(()))
        && writes(alloc, 19, 1, &[5], 4, fault)
        && writes(alloc, 3, 7, &[], 3, fault)
        && writes(alloc, 0, 7, &[], 0, fault)
}

/// Whether the writing of `piece` ends with `want` after a call for `more` room, with `bytes` in the sink.
fn ends(
    sink: &mut MemorySink,
    more: usize,
    piece: &[u8],
    want: Result<(), OutFault>,
    bytes: &[u8],
) -> bool {
    if sink.reserve(more).is_err() {
        return false;
    }
    let end = write_all(sink, piece);
    end == want && sink.bytes() == bytes
}

/// Whether room is what was reserved and not yet taken.
fn takes_room(alloc: Global) -> bool {
    let Ok(sink) = sink(alloc, 0, 100, &[]) else {
        return false;
    };
    let mut sink = sink;
    ends(&mut sink, 0, b"", Ok(()), b"")
        && ends(&mut sink, 4, b"", Ok(()), b"")
        && ends(&mut sink, 2, LINE, Err(OutFault::WriteFault), b"1 ye")
        && ends(&mut sink, 1, b"!", Ok(()), b"1 ye!")
}

#[test]
fn writing_stops_at_a_fault_or_without_room(rt: HostRuntime) {
    assert!(rt; stops(rt.alloc()));
    assert!(rt; takes_room(rt.alloc()));
}

/// A reader and writer of one byte a call. It counts its calls of each kind, from 1, and fails at one of them, or at none
/// where that is 0.
#[derive(Drop)]
struct Trial {
    reads: u32,
    writes: u32,
    flushes: u32,
    failing_read: u32,
    failing_write: u32,
    failing_flush: u32,
}

impl Trial {
    fn new(failing_read: u32, failing_write: u32, failing_flush: u32) -> Trial {
        Trial {
            reads: 0,
            writes: 0,
            flushes: 0,
            failing_read,
            failing_write,
            failing_flush,
        }
    }
}

/// The outcome of call number `call`, which fails if it is number `failing`.
fn outcome<T: Drop>(value: T, call: u32, failing: u32) -> io::Result<T>
    ensures { IfOk result (λ given. given ≡ value) }
{
    if call == failing {
        Err(ErrorKind::Other.into())
    } else {
        Ok(value)
    }
}

impl Read for Trial {
    fn read(&mut self, buf: &mut [u8]) -> io::Result<usize> {
        self.reads = self.reads.saturating_add(1);
        let Some(byte) = buf.first_mut() else {
            return Ok(0);
        };
        *byte = b'a';
        outcome(1, self.reads, self.failing_read)
    }
}

impl Write for Trial {
    fn write(&mut self, buf: &[u8]) -> io::Result<usize> {
        self.writes = self.writes.saturating_add(1);
        outcome(buf.len().min(1), self.writes, self.failing_write)
    }

    fn flush(&mut self) -> io::Result<()> {
        self.flushes = self.flushes.saturating_add(1);
        outcome((), self.flushes, self.failing_flush)
    }
}

/// Whether a source passes on what its reader gives.
fn gives_line(alloc: Global) -> bool {
    match read_all(alloc, &mut StdSource::new(LINE), 19) {
        Ok(all) => all.as_slice() == LINE,
        Err(_) => false,
    }
}

/// Whether a sink passes on what it takes.
fn takes_line(alloc: Global) -> bool {
    let mut out: Vec<u8> = Vec::new(alloc);
    let end = write_all(&mut StdSink::new(&mut out), LINE);
    end == Ok(()) && out.as_slice() == LINE
}

#[test]
fn a_source_and_a_sink_pass_on_a_line(rt: HostRuntime) {
    assert!(rt; gives_line(rt.alloc()));
    assert!(rt; takes_line(rt.alloc()));
}

/// Whether a source fails where its reader does, at the second call.
fn fails_at_read(alloc: Global) -> bool {
    let mut trial = Trial::new(2, 0, 0);
    let read = read_all(alloc, &mut StdSource::new(&mut trial), 9);
    matches!(read, Err(InFault::ReadFault)) && trial.reads == 2
}

/// Whether the writing of the line ends with `want` where these calls fail, after `calls` writes and as many flushes.
fn tries(failing_write: u32, failing_flush: u32, calls: u32, want: Result<(), OutFault>) -> bool {
    let mut trial = Trial::new(0, failing_write, failing_flush);
    let end = write_all(&mut StdSink::new(&mut trial), LINE);
    end == want && trial.writes == calls && trial.flushes == calls
}

/// Whether a sink fails where its writer does. Without a fault the line takes a write and a flush for each of its 19 bytes.
fn fails_at_call() -> bool {
    let fault = Err(OutFault::WriteFault);
    tries(0, 0, 19, Ok(()))
        && tries(3, 0, 3, fault)
        && tries(0, 3, 3, fault)
        && tries(0, 1, 1, fault)
}

/// Whether a sink fails where nothing was taken.
fn fails_when_full() -> bool {
    let mut two = [0; 2];
    let end = write_all(&mut StdSink::new(&mut two[..]), b"abc");
    end == Err(OutFault::WriteFault) && two.as_slice() == b"ab".as_slice()
}

/// Whether a sure sink with the limit `limit` keeps `kept` of what a sure source gives, and tells by `more` whether there was more.
fn keeps(alloc: Global, limit: usize, kept: &[u8], more: bool) -> bool {
    let Ok(bytes) = Vec::from_slice(alloc, b"abc") else {
        return false;
    };
    let Ok(room) = Vec::with_capacity(alloc, limit) else {
        return false;
    };
    let mut sink = SureSink::new(room, limit);
    match read_all(alloc, &mut SureSource::new(bytes), 3) {
        Ok(all) => {
            let end = write_all(&mut sink, all.as_slice());
            end == Ok(()) && sink.bytes() == kept && sink.has_more() == more
        }
        Err(_) => false,
    }
}

/// Whether a sure sink keeps a prefix.
fn keeps_prefix(alloc: Global) -> bool {
    keeps(alloc, 4, b"abc", false) && keeps(alloc, 3, b"abc", false) && keeps(alloc, 2, b"ab", true)
}

#[test]
fn a_sure_sink_keeps_what_a_sure_source_gives(rt: HostRuntime) {
    assert!(rt; keeps_prefix(rt.alloc()));
}

/// A writer that takes everything, and whose reader is gone, which only the flush finds.
#[derive(Drop)]
struct BrokenPipe;

impl Write for BrokenPipe {
    fn write(&mut self, buf: &[u8]) -> io::Result<usize> {
        Ok(buf.len())
    }

    fn flush(&mut self) -> io::Result<()> {
        Err(ErrorKind::BrokenPipe.into())
    }
}

/// Whether a sink fails where the flush finds a broken pipe.
fn fails_at_flush() -> bool {
    write_all(&mut StdSink::new(BrokenPipe), LINE) == Err(OutFault::WriteFault)
}

#[test]
fn a_source_and_a_sink_fail_where_an_inner_call_does(rt: HostRuntime) {
    assert!(rt; fails_at_read(rt.alloc()));
    assert!(rt; fails_at_call());
    assert!(rt; fails_when_full());
    assert!(rt; fails_at_flush());
}
