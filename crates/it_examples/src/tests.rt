//! Tests: calls of the program over sources and sinks in memory, with reads and writes that fail.

ghost use Rattle.std.specs.Prelude.{◌<◌};

use it_cli::{Status, itip};
use it_contain::{Proposer, Recent, Singles, Subsets};
use it_outside::{MemorySink, MemorySource, SureSink, SureSource};
use std::alloc::{AllocError, Global};
use std::test::Fail;

/// More room than any output here needs.
const ROOM: usize = 32_768;

/// A step with which a whole input or output goes at one call.
const WHOLE: usize = 2_000_000;

const USAGE: &[u8] =
    b"usage: itip answer|check|bench|copy|best|sharing [--format text|json|proof] [--pivots N] [--rows N] [--tries N] [--seed N] [--count N]\n";

const MUTUAL: &[u8] = b"vars X, Y\nprove I(X;Y) >= 0\n";

/// The answer to it.
const YES: &[u8] = b"1 yes 1 : 1 I(X;Y)\n";

/// The same question three times.
const THRICE: &[u8] =
    b"vars X, Y\nprove I(X;Y) >= 0\nvars X, Y\nprove I(X;Y) >= 0\nvars X, Y\nprove I(X;Y) >= 0\n";

/// A source of `bytes` that gives `step` of them at a call and fails at the calls `failing`.
fn source_of(
    alloc: Global,
    bytes: &[u8],
    step: usize,
    failing: &[u64],
) -> Result<MemorySource, AllocError>
    requires { 0 < step }
{
    let failing = Vec::from_slice(alloc, failing)?;
    Ok(MemorySource::new(Vec::from_slice(alloc, bytes)?, step, failing))
}

/// A sink with room that takes `step` bytes at a call and fails at the calls `failing`.
fn sink_of(alloc: Global, step: usize, failing: &[u64]) -> Result<MemorySink, AllocError>
    requires { 0 < step }
{
    let mut sink = MemorySink::new(alloc, step, Vec::from_slice(alloc, failing)?);
    sink.reserve(ROOM)?;
    Ok(sink)
}

/// The top call, by the boxes of the program.
fn call(
    alloc: Global,
    words: &[&str],
    source: &mut MemorySource,
    sink: &mut MemorySink,
) -> Result<Status, AllocError> {
    let mut proposers: Vec<Box<dyn Proposer>> = Vec::new(alloc);
    proposers.push(Box::new(alloc, Recent::new())?)?;
    proposers.push(Box::new(alloc, Singles::new())?)?;
    proposers.push(Box::new(alloc, Subsets::new())?)?;
    Ok(itip(alloc, words, source, sink, proposers))
}

/// Whether a call over this source and this sink ends with `status`, with `bytes` in the sink.
fn ends(
    alloc: Global,
    words: &[&str],
    source: MemorySource,
    sink: MemorySink,
    status: Status,
    bytes: &[u8],
) -> Result<bool, AllocError> {
    let (mut source, mut sink) = (source, sink);
    let end = call(alloc, words, &mut source, &mut sink)?;
    Ok(end == status && sink.bytes() == bytes)
}

/// Whether a call that reads `input` at once, over this sink, fails to write after `bytes`.
fn stops(
    alloc: Global,
    words: &[&str],
    input: &[u8],
    sink: MemorySink,
    bytes: &[u8],
) -> Result<bool, AllocError> {
    let source = source_of(alloc, input, WHOLE, &[])?;
    ends(alloc, words, source, sink, Status::WriteFault, bytes)
}

/// Whether a call whose first read would fail ends with `status`, with `bytes` written.
fn reads_nothing(
    alloc: Global,
    words: &[&str],
    status: Status,
    bytes: &[u8],
) -> Result<bool, AllocError> {
    let source = source_of(alloc, MUTUAL, WHOLE, &[1])?;
    let sink = sink_of(alloc, WHOLE, &[])?;
    ends(alloc, words, source, sink, status, bytes)
}

#[test]
fn other_words_get_the_usage_line_and_no_read(rt: HostRuntime) -> Result<(), Fail> {
    let alloc = rt.alloc();
    let words = ["answer", "--pivots", "0"];
    assert!(rt; reads_nothing(alloc, &words, Status::Usage, USAGE)?);
    assert!(rt; reads_nothing(alloc, &[], Status::Usage, USAGE)?);
    Ok(())
}

#[test]
fn bench_leaves_its_input(rt: HostRuntime) -> Result<(), Fail> {
    let words = ["bench", "--count=2", "--pivots=1"];
    let counts = b"bench seed 1 count 2 yes 0 no 0 undecided 2 region 0 contained 0 open 0\n";
    assert!(rt; reads_nothing(rt.alloc(), &words, Status::Done, counts)?);
    Ok(())
}

/// Whether an answer to a question that is read byte by byte, where read number `failing` would fail, ends with `status` and `bytes`.
fn reads(alloc: Global, failing: u64, status: Status, bytes: &[u8]) -> Result<bool, AllocError> {
    let source = source_of(alloc, MUTUAL, 1, &[failing])?;
    let sink = sink_of(alloc, WHOLE, &[])?;
    ends(alloc, &["answer"], source, sink, status, bytes)
}

#[test]
fn a_failed_read_writes_nothing(rt: HostRuntime) -> Result<(), Fail> {
    // The input is read in 28 calls of one byte and one that tells the end.
    for failing in 1..30 {
        assert!(rt;
            reads(rt.alloc(), failing, Status::ReadFault, b"")?,
            "{failing}"
        );
    }
    Ok(())
}

#[test]
fn a_read_that_would_fail_after_the_end_changes_nothing(rt: HostRuntime) -> Result<(), Fail> {
    // The first 29 calls tell the input and its end, so the thirtieth isn't made.
    assert!(rt; reads(rt.alloc(), 30, Status::Done, YES)?);
    Ok(())
}

#[test]
fn a_failed_write_leaves_a_front_of_an_answer(rt: HostRuntime) -> Result<(), Fail> {
    let alloc = rt.alloc();
    let first = sink_of(alloc, WHOLE, &[1])?;
    assert!(rt; stops(alloc, &["answer"], MUTUAL, first, b"")?);
    let fifth = sink_of(alloc, 1, &[5])?;
    assert!(rt; stops(alloc, &["answer"], MUTUAL, fifth, b"1 ye")?);
    Ok(())
}

#[test]
fn the_second_write_is_of_the_second_answer(rt: HostRuntime) -> Result<(), Fail> {
    let alloc = rt.alloc();
    let second = sink_of(alloc, WHOLE, &[2])?;
    assert!(rt; stops(alloc, &["answer"], THRICE, second, YES)?);
    let source = source_of(alloc, MUTUAL, WHOLE, &[])?;
    let second = sink_of(alloc, WHOLE, &[2])?;
    assert!(rt; ends(alloc, &["answer"], source, second, Status::Done, YES)?);
    Ok(())
}

#[test]
fn a_failed_write_leaves_a_front_of_a_refusal_or_a_verdict(rt: HostRuntime) -> Result<(), Fail> {
    let alloc = rt.alloc();
    let third = sink_of(alloc, 4, &[3])?;
    assert!(rt; stops(alloc, &["answer"], b"vars X, X\n", third, b"refused ")?);
    let second = sink_of(alloc, WHOLE, &[2])?;
    assert!(rt; stops(alloc, &["check"], b"x\n\n", second, b"1 invalid json\n")?);
    Ok(())
}

#[test]
fn a_failed_write_leaves_a_front_of_the_usage_line(rt: HostRuntime) -> Result<(), Fail> {
    let alloc = rt.alloc();
    let second = sink_of(alloc, 3, &[2])?;
    assert!(rt; stops(alloc, &["prove"], MUTUAL, second, b"usa")?);
    let first = sink_of(alloc, WHOLE, &[1])?;
    assert!(rt; stops(alloc, &[], MUTUAL, first, b"")?);
    Ok(())
}

/// Whether a sure sink with the limit `limit` keeps `kept` of an answer, and tells by `more` whether there was more.
fn keeps(alloc: Global, limit: usize, kept: &[u8], more: bool) -> Result<bool, AllocError> {
    let mut source = SureSource::new(Vec::from_slice(alloc, MUTUAL)?);
    let mut sink = SureSink::new(Vec::with_capacity(alloc, limit)?, limit);
    let status = itip(alloc, &["answer"], &mut source, &mut sink, Vec::new(alloc));
    Ok(status == Status::Done && sink.bytes() == kept && sink.has_more() == more)
}

#[test]
fn a_sure_sink_keeps_a_prefix_of_the_output(rt: HostRuntime) -> Result<(), Fail> {
    let alloc = rt.alloc();
    assert!(rt; keeps(alloc, 19, YES, false)?);
    assert!(rt; keeps(alloc, 5, b"1 yes", true)?);
    Ok(())
}
