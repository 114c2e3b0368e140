//! The program: hands the words, the standard input, the standard output and its boxes to the top call.
#![tactic(auto)]

use it_cli::{Status, itip};
use it_contain::{Proposer, Recent, Singles, Subsets};
use it_outside::{Sink, Source, StdSink, StdSource};
use std::alloc::{AllocError, Global};
use std::process::ExitCode;
use std::{env, io};

/// The words have no reading as text.
const UNREADABLE_WORDS: u8 = 7;

fn main(rt: HostRuntime) -> ExitCode {
    let alloc = rt.alloc();
    let arguments = match env::args(&rt) {
        Ok(arguments) => arguments,
        Err(error) if error.kind() == io::ErrorKind::OutOfMemory => {
            return ExitCode::from(Status::Memory.code());
        }
        Err(_) => return ExitCode::from(UNREADABLE_WORDS),
    };
    let Ok(words) = arguments.skip(1).collect::<Vec<String>>(alloc) else {
        return ExitCode::from(Status::Memory.code());
    };
    let Ok(texts) = words
        .iter()
        .map(|word| word.as_str())
        .collect::<Vec<&str>>(alloc)
    else {
        return ExitCode::from(Status::Memory.code());
    };
    let mut source = StdSource::new(rt.stdin());
    let mut sink = StdSink::new(rt.stdout());
    match call(alloc, texts.as_slice(), &mut source, &mut sink) {
        Ok(status) => ExitCode::from(status.code()),
        Err(_) => ExitCode::from(Status::Memory.code()),
    }
}

/// The top call, by boxes that try first what was proved last, then single variables, then all sets.
fn call<S: Source, K: Sink>(
    alloc: Global,
    words: &[&str],
    source: &mut S,
    sink: &mut K,
) -> Result<Status, AllocError> {
    let mut proposers: Vec<Box<dyn Proposer>> = Vec::new(alloc);
    proposers.push(Box::new(alloc, Recent::new())?)?;
    proposers.push(Box::new(alloc, Singles::new())?)?;
    proposers.push(Box::new(alloc, Subsets::new())?)?;
    Ok(itip(alloc, words, source, sink, proposers))
}
