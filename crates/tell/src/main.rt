//! The program: hands the words, the standard input and the standard output to the top call.
#![tactic(auto)]

use it_cli::Status;
use it_outside::{StdSink, StdSource};
use it_tell::tell;
use std::process::ExitCode;
use std::{env, io};

/// The words have no reading as text.
const UNREADABLE_WORDS: u8 = 7;

fn main(rt: HostRuntime) -> ExitCode {
    let alloc = rt.alloc();
    let arguments = match env::args(&rt) {
        Ok(arguments) => arguments,
        Err(error) if error.kind() == io::ErrorKind::OutOfMemory => {
            return ExitCode::from(Status::Memory.code());
        }
        Err(_) => return ExitCode::from(UNREADABLE_WORDS),
    };
    let Ok(words) = arguments.skip(1).collect::<Vec<String>>(alloc) else {
        return ExitCode::from(Status::Memory.code());
    };
    let Ok(texts) = words
        .iter()
        .map(|word| word.as_str())
        .collect::<Vec<&str>>(alloc)
    else {
        return ExitCode::from(Status::Memory.code());
    };
    let mut source = StdSource::new(rt.stdin());
    let mut sink = StdSink::new(rt.stdout());
    ExitCode::from(tell(alloc, texts.as_slice(), &mut source, &mut sink).code())
}
