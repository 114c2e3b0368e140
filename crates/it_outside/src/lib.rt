//! Where bytes come from and go to: sources and sinks, each with a count of its failed calls.
#![tactic(auto)]

mod ends;
pub mod laws;
mod memory;
mod standard;
mod streams;
mod sure;
mod whole;

pub use ends::{Failed, Sink, Source};
pub use memory::{MemorySink, MemorySource};
pub use standard::{StdSink, StdSource};
pub use streams::{Reader, Writer};
pub use sure::{SureSink, SureSource};
pub use whole::{InFault, OutFault, read_all, write_all};
