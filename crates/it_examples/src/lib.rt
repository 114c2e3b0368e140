//! Tests on the top call over sources and sinks in memory.
#![tactic(auto)]

#[cfg(test)]
mod tests;
