//! What several tests of the language share.

/// The most bytes that are read as a file or as a line.
pub const LONGEST_FILE: usize = 1_048_577;
