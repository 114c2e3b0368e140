//! The sorts of names.

/// What a new name is to be.
#[derive(Clone, Copy)]
pub enum NameSort {
    /// A random variable, of which there are at most `MOST_NAMES`.
    Variable,
    /// A rate, of which there are at most 16.
    Rate,
}
