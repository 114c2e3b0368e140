//! Readers of parts of a line, which take from the front what they read. At a fault what is left begins with the piece that
//! the fault is at.

pub use crate::givens::given_to_end;
pub use crate::lists::list;
pub use crate::relations::{MOST_TERMS, relation_to_end};
pub use crate::sums::sum;
pub use crate::terminals::{line_end, symbol, takes, word};
