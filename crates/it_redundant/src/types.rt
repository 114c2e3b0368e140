//! The results of reduction and of reduced elimination.
use it_space::{Cause, Certificate, Point, Row};

/// Why a row is kept.
#[derive(Debug, Drop)]
pub enum Need {
    /// A polymatroid and rates that meet the givens and all other rows that are kept, at which the row is -1 or less.
    Needed(Point),
    /// The run about the row has no end within its bounds, and why.
    Unsettled(Cause),
}

/// The rows that are kept, with their needs, and the rows that were dropped, each with a certificate under the givens and the other rows
/// in the list at that time; both in the order of the list.
#[derive(Debug, Drop)]
pub struct Reduced {
    pub kept: Vec<(Row, Need)>,
    pub dropped: Vec<(Row, Certificate)>,
}

/// The result of reduced elimination: the reduction after the last rate, or a rate after which there are too many rows, or at which a
/// number of a row would pass the limit.
#[derive(Debug, Drop)]
pub enum Projected {
    Region(Reduced),
    Rows { rate: u8 },
    Wide { rate: u8 },
}
