//! The input of the judge of hulls, and its findings.
use it_check::Verdict;
use it_space::{Certificate, Point, Row, Space};

/// The setting in which hulls are made: the space, the rate at which multipliers of rays are, and the most rows that a further ray may
/// leave, before its drops.
#[derive(Clone, Copy, Debug, PartialEq, Eq)]
pub struct Frame {
    pub space: Space,
    pub spare: u8,
    pub rows: usize,
}

/// A row that is removed: its number in the list at that time, counted from 0, and a certificate that it follows from the others. The
/// certificate's generators are the elemental inequalities, an equation for each variable, which says that it is constant, and the
/// other rows in order.
#[derive(Debug, Drop)]
pub struct RowDrop {
    pub row: usize,
    pub proof: Certificate,
}

/// A further ray, and the rows that are removed after it, in turn.
#[derive(Debug, Drop)]
pub struct Step {
    pub ray: Point,
    pub drops: Vec<RowDrop>,
}

/// The first fault: at the ray of this number, and at the drop of this number after it, both counted from 0.
#[derive(Clone, Copy, Debug, PartialEq, Eq)]
pub enum Fault {
    /// The ray leaves more rows than are allowed.
    TooMany {
        ray: usize,
    },
    /// A row's value at the ray, or a number of the elimination, passes 2^127 - 1.
    TooWide {
        ray: usize,
    },
    /// The list has no row of the drop's number.
    NoRow {
        ray: usize,
        drop: usize,
    },
    /// The checker's verdict on the drop's certificate isn't `Valid`.
    Refused {
        ray: usize,
        drop: usize,
        verdict: Verdict,
    },
}

/// The result of steps: the rows of the hull of their rays, or the first fault.
#[derive(Debug, Drop)]
pub enum Spanned {
    Hull(Vec<Row>),
    Faulty(Fault),
}

/// The first fault of rows that are claimed to be the hull of rays, or that they are valid.
#[derive(Clone, Copy, Debug, PartialEq, Eq)]
pub enum HullVerdict {
    Valid,
    /// The steps have a fault, and so make no hull.
    Faulty(Fault),
    /// The hull has another row at this place, counted from 0, or one of the two lists ends there.
    OtherRow { place: usize },
}
