//! The shape of a search, and its end.
use it_region::Candidate;
use it_space::Certificate;

/// The number of variables of the first region, and the number of auxiliaries of the second, each of which needs a set of them.
#[derive(Clone, Copy, Debug, PartialEq, Eq)]
pub struct Shape {
    pub variables: u8,
    pub parts: u8,
}

/// The end of a search.
#[derive(Debug, Drop)]
pub enum Contained {
    /// The first candidate of the plan that is proved, with a certificate for each obligation in order.
    Found(Candidate, Vec<Certificate>),
    /// `tried` candidates were tried, and none is proved.
    Open { tried: u32 },
}
