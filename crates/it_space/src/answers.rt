//! Answers to questions, with their certificates, marks and causes.
ghost use Rattle.std.specs.Prelude.{◌≡◌, IfOk};
ghost use Rattle.it_space.specs.Answers.{certificate_view, is_nonzero_weight, mark_word};

use crate::points::Point;
use crate::rows::Row;
use crate::sets::VarSet;
use std::alloc::{AllocError, Global};

/// Weights of generators over one positive scale, each weight after its generator's number.
#[derive(Debug)]
pub struct Certificate {
    pub scale: i128,
    pub weights: Vec<(u32, i128)>,
}

impl Drop for Certificate {
    fn drop(self) {
        let Certificate {
            scale: _,
            weights: _,
        } = self;
    }
}

impl Certificate {
    /// A copy of the certificate.
    pub fn copy(&self, alloc: Global) -> Result<Certificate, AllocError>
        ensures { IfOk result (λ c. certificate_view c ≡ certificate_view self.now) }
    {
        let mut weights = Vec::new(alloc);
        weights.extend_from_slice(self.weights.as_slice())?;
        Ok(Certificate {
            scale: self.scale,
            weights,
        })
    }
}

/// Whether a generator's weight is other than 0.
pub fn is_nonzero_weight(weight: &(u32, i128)) -> bool
    ensures { result ≡ is_nonzero_weight weight.now }
{
    weight.1 != 0
}

/// The answer to a question.
#[derive(Debug)]
pub enum Answer {
    /// A proof of each target of the question.
    Yes(Vec<Certificate>),
    /// A point that violates a target: the first one, or the second of an equality where `back` is set.
    No {
        back: bool,
        point: Point,
    },
    /// Neither is known, and why.
    Undecided(Cause),
    /// The rows of a region, each with its mark.
    Region(Vec<(Mark, Row)>),
    /// A set of the first region's variables for each auxiliary variable of the second region, and a proof of each obligation.
    Contained {
        parts: Vec<VarSet>,
        proofs: Vec<Certificate>,
    },
    /// `tried` candidates were tried, and none was proved.
    Open {
        tried: u32,
    },
}

impl Drop for Answer {
    fn drop(self) {
        match self {
            Answer::Yes(_) => {}
            Answer::No { back: _, point: _ } => {}
            Answer::Undecided(_) => {}
            Answer::Region(_) => {}
            Answer::Contained {
                parts: _,
                proofs: _,
            } => {}
            Answer::Open { tried: _ } => {}
        }
    }
}

/// What is known of a region's row: nothing; that it doesn't follow from the other rows; or that this stayed undecided.
#[derive(Clone, Copy, Debug, PartialEq, Eq)]
pub enum Mark {
    Plain,
    Needed,
    Unsettled,
}

impl Mark {
    /// The mark's word in reports.
    pub fn word(self) -> &'static str
        ensures { result.now ≡ mark_word self }
    {
        match self {
            Mark::Plain => "plain",
            Mark::Needed => "needed",
            Mark::Unsettled => "unsettled",
        }
    }
}

/// Why a question stays undecided.
#[derive(Clone, Copy, Debug, PartialEq, Eq)]
pub enum Cause {
    /// The run made all steps of its budget, the number given here, without reaching its end.
    Pivots(u32),
    /// A number of this step passes the limit.
    Width(u32),
    /// A number of the scaled answer passes the limit.
    Scale,
    /// The elimination of this rate gives more rows than the budget.
    Rows(u8),
    /// A number of a row that is formed at the elimination of this rate passes the limit.
    WideRate(u8),
}
