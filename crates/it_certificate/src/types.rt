//! What a report says.
ghost use Rattle.std.specs.Prelude.{◌≡◌};

use it_codes::LinearCode;
use it_question::types::Question;
use it_ratio::types::Best;
use it_space::{Answer, Certificate, Row};
use it_spans::Step;
use std::marker::Model;

/// The texts of what a report line is about: a question, a question with copies, by the head that asks for them, or a sharing file.
#[derive(Clone, Copy)]
pub enum SourceText<'a> {
    Question(&'a [u8]),
    Copies { head: &'a [u8], question: &'a [u8] },
    Sharing(&'a [u8]),
}

/// What a report says of an outer bound, right or not: rows at the rates that stay, a certificate of each, in order, and the
/// steps that make the hull of its rays.
pub struct ReportedBounds {
    pub rows: Vec<Row>,
    pub proofs: Vec<Certificate>,
    pub steps: Vec<Step>,
}

// Written by hand, so that dropping bounds takes one call and not a step for each field.
impl Drop for ReportedBounds {
    fn drop(self) {
        let ReportedBounds {
            rows: _,
            proofs: _,
            steps: _,
        } = self;
    }
}

/// The linear code that a report claims for a point, and what one symbol counts in the point's values.
pub struct ReportedCode {
    pub(crate) code: LinearCode,
    pub(crate) times: u32,
}

impl Model for ReportedCode {
    ghost use Rattle.it_certificate.specs.CodeReading.{ReportedCodeView};

    ghost Value = { ReportedCodeView };

    ghost view = { λ c. record { code = c.code; times = c.times } };
}

impl ReportedCode {
    /// The code itself.
    pub fn code(&self) -> &LinearCode
        ensures { result.now ≡ self.now.code }
    {
        &self.code
    }

    /// What one symbol counts in the point's values.
    pub fn times(&self) -> u32
        ensures { result ≡ self.now.times }
    {
        self.times
    }
}

// Written by hand, so that dropping a code takes one call and not a step for each field.
impl Drop for ReportedCode {
    fn drop(self) {
        let ReportedCode { code: _, times: _ } = self;
    }
}

/// What a report says, right or not.
/// `Answered`: an answer to the question, of the shape that this wants.
/// `Coded`: a no, with the code claimed for its point.
/// `Derived`: a region, with a certificate for each of its rows.
/// `Factored`: what is found of the factors of the question's relation.
/// `Bounded`: an outer bound.
/// `Misfit`: that a question can't have what is asked for.
pub enum Reported {
    Answered {
        question: Question,
        answer: Answer,
    },
    Coded {
        question: Question,
        answer: Answer,
        code: ReportedCode,
    },
    Derived {
        question: Question,
        answer: Answer,
        origins: Vec<Certificate>,
    },
    Factored {
        question: Question,
        best: Best,
    },
    Bounded {
        question: Question,
        bounds: ReportedBounds,
    },
    Misfit,
}

// Written by hand, so that dropping a report takes one call and not a step for each field.
impl Drop for Reported {
    fn drop(self) {
        match self {
            Reported::Answered {
                question: _,
                answer: _,
            } => {}
            Reported::Coded {
                question: _,
                answer: _,
                code: _,
            } => {}
            Reported::Derived {
                question: _,
                answer: _,
                origins: _,
            } => {}
            Reported::Factored {
                question: _,
                best: _,
            } => {}
            Reported::Bounded {
                question: _,
                bounds: _,
            } => {}
            Reported::Misfit => {}
        }
    }
}
