//! What a question file asks.
ghost use Rattle.std.specs.Prelude.{◌≡◌, map};
ghost use Rattle.it_demand.specs.QuestionSpaces.{space_of};
ghost use Rattle.it_question.specs.Limits.{IsQuestion};
ghost use Rattle.it_question.specs.LineTexts.{text_of_lines};
ghost use Rattle.it_question.specs.Questions.{verb_view};

pub use crate::region_types::{OwnLines, Region};
use it_space::{Space, VarSet};
use it_syntax::Names;
use it_syntax::types::{Code, Relation};
use std::alloc::AllocError;
use std::marker::Model;
use thiserror::Error;

/// What a question wants: that a relation is proved; that rates are eliminated, by number and in the order in which they
/// were listed; that the first region lies in the second. Each of `tries` is a substitution to be tried first: a set
/// of the first region's variables for each auxiliary variable of the second region, in order, and the empty set in the
/// places after those.
pub enum Verb {
    Prove(Relation),
    Eliminate(Vec<u8>),
    Contain {
        first: Region,
        second: Region,
        tries: Vec<[VarSet; 4]>,
    },
}

impl Drop for Verb {
    fn drop(self) {
        match self {
            Verb::Prove(_) => {}
            Verb::Eliminate(_) => {}
            Verb::Contain {
                first: _,
                second: _,
                tries: _,
            } => {}
        }
    }
}

/// A question. `source` holds its lines from `vars` to the verb as they were read, without comment and with tabs as spaces;
/// lines without tokens are left out. `lines` are those before the verb or the first region.
pub struct Question {
    pub(crate) names: Names,
    pub(crate) source: Vec<Vec<u8>>,
    pub(crate) lines: OwnLines,
    pub(crate) verb: Verb,
}

impl Model for Question {
    ghost use Rattle.std.specs.Prelude.{map};
    ghost use Rattle.it_question.specs.Limits.{IsQuestion};
    ghost use Rattle.it_question.specs.LineTexts.{text_of_lines};
    ghost use Rattle.it_question.specs.Questions.{QuestionView, verb_view};

    ghost Value = { QuestionView };

    ghost view = { λ q. record { body = record { names = q.names; lines = q.lines; verb = verb_view q.verb }; text = text_of_lines (map (λ v. v.items) q.source.items) } };

    ghost invariant = { λ q. IsQuestion (record { names = q.names; lines = q.lines; verb = verb_view q.verb }) };
}

impl Question {
    /// What is true of every question.
    pub fn facts(&self)
        ensures { IsQuestion self.now.body }
    {
        let _ = &self.names;
    }

    /// The names of the variables and rates.
    pub fn names(&self) -> &Names
        ensures value { result.now ≡ self.now.body.names }
        ensures question { IsQuestion self.now.body }
    {
        &self.names
    }

    /// The numbers of variables and of rates.
    pub fn space(&self) -> Space
        ensures counts { result ≡ space_of self.now.body.names }
        ensures question { IsQuestion self.now.body }
    {
        self.names.space()
    }

    /// The constraints before the verb or the first region.
    pub fn lines(&self) -> &OwnLines
        ensures value { result.now ≡ self.now.body.lines }
        ensures question { IsQuestion self.now.body }
    {
        &self.lines
    }

    /// What the question wants.
    pub fn verb(&self) -> &Verb
        ensures value { verb_view result.now ≡ self.now.body.verb }
        ensures question { IsQuestion self.now.body }
    {
        &self.verb
    }

    /// The lines from `vars` to the verb as they were read, without comment and with tabs as spaces; lines without tokens are
    /// left out.
    pub fn source(&self) -> &[Vec<u8>]
        ensures { text_of_lines (map (λ v. v.items) result.now) ≡ self.now.text }
    {
        self.source.as_slice()
    }
}

impl Drop for Question {
    fn drop(self) {
        let Question {
            names: _,
            source: _,
            lines: _,
            verb: _,
        } = self;
    }
}

/// Why a file has no reading: memory ran out, or its first fault, at a line and a column that are counted from 1.
#[derive(Clone, Copy, Debug, PartialEq, Eq, Error)]
pub enum FileFault {
    #[error("there is too little memory to read the file")]
    Memory,
    #[error("the file is no question file")]
    Fault { line: u32, column: u32, code: Code },
}

impl From<AllocError> for FileFault {
    ghost use Rattle.std.specs.Prelude.{◌≡◌};
    ghost use Rattle.it_question.specs.declared.types.FileFault.TheVariants.{Memory};

    ghost from_gives = { λ _ e. e ≡ Memory };

    fn from(_error: AllocError) -> FileFault {
        FileFault::Memory
    }
}
