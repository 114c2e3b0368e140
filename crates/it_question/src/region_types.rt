//! The own lines of a question and of a region.
ghost use Rattle.std.specs.Prelude.{◌≡◌, length, map};
ghost use Rattle.it_syntax.specs.Givens.{given_view};
ghost use Rattle.it_syntax.specs.Meaning.{relation_view};
ghost use Rattle.it_demand.specs.QuestionSpaces.{space_of};

use it_space::Space;
use it_syntax::Names;
use it_syntax::types::{Given, Relation};
use std::marker::Model;

/// The constraints of `given` lines and of `row` lines, in order.
pub struct OwnLines {
    pub givens: Vec<Given>,
    pub rows: Vec<Relation>,
}

impl Model for OwnLines {
    ghost use Rattle.std.specs.Prelude.{map};
    ghost use Rattle.it_syntax.specs.Givens.{given_view};
    ghost use Rattle.it_syntax.specs.Meaning.{relation_view};
    ghost use Rattle.it_question.specs.OwnLines.{OwnLinesView};

    ghost Value = { OwnLinesView };

    ghost view = { λ own. record { givens = map given_view own.givens.items; rows = map relation_view own.rows.items } };
}

impl OwnLines {
    /// The constraints of the `given` lines.
    pub fn givens(&self) -> &[Given]
        ensures value { map given_view result.now ≡ self.now.givens }
        ensures count { length result.now ≡ length self.now.givens }
    {
        self.givens.as_slice()
    }

    /// The constraints of the `row` lines.
    pub fn rows(&self) -> &[Relation]
        ensures value { map relation_view result.now ≡ self.now.rows }
        ensures count { length result.now ≡ length self.now.rows }
    {
        self.rows.as_slice()
    }
}

impl Drop for OwnLines {
    fn drop(self) {
        let OwnLines { givens: _, rows: _ } = self;
    }
}

/// A region of a containment question: the question's names followed by the region's auxiliary variables, how many these
/// are, and the region's own lines.
pub struct Region {
    pub names: Names,
    pub auxiliaries: u8,
    pub lines: OwnLines,
}

impl Model for Region {
    ghost use Rattle.it_question.specs.OwnLines.{RegionView};

    ghost Value = { RegionView };

    ghost view = { λ r. record { names = r.names; auxiliaries = r.auxiliaries; lines = r.lines } };
}

impl Region {
    /// The question's names followed by the region's auxiliary variables.
    pub fn names(&self) -> &Names
        ensures { result.now ≡ self.now.names }
    {
        &self.names
    }

    /// The numbers of variables and of rates.
    pub fn space(&self) -> Space
        ensures counts { result ≡ space_of self.now.names }
    {
        self.names.space()
    }

    /// The number of the auxiliary variables.
    pub fn auxiliaries(&self) -> u8
        ensures { result ≡ self.now.auxiliaries }
    {
        self.auxiliaries
    }

    /// The region's own lines.
    pub fn lines(&self) -> &OwnLines
        ensures { result.now ≡ self.now.lines }
    {
        &self.lines
    }
}

impl Drop for Region {
    fn drop(self) {
        let Region {
            names: _,
            auxiliaries: _,
            lines: _,
        } = self;
    }
}
