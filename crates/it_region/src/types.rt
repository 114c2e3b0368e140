//! Pairs of regions, and substitutions for them.
use it_problems::{Constraint, Problem};
use it_space::{Space, VarSet};

/// A set of the first region's variables for each of the first `count` auxiliaries, in order of declaration.
#[derive(Clone, Copy, Debug, PartialEq, Eq)]
pub struct Candidate {
    pub count: u8,
    pub parts: [VarSet; 4],
}

/// The first region's problem with the question's own lines in it; the second region's space, whose variables are the
/// first `common` ones of the first region and after them its `parts` auxiliaries; and the second region's own
/// constraints, those of its `given` lines before those of its `row` lines.
#[derive(Debug)]
pub struct Pair {
    pub first: Problem,
    pub space: Space,
    pub common: u8,
    pub parts: u8,
    pub own: Vec<Constraint>,
}

impl Drop for Pair {
    fn drop(self) {
        let Pair {
            first: _,
            space: _,
            common: _,
            parts: _,
            own: _,
        } = self;
    }
}
