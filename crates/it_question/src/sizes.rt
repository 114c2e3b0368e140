//! How large the questions of a file may be.
ghost use Rattle.std.specs.Prelude.{◌≡◌, ◌≤◌};
ghost use Rattle.it_space.specs.Spaces.{most_variables};
ghost use Rattle.it_question.specs.QuestionLimits.{names_within, wide};

use crate::regions::MOST_NAMES;

/// The most variables of a space.
const MOST_VARIABLES: u8 = 16;

/// How large the questions of a file may be: how many variables they may name, and whether their tables may have any size. A
/// containment has at most ten names and a table that isn't too large in any file.
#[derive(Clone, Copy)]
pub struct FileLimits {
    pub variables: u8,
    pub large_tables: bool,
}

impl FileLimits {
    /// The limits where nothing else is said: ten names, and no table that is too large.
    pub const USUAL: FileLimits = FileLimits {
        variables: MOST_NAMES as u8,
        large_tables: false,
    };

    /// The limits that allow the most: as many names as a space has variables, with tables of any size.
    pub const WIDEST: FileLimits = FileLimits {
        variables: MOST_VARIABLES,
        large_tables: true,
    };

    /// The limits of files whose questions may name up to `variables` variables, with tables of any size.
    pub fn wide(variables: u8) -> FileLimits
        ensures { result ≡ wide variables }
    {
        FileLimits {
            variables,
            large_tables: true,
        }
    }

    /// The most variables that a question may name: no more than a space has.
    pub fn most_names(self) -> usize
        ensures most { result ≡ names_within self }
        ensures few { result ≤ most_variables }
    {
        usize::from(self.variables.min(MOST_VARIABLES))
    }
}
