//! The settings that the words give.

/// The format of answers.
#[derive(Clone, Copy, Debug, PartialEq, Eq)]
pub enum Format {
    Text,
    Json,
    Proof,
    /// Reports in JSON, of a region with a certificate of each row from the question's lines, where each row has one.
    Derived,
}

/// How a target is decided.
#[derive(Clone, Copy, Debug, PartialEq, Eq)]
pub enum Run {
    /// By the defined run, that of the simplex method with Bland's rule.
    Bland,
    /// By a quick run first, whose proposal the check judges; if that doesn't settle the target, by the defined run.
    Quick,
}

/// The mode with its options, each as given or by default.
#[derive(Clone, Copy, Debug, PartialEq, Eq)]
pub enum Settings {
    /// Answer a question file.
    Answer {
        format: Format,
        run: Run,
        /// The most steps of the defined run, 1 to 1,000,000, or no bound.
        pivots: Option<u32>,
        /// The most rows of an elimination, 1 to 4,096.
        rows: u32,
        /// The most candidates of a containment, 1 to 4,096.
        tries: u32,
        /// The most names of a question, 10 to 16, with tables of any size; none where nothing was given.
        names: Option<u8>,
    },
    /// Judge a report.
    Check {
        /// The most names of a question, 10 to 16, with tables of any size; none where nothing was given.
        names: Option<u8>,
    },
    /// Count the answers to a generated file.
    Bench {
        /// The number that the file is generated from, 0 to 2,147,483,647.
        seed: u32,
        /// The number of its questions, 1 to 1,000.
        count: u32,
        /// How a target is decided.
        run: Run,
        /// The most steps of the defined run, 1 to 1,000,000, or no bound.
        pivots: Option<u32>,
        /// The most rows of an elimination, 1 to 4,096.
        rows: u32,
        /// The most candidates of a containment, 1 to 4,096.
        tries: u32,
    },
    /// Answer the questions of a file whose head asks for copies of variables.
    Copy {
        /// Whether a line of a report is written instead of lines of text.
        report: bool,
        /// How a target is decided.
        run: Run,
        /// The most steps of the defined run, 1 to 1,000,000, or no bound.
        pivots: Option<u32>,
        /// The most names of a question, 10 to 16, with tables of any size; none where nothing was given.
        names: Option<u8>,
    },
    /// Find the best factors between the sides of a file's relations.
    Best {
        /// Whether a line of a report is written instead of lines of text.
        report: bool,
        run: Run,
        /// The most steps of each of the three defined runs about a relation.
        pivots: Option<u32>,
        /// The most names of a question, 10 to 16, with tables of any size; none where nothing was given.
        names: Option<u8>,
    },
    /// Find the outer bounds in rates alone of a file's eliminations.
    Outer {
        /// Whether a line of a report is written instead of lines of text.
        report: bool,
        /// How a target is decided.
        run: Run,
        /// The most steps of the defined run, 1 to 1,000,000, or no bound.
        pivots: Option<u32>,
        /// The most rows after a further ray, 1 to 4,096.
        rows: u32,
        /// The most rays, 1 to 4,096.
        tries: u32,
        /// The most names of a question, 10 to 16, with tables of any size; none where nothing was given.
        names: Option<u8>,
    },
    /// Answer the question of a secret sharing file.
    Sharing {
        /// Whether a line of a report is written instead of lines of text.
        report: bool,
        /// How a target is decided, or where the file asks for a factor how the factor is found.
        run: Run,
        /// The most steps of each defined run, 1 to 1,000,000, or no bound.
        pivots: Option<u32>,
        /// The most names of a question, 10 to 16, with tables of any size; none where nothing was given.
        names: Option<u8>,
    },
}

/// Why there are no settings: the words have no reading, or allocation failed.
#[derive(Clone, Copy, Debug, PartialEq, Eq)]
pub enum WordsFault {
    Usage,
    Memory,
}
