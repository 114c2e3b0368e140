//! The verdicts of the checker.

/// The first fault of a certificate or a counterexample, or that it is valid.
#[derive(Clone, Copy, Debug, PartialEq, Eq)]
pub enum Verdict {
    Valid,
    /// The scale is below 1.
    BadScale {
        scale: i128,
    },
    /// No generator has this number.
    UnknownGenerator {
        index: u32,
    },
    /// The weight of this generator is negative, and the generator isn't an equation.
    NegativeWeight {
        index: u32,
    },
    /// A number at this place is more than 2^127 - 1 in absolute value.
    Width {
        place: u32,
    },
    /// At this coordinate the scale times the target's coefficient, `left`, differs from the sum of weights times coefficients, `right`.
    Mismatch {
        coordinate: u32,
        left: i128,
        right: i128,
    },
    /// The elemental inequality of this number has a negative value.
    BrokenElemental {
        index: u32,
        value: i128,
    },
    /// The constraint of this generator isn't met.
    UnmetConstraint {
        index: u32,
        value: i128,
    },
    /// The target's value is above -1.
    NotViolated {
        value: i128,
    },
}
