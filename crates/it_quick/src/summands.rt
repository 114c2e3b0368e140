//! What the weights of a run weigh.

use crate::programs::Column;
use crate::running::ColumnWeight;
use it_orbits::Submodular;

/// What a column stands for.
#[derive(Clone, Copy)]
pub enum Summand {
    /// An inequality over closed sets.
    Inequality(Submodular),
    /// A constraint, by its number among the generators of the problem; or its negation.
    Constraint { generator: u32, negated: bool },
}

/// The weight of what a column stands for: `number` over the denominator `denominator`.
#[derive(Clone, Copy)]
pub struct SummandWeight {
    pub summand: Summand,
    pub number: i64,
    pub denominator: u64,
}

impl SummandWeight {
    /// The weight of `summand` that its column has.
    pub fn new(summand: Summand, weight: &ColumnWeight) -> SummandWeight {
        SummandWeight {
            summand,
            number: weight.number,
            denominator: weight.denominator,
        }
    }
}

/// What the column of a constraint stands for.
pub fn of_constraint(column: &Column) -> Summand {
    Summand::Constraint {
        generator: column.generator,
        negated: column.negated,
    }
}
