//! The costs of columns, all different in the main.

/// The cost of the column of a constraint, and the number of which the costs of inequalities are multiples, both up to a few bits.
const CONSTRAINT_COST: i64 = 256;

const INEQUALITY_COST: i64 = 1024;

/// Six bits by `number`, so that few columns have equal costs.
fn mixed(number: usize) -> i64 {
    let bits = (number as u64).wrapping_mul(0x9E37_79B9_7F4A_7C15) >> 58;
    i64::from(bits as u8)
}

/// The cost of the inequality that is column `column`, whose given set is at the place `given`. The later that place, the more the
/// column costs: so costs differ much.
pub fn inequality_cost(given: u16, column: usize) -> i64 {
    let cost = INEQUALITY_COST.wrapping_mul(i64::from(given.max(1)));
    cost.wrapping_add(mixed(column))
}

/// The cost of the constraint that is column `column`.
pub fn constraint_cost(column: usize) -> i64 {
    CONSTRAINT_COST.wrapping_add(mixed(column))
}
