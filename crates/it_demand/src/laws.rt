//! What the definitions say, each theorem as the contract of a function.
ghost use Rattle.it_demand.specs.Theorems.{OneConstraintList, OneRow, OneRowList};

/// A form has one canonical row, forms have one list of rows, and demands one list of constraints.
pub fn rows_are_unique()
    ensures row { OneRow }
    ensures rows { OneRowList }
    ensures constraints { OneConstraintList }
{}
