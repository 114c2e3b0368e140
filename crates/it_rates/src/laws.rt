//! The theorem on bounds in rates, as the contract of a function.
ghost use Rattle.it_rates.specs.Theorems.{HullIsExact};

/// Rows that hold wherever all lines are true, and are the hull of rays at which they are, are exact.
pub fn hull_is_exact()
    ensures { HullIsExact }
{}
