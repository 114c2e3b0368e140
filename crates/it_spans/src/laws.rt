//! Laws of the hulls that a judge makes, each as the contract of a function.
ghost use Rattle.it_spans.specs.Theorems.{OneSpanEnd, SpansAreRight, ValidHull};

/// The rows that steps leave are the hull of their rays, and steps have one end.
pub fn spans_are_determined()
    ensures right { SpansAreRight }
    ensures one { OneSpanEnd }
{}

/// The verdict on rows is `Valid` exactly if the steps leave these rows, in this order.
pub fn valid_hull()
    ensures { ValidHull }
{}
