//! Laws of bounds, each as the contract of a function.
ghost use Rattle.it_outer.specs.Theorems.{BoundsAreProjection, EndsAreRight, OneSearchEnd};

/// Bounds are the projection.
pub fn bounds_are_projection()
    ensures { BoundsAreProjection }
{}

/// The end of a search is right, and where the defined run alone is made it has one end.
pub fn searches_are_determined()
    ensures right { EndsAreRight }
    ensures one { OneSearchEnd }
{}
