//! Laws of hulls, each as the contract of a function.
ghost use Rattle.it_hull.specs.Theorems.{FirstIsHull, HullIsProjection, OneMoreRay, OneRayEnd, ProblemsAreCones, RatesMeet, ReducedIsHull};

/// No rays span exactly the points that are 0 at each kept coordinate.
pub fn first_is_hull()
    ensures { FirstIsHull }
{}

/// The step for a further ray gives the hull with that ray, and has one end.
pub fn one_more_ray()
    ensures hull { OneMoreRay }
    ensures end { OneRayEnd }
{}

/// Rows that hold at the same maps among those where sets are 0 are hulls of the same rays; and at these maps each problem about sets
/// alone is met.
pub fn reduced_is_hull()
    ensures hull { ReducedIsHull }
    ensures met { RatesMeet }
{}

/// The polymatroids and rates that meet a problem are a cone. Rows that hold there, and are the hull of rays that are
/// attained there, are its projection.
pub fn hull_is_projection()
    ensures cone { ProblemsAreCones }
    ensures projection { HullIsProjection }
{}
