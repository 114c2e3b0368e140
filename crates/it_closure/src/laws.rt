//! Theorems about the definitions, each as the contract of a function.
ghost use Rattle.it_closure.specs.Closures.{ClosureIsLeast};
ghost use Rattle.it_closure.specs.Collapse.{ClosuresKeep, CollapseKeeps, SpreadOutHolds};
ghost use Rattle.it_closure.specs.Coordinates.{CoordinatesServe};
ghost use Rattle.it_closure.specs.ReadLaws.{ReadsExactly};

/// The closure of a set is the least closed set that contains it.
pub fn closure_is_least()
    ensures { ClosureIsLeast }
{}

/// A polymatroid that meets the dependences has one value at a set and at its closure.
pub fn closures_keep()
    ensures { ClosuresKeep }
{}

/// A row over closed sets has the row's value at each polymatroid that meets the dependences.
pub fn collapse_keeps()
    ensures { CollapseKeeps }
{}

/// A map that meets the elemental inequalities over closed sets gives a polymatroid over all sets, which meets the dependences.
pub fn spread_out_holds()
    ensures { SpreadOutHolds }
{}

/// A constraint is read as a dependence exactly if it is one.
pub fn reads_exactly()
    ensures { ReadsExactly }
{}

/// The coordinates over closed sets ascend, and include all places but 0.
pub fn coordinates_serve()
    ensures { CoordinatesServe }
{}
