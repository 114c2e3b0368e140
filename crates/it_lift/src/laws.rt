//! Theorems about the definitions, each as the contract of a function.
ghost use Rattle.it_lift.specs.Lifts.{LiftAddsUp};
ghost use Rattle.it_lift.specs.OfProblems.{ReadingGivesDependences};
ghost use Rattle.it_lift.specs.Fits.{WeightSumsFitAsEnd};

/// Weights that add up over closed sets add up over all sets once they are lifted.
pub fn lift_adds_up()
    ensures { LiftAddsUp }
{}

/// A weight is within the limit throughout a lift exactly if it is at its end.
pub fn weight_sums_fit_as_end()
    ensures { WeightSumsFitAsEnd }
{}

/// The dependences that are read from a problem are as a lift requires them.
pub fn reading_gives_dependences()
    ensures { ReadingGivesDependences }
{}
