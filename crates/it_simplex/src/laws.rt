//! Theorems about runs, each as the contract of a function.
ghost use Rattle.it_run.specs.FirstEnds.{EndsAreFirst};
ghost use Rattle.it_run.specs.Meetings.{MeetsNoBasisTwice, RunsEnd};
ghost use Rattle.it_simplex.specs.Answers.{EndsOnce};

/// A run has one end, so the answer is determined.
pub fn ends_once()
    ensures { EndsOnce }
{}

/// Bland's rule meets no set of basic columns twice (Bland 1977).
pub fn meets_no_basis_twice()
    ensures { MeetsNoBasisTwice }
{}

/// Each run ends.
pub fn runs_end()
    ensures { RunsEnd }
{}

/// A run ends at the first number of steps at which one of its ends holds.
pub fn ends_at_the_first()
    ensures { EndsAreFirst }
{}
