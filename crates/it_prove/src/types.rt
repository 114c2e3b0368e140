//! Proofs, and the effort for one.
ghost use Rattle.std.specs.Prelude.{◌≡◌};

use it_simplex::Budget;
use it_space::{Cause, Certificate, Point};

/// The outcome about a target, a row that should be at least 0.
#[derive(Debug, Drop)]
pub enum Proof {
    /// A certificate of the target (Farkas): weights of generators that add up to a positive multiple of it.
    Yes(Certificate),
    /// A polymatroid and rates that meet the problem, at which the target is -1 or less.
    No(Point),
    /// Neither is known, and why.
    Undecided(Cause),
}

/// Which runs are made about a target.
#[derive(Clone, Copy, Debug, PartialEq, Eq)]
pub enum Runs {
    /// The defined run.
    Defined,
    /// A quick run, whose proposal is the answer if the check finds it valid; else the defined run.
    QuickFirst,
    /// A quick run alone, since the defined run is out of reach: what it doesn't settle stays undecided.
    QuickAlone,
}

/// The effort to decide a target.
#[derive(Clone, Copy, Debug, PartialEq, Eq)]
pub struct Effort {
    pub runs: Runs,
    /// The most steps of the defined run; without it the run goes on to its end.
    pub pivots: Option<u32>,
}

/// The budget of a run: at most `pivots` steps, or no bound.
pub fn budget_of(pivots: Option<u32>) -> Budget
    ensures { result ≡ pivots }
{
    match pivots {
        Some(steps) => Budget::at_most(steps),
        None => Budget::none(),
    }
}
