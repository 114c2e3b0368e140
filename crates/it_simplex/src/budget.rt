//! Budgets of steps.
ghost use Rattle.std.specs.Prelude.{◌≡◌, None, Some};

use std::marker::Model;

/// The most steps that a run may make, or no bound.
#[derive(Debug, Clone, Copy)]
pub struct Budget {
    steps: Option<u32>,
}

impl Model for Budget {
    ghost use Rattle.std.specs.Prelude.{ℕ, Option};

    ghost Value = { Option ℕ };

    ghost view = { λ b. b.steps };

    ghost inverse = { λ o. record { steps = o } };
}

impl Budget {
    /// A budget of `steps` steps.
    pub fn at_most(steps: u32) -> Budget
        ensures { result ≡ Some steps }
    {
        Budget { steps: Some(steps) }
    }

    /// No bound on the steps.
    pub fn none() -> Budget
        ensures { result ≡ None }
    {
        Budget { steps: None }
    }

    /// The most steps, if there is a bound.
    pub(crate) fn steps(self) -> Option<u32>
        ensures { self ≡ result }
    {
        self.steps
    }
}
