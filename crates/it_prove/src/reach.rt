//! Whether the defined run about a problem is in reach, and the effort where it isn't.
ghost use Rattle.std.specs.Prelude.{◌≡◌, IfOk};
ghost use Rattle.it_prove.specs.Reach.{effort_under, is_in_reach};

use crate::types::{Effort, Runs};
use it_closure::{MOST_ENTRIES, MOST_VARIABLES_IN_REACH, size};
use it_problems::Problem;
use std::alloc::{AllocError, Global};

/// Whether the defined run about targets under `problem` is in reach. Where the problem has more variables, its table isn't counted.
#[tactic(auto, unfolding(crate::specs::Reach::is_in_reach))]
fn is_in_reach(alloc: Global, problem: &Problem) -> Result<bool, AllocError>
    ensures { IfOk result (λ b. b ≡ is_in_reach problem.now) }
{
    if problem.space().variables > MOST_VARIABLES_IN_REACH {
        return Ok(false);
    }
    let entries = size(alloc, problem)?;
    Ok(entries <= MOST_ENTRIES)
}

impl Effort {
    /// This effort for targets under `problem`: a quick run alone where the defined run is out of reach.
    #[tactic(auto, unfolding(crate::specs::Reach::effort_under))]
    pub fn under(self, alloc: Global, problem: &Problem) -> Result<Effort, AllocError>
        ensures { IfOk result (λ e. e ≡ effort_under problem.now self) }
    {
        if is_in_reach(alloc, problem)? {
            return Ok(self);
        }
        Ok(Effort {
            runs: Runs::QuickAlone,
            pivots: self.pivots,
        })
    }
}
