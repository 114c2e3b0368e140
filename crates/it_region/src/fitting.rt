//! Candidates that fit a pair.
ghost use Rattle.std.specs.Prelude.{◌↔◌, ◌<◌, ◌≤◌, ◌^◌, nat_lt, take, All, IsTrue, ◌≡◌};
ghost use Rattle.std.specs.List.{list_all};
ghost use Rattle.it_region.specs.Pairs.{IsPair, FitsPair};
ghost use Rattle.it_space.specs.Spaces.{most_variables};

use crate::types::{Candidate, Pair};
use it_space::VarSet;

/// Whether the candidate has as many parts as the pair, each a set of the first region's variables.
pub fn fits(pair: &Pair, candidate: &Candidate) -> bool
    requires { IsPair pair.now }
    ensures { IsTrue result ↔ FitsPair pair.now candidate.now }
{
    if candidate.count == pair.parts {
        are_within(candidate, pair.first.space.variables)
    } else {
        false
    }
}

/// Whether the first `count` parts of `candidate` are sets of `variables` variables.
fn are_within(candidate: &Candidate, variables: u8) -> bool
    requires few { candidate.now.count ≤ 4 }
    requires variables { variables ≤ most_variables }
    ensures { IsTrue result ↔ All (λ s. s < 2 ^ variables) (take candidate.now.count candidate.now.parts) }
{
    are_below(&candidate.parts, candidate.count as usize, 1 << variables)
}

/// Whether each of the first `count` parts is less than `limit`.
pub fn are_below(parts: &[VarSet], count: usize, limit: u64) -> bool
    ensures { result ≡ list_all (λ s. nat_lt s limit) (take count parts.now) }
{
    parts
        .iter()
        .take(count)
        .all(|s| (s.number() as u64) < limit)
}
