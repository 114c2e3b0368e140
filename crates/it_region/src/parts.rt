//! Candidates by their parts.
ghost use Rattle.std.specs.Prelude.{◌≡◌, ◌≤◌, [], ◌∷◌, ◌++◌, length, take, get_or};

use crate::types::Candidate;
use it_space::VarSet;

/// Set number `place` of `parts`, counted from 0; the empty set after the last one.
fn part_at(parts: &[VarSet], place: usize) -> VarSet
    ensures { result ≡ get_or parts.now place 0 }
{
    if place < parts.len() {
        parts[place]
    } else {
        VarSet::empty()
    }
}

/// The candidate with these parts, in order; the places after them hold the empty set.
#[tactic(auto, using(crate::proofs::TextLemmas::at_places, crate::proofs::TextLemmas::all_places))]
pub fn candidate(parts: &[VarSet]) -> Candidate
    requires { length parts.now ≤ 4 }
    ensures count { result.count ≡ length parts.now }
    ensures parts { take result.count result.parts ≡ parts.now }
    ensures places { result.parts ≡ take 4 (parts.now ++ (0 ∷ 0 ∷ 0 ∷ 0 ∷ [])) }
{
    Candidate {
        count: parts.len() as u8,
        parts: [
            part_at(parts, 0),
            part_at(parts, 1),
            part_at(parts, 2),
            part_at(parts, 3),
        ],
    }
}
