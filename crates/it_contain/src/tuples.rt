//! The proposers of all tuples of sets, which come by their number.
ghost use Rattle.std.specs.Prelude.{◌≡◌, ◌<◌, ◌≤◌, ◌^◌, ◌++◌, ◌∷◌, ℕ, List, [], length, get_or, take, drop};
ghost use Rattle.it_contain.specs.Digits.{digits, tuple_at, AreBelow, IsShapeWithin};
ghost use Rattle.it_contain.specs.Shapes.{candidate_of, most_shape_variables, tuple_candidates};

use crate::proposer::Proposer;
use crate::types::Shape;
use it_region::Candidate;
use it_space::VarSet;
use std::marker::PhantomData;

/// A list of the sets that each part of a candidate may be.
pub trait PartSets {
    /// The list, for a number of variables.
    ghost sets: { ℕ → List ℕ };

    /// The number of sets in the list.
    fn count(variables: u8) -> u64
        requires { variables ≤ most_shape_variables }
        ensures value { result ≡ length (sets variables) }
        ensures some { 0 < result }
        ensures few { result ≤ 2 ^ most_shape_variables }
        ensures empty_first { get_or (sets variables) 0 0 ≡ 0 };

    /// Set number `number` of the list, counted from 0.
    fn set_at(variables: u8, number: u64) -> VarSet
        requires few { variables ≤ most_shape_variables }
        requires within { number < length (sets variables) }
        ensures { result ≡ get_or (sets variables) number 0 };
}

/// The last `parts` digits of `number` in base `base`, the last one at the end, and zeros after them.
fn last_digits(base: u64, parts: u8, number: u64) -> [u64; 4]
    requires some { 0 < base }
    requires parts { parts ≤ 4 }
    ensures value { result ≡ take 4 (digits base parts number ++ (0 ∷ 0 ∷ 0 ∷ 0 ∷ [])) }
    ensures small { AreBelow base result }
{
    let last = number % base;
    match parts {
        0 => [0, 0, 0, 0],
        1 => [last, 0, 0, 0],
        2 => [number / base % base, last, 0, 0],
        3 => [number / base / base % base, number / base % base, last, 0],
        _ => [
            number / base / base / base % base,
            number / base / base % base,
            number / base % base,
            last,
        ],
    }
}

/// Candidate number `number` of a shape, counted from 0.
fn candidate_at<S: PartSets>(shape: Shape, number: u64) -> Candidate
    requires { IsShapeWithin shape }
    ensures { result ≡ candidate_of shape.parts (tuple_at (S.sets shape.variables) shape.parts number) }
{
    let digits = last_digits(S::count(shape.variables), shape.parts, number);
    Candidate {
        count: shape.parts,
        parts: [
            S::set_at(shape.variables, digits[0]),
            S::set_at(shape.variables, digits[1]),
            S::set_at(shape.variables, digits[2]),
            S::set_at(shape.variables, digits[3]),
        ],
    }
}

/// Proposes all tuples of sets out of a list in lexicographic order: the last part changes fastest. It learns nothing.
#[derive(Drop)]
pub struct Tuples<S> {
    shape: Shape,
    /// The number of the next candidate.
    number: u64,
    sets: PhantomData<S>,
    ghost within: { IsShapeWithin shape },
}

impl<S: PartSets> Tuples<S> {
    /// A proposer with no candidate to come until it is begun.
    #[tactic(auto, using(crate::proofs::CandidateLemmas::none_without_parts))]
    pub(crate) fn with_none_to_come() -> Tuples<S>
        ensures { ⟦<Tuples<S> as Proposer>⟧.pending result ≡ [] }
    {
        Tuples {
            shape: Shape {
                variables: 0,
                parts: 0,
            },
            number: 1,
            sets: PhantomData,
        }
    }
}

impl<S: PartSets> Proposer for Tuples<S> {
    ghost pending = { λ s. drop s.number (tuple_candidates S.sets s.shape) };

    ghost plan = { λ s shape proved. tuple_candidates S.sets shape };

    fn begin(&mut self, shape: Shape) {
        self.shape = shape;
        self.number = 0;
    }

    fn next(&mut self) -> Option<Candidate> {
        if self.number >= S::count(self.shape.variables).pow(self.shape.parts as u32) {
            return None;
        }
        let candidate = candidate_at::<S>(self.shape, self.number);
        self.number += 1;
        Some(candidate)
    }

    fn learn(&mut self, _candidate: &Candidate, _proved: bool) {}
}
