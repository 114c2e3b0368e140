//! Denominators, and their least common multiple.
ghost use Rattle.std.specs.Prelude.{◌≡◌, ◌≤◌, ◌^◌, pos, IfOk, OkIff};
ghost use Rattle.it_number.specs.Limit.{IsWithin};
ghost use Rattle.it_number.specs.Gcd.{lcm};
ghost use Rattle.it_syntax.specs.Meaning.{relation_view, multiple_from, common_denominator};
ghost use Rattle.it_syntax.specs.Multiples.{multiple_with};
ghost use Rattle.it_forms.specs.Forms.{Take};
ghost use Rattle.it_forms.specs.FormReading.{read};
ghost use Rattle.it_syntax.specs.LineForms as forms;
ghost use Rattle.it_syntax.specs.Gives.{ParsesBy};

use crate::rest::{Piece, Rest, Stop};
use crate::types::{Code, Relation, Term};
use it_fraction::{Wide, lcm};

/// The limit of the least common multiple of a relation's denominators.
const MOST_MULTIPLE: u128 = 4294967296;

/// The least common multiple of `a` and `b`; the error is `Wide` if it is 2^127 or more.
fn common_multiple(a: u64, b: u64) -> Result<u128, Wide>
    requires a_some { 1 ≤ a }
    requires b_some { 1 ≤ b }
    ensures { OkIff result (IsWithin (pos (lcm a b))) (lcm a b) }
{
    let multiple = lcm(a as i128, b as i128)?;
    Ok(multiple as u128)
}

/// The least common multiple of `multiple` and `denominator`; None if `denominator` is 0 or the result would pass 2^32.
fn multiple_with(multiple: u64, denominator: u64) -> Option<u64>
    requires some { 1 ≤ multiple }
    ensures { result ≡ multiple_with multiple denominator }
{
    if denominator == 0 {
        return None;
    }
    match common_multiple(multiple, denominator) {
        Ok(both) => {
            if both <= MOST_MULTIPLE {
                Some(both as u64)
            } else {
                None
            }
        }
        Err(_) => None,
    }
}

/// Reads a denominator and gives it, with the least common multiple of `multiple` and it.
#[tactic(auto, using(crate::proofs::MultipleLemmas::multiple_found), unfolding(it_forms::specs::FormReading::read))]
pub fn denominator(multiple: u64, rest: &mut Rest<'_>) -> Result<(u64, u64), Stop>
    requires some { 1 ≤ multiple }
    ensures read { ParsesBy (λ x. x.0) result (Take (forms.denominator multiple)) rest.old rest.new }
    ensures multiple { IfOk result (λ x. (1 ≤ x.1) × (x.1 ≡ lcm multiple x.0)) }
{
    match rest.front() {
        (Piece::Number(denominator), after) => match multiple_with(multiple, denominator) {
            Some(both) => {
                *rest = after;
                Ok((denominator, both))
            }
            None => Err(Stop::Fault(Code::Number)),
        },
        _ => Err(rest.fault()),
    }
}

/// The least common multiple of the denominators of both sides of a relation.
pub fn common_denominator(relation: &Relation) -> u64
    requires some { 1 ≤ common_denominator (relation_view relation.now) }
    requires small { common_denominator (relation_view relation.now) ≤ 2 ^ 32 }
    ensures { result ≡ common_denominator (relation_view relation.now) }
{
    let left = multiple_from(1, relation.left.terms.as_slice());
    multiple_from(left, relation.right.terms.as_slice())
}

/// The least common multiple of `first` and the denominators of `terms`.
fn multiple_from(first: u64, terms: &[Term]) -> u64
    requires some { 1 ≤ multiple_from first terms.now }
    requires small { multiple_from first terms.now ≤ 2 ^ 32 }
    ensures { result ≡ multiple_from first terms.now }
{
    let mut multiple = first;
    for term in terms {
        multiple = next_multiple(multiple, term.denominator);
    }
    multiple
}

/// The least common multiple of `multiple` and `denominator`, which is at most 2^32.
fn next_multiple(multiple: u64, denominator: u64) -> u64
    requires some { 1 ≤ multiple }
    requires both { 1 ≤ denominator }
    requires small { lcm multiple denominator ≤ 2 ^ 32 }
    ensures { result ≡ lcm multiple denominator }
{
    if denominator == 1 {
        return multiple;
    }
    match multiple_with(multiple, denominator) {
        Some(both) => both,
        None => unreachable!(),
    }
}
