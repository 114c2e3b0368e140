//! The numbers of a relation's targets and of a region's obligations.
ghost use Rattle.std.specs.Prelude.{◌≡◌, ◌≤◌, ℕ, length, map, sum_by};
ghost use Rattle.it_syntax.specs.Givens.{IsGivenOf, given_view};
ghost use Rattle.it_syntax.specs.Meaning.{relation_view};
ghost use Rattle.it_question.specs.Limits.{AreLinesOver};
ghost use Rattle.it_certificate.specs.Obligations.{obligation_count};
ghost use Rattle.it_certificate.specs.ReportSteps.{given_form_count, relation_form_count, target_count};

use it_question::types::Region;
use it_syntax::types::{Given, Relation, Sign};

/// The number of targets of a relation of this sign.
pub fn target_count(sign: Sign) -> usize
    ensures count { result ≡ target_count sign }
    ensures few { result ≤ 2 }
{
    match sign {
        Sign::AtLeast | Sign::AtMost => 1,
        Sign::Equal => 2,
    }
}

/// The number of forms that `given` says to be at least 0: two for an equation.
fn given_form_count(given: &Given) -> usize
    ensures count { result ≡ given_form_count (given_view given.now) }
    ensures few { (n : ℕ) → IsGivenOf n (given_view given.now) → result ≤ 32 }
{
    match given {
        Given::Relation(relation) => target_count(relation.sign),
        Given::Markov(sets) => 2 * sets.len().saturating_sub(2),
        Given::Independent { .. } | Given::Function { .. } => 2,
    }
}

/// The number of forms that the givens of `region` say to be at least 0.
fn givens_form_count(region: &Region) -> usize
    requires { AreLinesOver region.now.names region.now.lines }
    ensures count { result ≡ sum_by given_form_count region.now.lines.givens }
    ensures few { result ≤ 2048 }
{
    let givens = region.lines().givens();
    let mut count = 0;
    for given in givens {
        count += given_form_count(given);
    }
    count
}

/// The number of forms that `rows` say to be at least 0.
fn rows_form_count(rows: &[Relation]) -> usize
    requires { length rows.now ≤ 64 }
    ensures count { result ≡ sum_by relation_form_count (map relation_view rows.now) }
    ensures few { result ≤ 128 }
{
    let mut count = 0;
    for relation in rows {
        count += target_count(relation.sign);
    }
    count
}

/// The number of obligations that the lines of `region`, a second region, make: of forms that they say to be at least 0.
pub fn obligation_count(region: &Region) -> usize
    requires { AreLinesOver region.now.names region.now.lines }
    ensures { result ≡ obligation_count region.now }
{
    givens_form_count(region) + rows_form_count(region.lines().rows())
}
