//! Elimination has one end, as the contract of a function.
ghost use Rattle.it_eliminate.specs.Laws.{OneEnd};

/// Elimination of one list of rates from one system has one end.
#[tactic(auto, using(crate::proofs::LawLemmas::one_end))]
pub fn one_end()
    ensures { OneEnd }
{}
