//! Laws of reduction and of reduced elimination, each as the contract of a function.
ghost use Rattle.it_redundant.specs.PlainCauses.{CausesArePlain};
ghost use Rattle.it_redundant.specs.Theorems.{OneReducedEnd, OneReduction, SettledRegionsAgree};

/// Where the defined run alone is made, reduction of a list under givens has one end, and so has reduced elimination.
pub fn reductions_are_determined()
    ensures reduction { OneReduction }
    ensures elimination { OneReducedEnd }
{}

/// Reduced elimination that leaves no row unsettled ends with the same rows in the same order, or with the same cause at the same rate,
/// for any effort: whichever runs are made, and with any budget.
#[tactic(auto, using(crate::proofs::SettledLemmas::settled_regions_agree))]
pub fn settled_regions_agree()
    ensures { SettledRegionsAgree }
{}

/// If reduced elimination ends with a cause at a rate, plain elimination has the same cause at this rate: its list after the rate has
/// too many rows too, or a pair of its list before the rate is wide.
#[tactic(auto, using(crate::proofs::PlainCauseLemmas::causes_are_plain))]
pub fn causes_are_plain()
    ensures { CausesArePlain }
{}
