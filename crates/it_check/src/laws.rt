//! The meaning of the verdicts, each theorem as the contract of a function.
ghost use Rattle.it_check.specs.Meaning.{ValidMet, ValidYes, ValidNo, YesIsTrue};

/// The verdict on a certificate is `Valid` exactly if it certifies the target and its numbers are within the limit.
#[tactic(auto, using(crate::proofs::Truth::valid_yes_is))]
pub fn valid_yes()
    ensures { ValidYes }
{}

/// The verdict on a point is `Valid` exactly if it meets the problem and the numbers are within the limit.
#[tactic(auto, using(crate::proofs::Truth::valid_met_is))]
pub fn valid_met()
    ensures { ValidMet }
{}

/// The verdict on a counterexample is `Valid` exactly if it refutes the target and its numbers are within the limit.
#[tactic(auto, using(crate::proofs::Truth::valid_no_is))]
pub fn valid_no()
    ensures { ValidNo }
{}

/// A target with a certificate is at least 0 wherever the problem is met.
#[tactic(auto, using(crate::proofs::Truth::yes_is_true))]
pub fn yes_is_true()
    ensures { YesIsTrue }
{}
