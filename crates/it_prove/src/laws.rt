//! Theorems about the outcomes, each as the contract of a function.
ghost use Rattle.it_prove.specs.ProofViews.{DefinedEndsMayCome, EndsAgree, EndsAreRight, NeverAtStart, NeverOutOfSteps, OneProofView, ProvenAscends, SizeIsOfStart};

/// The outcome about a target is right: a certificate certifies it, and a point refutes it.
pub fn ends_are_right()
    ensures { EndsAreRight }
{}

/// No two outcomes about a target contradict each other, for any efforts.
pub fn ends_agree()
    ensures { EndsAgree }
{}

/// The outcome of the defined run alone is one of the possible outcomes whichever runs are made.
pub fn defined_ends_may_come()
    ensures { DefinedEndsMayCome }
{}

/// Where the defined run alone is made, a target under a problem has one outcome.
pub fn one_outcome()
    ensures { OneProofView }
{}

/// The weights of a proof ascend by generator, and none is 0.
#[tactic(auto, using(crate::proofs::ProofLemmas::proven_ascends))]
pub fn proven_ascends()
    ensures { ProvenAscends }
{}

/// If no coefficient is large, no run ends with `Width` at its start.
pub fn never_at_start()
    ensures { NeverAtStart }
{}

/// Where the defined run is made without a budget, no target is left open because steps ran out.
pub fn never_out_of_steps()
    ensures { NeverOutOfSteps }
{}

/// The size of a problem's table is that of the table with which the run about any target begins.
#[tactic(auto, using(crate::proofs::SizeLemmas::size_of_start))]
pub fn size_is_of_start()
    ensures { SizeIsOfStart }
{}
