//! The mathematics of whole numbers below the exact arithmetic: greatest common divisors, division of signed numbers, a solver of
//! equations in any commutative ring, and decimal texts.
#![tactic(auto)]

ghost use Rattle.it_number.specs.Laws.{EuclidsLemma, GcdIsGreatest, LcmIsLeast};

/// Euclid's algorithm gives the greatest common divisor (Knuth, The Art of Computer Programming vol. 2, 4.5.2).
pub fn gcd_is_greatest()
    ensures { GcdIsGreatest }
{}

/// The product over the greatest common divisor is the least common multiple.
pub fn lcm_is_least()
    ensures { LcmIsLeast }
{}

/// A number that divides a product and is coprime to one factor divides the other (Euclid, Elements VII.30).
#[tactic(auto, using(crate::proofs::Divisors::euclid))]
pub fn euclids_lemma()
    ensures { EuclidsLemma }
{}
