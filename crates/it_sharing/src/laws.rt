//! Laws of the definitions that the contracts cite.
ghost use Rattle.it_sharing.specs.PerfectSharing.{MadeGivensArePerfect, MadeQuestionIsOfPerfectSharing};
ghost use Rattle.it_sharing.specs.SharingFiles.{SharingFaultIsOne, SharingHasOne, SharingIsOne, SharingIsWithin, SharingOrFault};

/// At a polymatroid the givens that are made of the minimal qualified and the maximal unqualified sets hold exactly where
/// each qualified set knows the secret and each other set of parties nothing of it.
#[tactic(auto, using(crate::proofs::Perfection::made_givens_are_perfect))]
pub fn made_givens_are_perfect()
    ensures { MadeGivensArePerfect }
{}

/// So a polymatroid makes the lines of the made question true exactly where it shares the secret perfectly.
pub fn made_question_is_of_perfect_sharing()
    ensures { MadeQuestionIsOfPerfectSharing }
{}

/// A file has at most one reading, or has at most one first fault, and not both.
pub fn sharing_is_one()
    ensures one { SharingIsOne }
    ensures fault { SharingFaultIsOne }
    ensures either { SharingOrFault }
{}

/// A file has a reading or a first fault.
pub fn sharing_has_one()
    ensures { SharingHasOne }
{}

/// What a file says is within the limits, so what holds of all that is within them holds of it.
pub fn sharing_is_within()
    ensures { SharingIsWithin }
{}
