//! What follows from how a call ends and from what may be told, each theorem as the contract of a function.
ghost use Rattle.it_tell.specs.Laws.{EachLineIsTold, Headline, LeftOutAreTold, ToldAnswersAreTrue, ToldCodesAreTrue};

/// What a call that is done has written: what is told of each line of all that the source had.
pub fn headline()
    ensures { Headline }
{}

/// Something may be told of each line of a report, whatever its bytes.
#[tactic(auto, using(crate::proofs::LawLemmas::each_line_is_told))]
pub fn each_line_is_told()
    ensures { EachLineIsTold }
{}

/// What a told answer claims is true: a yes holds everywhere, the point of a no violates the relation, and of a containment the first
/// region lies in the second.
pub fn told_answers_are_true()
    ensures { ToldAnswersAreTrue }
{}

/// Where a no with a code is told, its relation fails at random variables: the values of the point are the entropies of the
/// code's variables, as many times as the line says.
pub fn told_codes_are_true()
    ensures { ToldCodesAreTrue }
{}

/// Of a point told by some of its values, each value that an answer's line has is told, or is that of a set whose value is told.
pub fn left_out_are_told()
    ensures { LeftOutAreTold }
{}
