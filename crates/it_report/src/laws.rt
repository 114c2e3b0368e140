//! What the verdicts mean, each theorem as the contract of a function.
ghost use Rattle.it_report.specs.Meaning.{EachLineIsJudged, OneVerdict, ValidCodeIsTrue, ValidFactorIsTrue, ValidFactorIsTrueOfSharing, ValidOriginsAreTrue, ValidIsTrue, ValidIsTrueByCopies, ValidIsTrueOfBounds, ValidIsTrueOfSharing};

/// Each line of a report, whatever its bytes, has a verdict and so a line about it.
pub fn each_line_is_judged()
    ensures { EachLineIsJudged }
{}

/// A line has at most one verdict.
#[tactic(auto, using(crate::proofs::OneLemmas::one_verdict))]
pub fn verdict_is_one()
    ensures { OneVerdict }
{}

/// The claim of a valid line is true of the question that is asked: a yes holds everywhere, the point of a no violates the target on its
/// side, and of a containment the first region lies in the second. With a head, a yes holds of the question's own relation wherever there
/// are such copies; of a sharing file, an answer is true wherever the secret is shared perfectly. Bounds are exact.
pub fn valid_is_true()
    ensures claim { ValidIsTrue }
    ensures copies { ValidIsTrueByCopies }
    ensures sharing { ValidIsTrueOfSharing }
    ensures bounds { ValidIsTrueOfBounds }
{}

/// Where a valid no has a code, its relation fails at random variables: the values of its point are the entropies of the code's variables.
pub fn valid_code_is_true()
    ensures { ValidCodeIsTrue }
{}

/// Where a valid region has origins, each of its rows is true wherever the question's lines are.
pub fn valid_origins_are_true()
    ensures { ValidOriginsAreTrue }
{}

/// What a valid line says of factors is true of the question that is asked: the least factor holds wherever the question's
/// lines are true, and no smaller one does; or no factor holds; or the one that the line names and all smaller ones hold. Of a
/// sharing file, it is true of the factors that hold wherever the secret is shared perfectly.
pub fn valid_factor_is_true()
    ensures claim { ValidFactorIsTrue }
    ensures sharing { ValidFactorIsTrueOfSharing }
{}
