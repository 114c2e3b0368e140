//! What the definitions say, each theorem as the contract of a function.
ghost use Rattle.it_canon.specs.Theorems.{OneProblem, QuestionHasProblem, RelationHasRows, TableIsSmall};

/// A question that is read poses a problem, whose table isn't too large, with the rows of its targets where it is about a
/// relation, and no other.
pub fn questions_pose_problems()
    ensures problem { QuestionHasProblem }
    ensures rows { RelationHasRows }
    ensures one { OneProblem }
    ensures small { TableIsSmall }
{}
