//! What right answers say, each theorem as the contract of a function.
ghost use Rattle.it_answer.specs.RightAnswers.{AYesAscends, FileIsInReach, NoStepIsZero, OneRightAnswer};
ghost use Rattle.it_answer.specs.Shows.{WhatIsShownIsTrue};
ghost use Rattle.it_answer.specs.Truth.{NeverYesAndNo};

/// An answer that shows what it says is true, for every question and every answer to it: a yes wherever the question's lines are
/// true, a no at its values, a region at exactly the points that extend to the eliminated rates, a containment of the two regions.
pub fn shown_answers_are_true()
    ensures { WhatIsShownIsTrue }
{}

/// No question has a yes and a no that are both true.
pub fn never_yes_and_no()
    ensures { NeverYesAndNo }
{}

/// Where the defined run alone is asked for and is in reach, a question has one right answer, whatever the boxes are, as long as their
/// plans are the same. With any effort, each certificate of a yes or of a containment lists its generators in ascending order, none twice.
pub fn answers_are_determined()
    ensures one { OneRightAnswer }
    ensures ascends { AYesAscends }
{}

/// The defined run about a question of a file with the usual limits is in reach.
pub fn files_are_in_reach()
    ensures { FileIsInReach }
{}

/// The rows of a question of a file are small enough for the start of every run, so an overflow comes at step 1 or later.
pub fn no_step_is_zero()
    ensures { NoStepIsZero }
{}
