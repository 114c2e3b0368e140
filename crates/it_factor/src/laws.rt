//! What right replies say, each theorem as the contract of a function.
ghost use Rattle.it_factor.specs.RightReplies.{NeverOutOfSteps, OneRightReply, WhatIsShownIsTrue};

/// A reply that shows what it says of the factors is true of them: a least factor holds wherever the question's lines are true, and no
/// smaller one does; where the reply has no factor, none holds; where it has one that isn't the least, that one holds, and so does each
/// smaller one.
pub fn shown_factors_are_true()
    ensures { WhatIsShownIsTrue }
{}

/// Where the defined runs alone are asked for and are in reach, a question has one right reply. Where they are made without a budget of
/// steps, no reply is undecided for lack of steps.
pub fn replies_are_determined()
    ensures one { OneRightReply }
    ensures steps { NeverOutOfSteps }
{}
