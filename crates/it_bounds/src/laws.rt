//! What right replies say, each theorem as the contract of a function.
ghost use Rattle.it_bounds.specs.RightReplies.{NeverOutOfSteps, OneRightReply, WhatIsShownIsTrue};
ghost use Rattle.it_bounds.specs.Reports.{OneRightTold};

/// What a reply to a question of a file shows is true: the rows hold exactly where some whole multiple of the rates is that of a
/// polymatroid with rates at which all lines are true, the rays span what they allow, and no row that is marked as needed follows
/// from the others.
pub fn shown_bounds_are_true()
    ensures { WhatIsShownIsTrue }
{}

/// Where the defined run alone is asked for, a question of so few variables that it is in reach has one right reply, and its report one
/// list of steps. Where that run is made without a budget of steps, no reply is undecided for lack of them.
pub fn replies_are_determined()
    ensures one { OneRightReply }
    ensures steps { NeverOutOfSteps }
    ensures told { OneRightTold }
{}
