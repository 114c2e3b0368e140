//! What told texts are good for, each theorem as the contract of a function.
ghost use Rattle.it_terms.specs.Tells.{TextsMove};
ghost use Rattle.it_terms.specs.Proofs.{ToldProves};
ghost use Rattle.it_terms.specs.FunctionProofs.{ToldUnderProves};
ghost use Rattle.it_terms.specs.RowsUnder.{PrintedRowsSay};

/// A text that is a relation is the same one after whatever stands before it in a line.
#[tactic(auto, using(crate::proofs::Moves::texts_move))]
pub fn texts_move()
    ensures { TextsMove }
{}

/// A target of which a text tells a proof is at least 0 wherever the question's lines are true.
pub fn told_proves()
    ensures { ToldProves }
{}

/// A target of which a text tells a proof where functions hold is at least 0 wherever the question's lines are true.
pub fn told_under_proves()
    ensures { ToldUnderProves }
{}

/// A row that a text tells where lines are true says what the text says wherever the question's `given` lines are true.
pub fn printed_rows_say()
    ensures { PrintedRowsSay }
{}
