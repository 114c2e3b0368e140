//! Laws of the definitions that the contracts cite.
ghost use Rattle.it_syntax.specs.Misspellings.{LineTokensAreOne};
ghost use Rattle.it_syntax.specs.RelationLines.{RelationIsOne, RelationFaultIsOne, RelationOrFault};
ghost use Rattle.it_syntax.specs.GivenLines.{GivenIsOne, GivenFaultIsOne, GivenOrFault};

/// A line from a token on is at most one relation of two sums, or has at most one first fault, and not both.
pub fn relation_is_one()
    ensures one { RelationIsOne }
    ensures fault { RelationFaultIsOne }
    ensures either { RelationOrFault }
{}

/// A line from a token on is at most one constraint of a `given` line, or has at most one first fault, and not both.
pub fn given_is_one()
    ensures one { GivenIsOne }
    ensures fault { GivenFaultIsOne }
    ensures either { GivenOrFault }
{}

/// A line is one list of tokens, up to at most one misspelling.
#[tactic(auto, using(crate::proofs::MisspellingLemmas::line_tokens_are_one))]
pub fn line_tokens_are_one()
    ensures { LineTokensAreOne }
{}
