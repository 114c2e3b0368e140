//! Readers of signs and comparisons.
ghost use Rattle.it_forms.specs.FormReading.{read, after};
ghost use Rattle.it_syntax.specs.Gives.{Parses};
ghost use Rattle.it_syntax.specs.LineForms as forms;
ghost use Rattle.it_syntax.specs.ReaderSteps.{MayTake, sign};

use crate::rest::{Piece, Rest, Stop};
use crate::terminals::{symbol, takes};
use crate::types::{Sign, Symbol};

/// Takes the sign that stands there, and says whether it is `-`; None where none stands there.
pub fn sign(rest: &mut Rest<'_>) -> Option<bool>
    ensures { MayTake sign result rest.old rest.new }
{
    match rest.front() {
        (Piece::Symbol(Symbol::Plus), after) => {
            *rest = after;
            Some(false)
        }
        (Piece::Symbol(Symbol::Minus), after) => {
            *rest = after;
            Some(true)
        }
        _ => None,
    }
}

/// A `>=`, `<=` or `=`, which must stand there.
#[tactic(auto, unfolding(crate::specs::LineForms::compare, it_forms::specs::FormReading::read), using(crate::proofs::Loops::front_lemmas))]
pub fn compare(rest: &mut Rest<'_>) -> Result<Sign, Stop>
    ensures { Parses result forms.compare rest.old rest.new }
{
    if takes(rest, Symbol::AtLeast) {
        Ok(Sign::AtLeast)
    } else if takes(rest, Symbol::AtMost) {
        Ok(Sign::AtMost)
    } else {
        symbol(rest, Symbol::Equal)?;
        Ok(Sign::Equal)
    }
}
