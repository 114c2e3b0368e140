//! Readers of entropies and mutual informations.
ghost use Rattle.it_forms.specs.FormReading.{read};
ghost use Rattle.it_syntax.specs.Gives.{Parses};
ghost use Rattle.it_syntax.specs.LineForms as forms;
ghost use Rattle.it_syntax.specs.Scopes.{env_of};

use crate::lists::list;
use crate::names::Names;
use crate::rest::{Rest, Stop};
use crate::terminals::{symbol, takes};
use crate::types::{Atom, Symbol};
use it_space::VarSet;

/// Reads `)`, or `|`, a list and `)`, and gives the list's set; it is empty without `|`.
#[tactic(auto, unfolding(crate::specs::LineForms::given_set, it_forms::specs::FormReading::read), using(crate::proofs::Loops::front_lemmas))]
fn given_set(rest: &mut Rest<'_>, names: &Names) -> Result<VarSet, Stop>
    ensures { Parses result (forms.given_set (env_of names.now)) rest.old rest.new }
{
    if takes(rest, Symbol::Bar) {
        let set = list(rest, names)?;
        symbol(rest, Symbol::RightParen)?;
        Ok(set)
    } else {
        symbol(rest, Symbol::RightParen)?;
        Ok(VarSet::empty())
    }
}

/// An entropy, after its `H`. At a fault `rest` begins with the piece that the fault is at.
#[tactic(auto, unfolding(crate::specs::LineForms::entropy, it_forms::specs::FormReading::read))]
pub fn entropy(rest: &mut Rest<'_>, names: &Names) -> Result<Atom, Stop>
    ensures { Parses result (forms.entropy (env_of names.now)) rest.old rest.new }
{
    symbol(rest, Symbol::LeftParen)?;
    let of = list(rest, names)?;
    let given = given_set(rest, names)?;
    Ok(Atom::Entropy { of, given })
}

/// A mutual information, after its `I`. At a fault `rest` begins with the piece that the fault is at.
#[tactic(auto, unfolding(crate::specs::LineForms::mutual_information, it_forms::specs::FormReading::read))]
pub fn mutual_information(rest: &mut Rest<'_>, names: &Names) -> Result<Atom, Stop>
    ensures { Parses result (forms.mutual_information (env_of names.now)) rest.old rest.new }
{
    symbol(rest, Symbol::LeftParen)?;
    let left = list(rest, names)?;
    symbol(rest, Symbol::Semicolon)?;
    let right = list(rest, names)?;
    let given = given_set(rest, names)?;
    Ok(Atom::Mutual { left, right, given })
}
