//! Sums so far, in joint entropies of closed sets. The results are judged by the equations that they give.
ghost use Rattle.std.specs.Prelude.{◌≤◌};
ghost use Rattle.it_space.specs.Spaces.{most_variables};

use crate::closed::{ClosedTerm, Closures};
use crate::finding::term_of;
use crate::folding::{Notation, atom_of};
use crate::shortest::atom_terms;
use crate::untold::Untold;
use it_fraction::{signed_product, sum};
use it_space::{Space, VarSet};
use it_syntax::types::{Atom, Term};
use std::alloc::{AllocError, Global};

/// A sum over closed sets, by coordinate.
pub struct Tally {
    sums: Vec<i128>,
}

impl Drop for Tally {
    fn drop(self) {
        let Tally { sums: _ } = self;
    }
}

/// The coordinate of a rate.
fn rate_coordinate(space: Space, rate: u8) -> u32
    requires { space.variables ≤ most_variables }
{
    (1u32 << space.variables) + rate as u32
}

impl Tally {
    /// A sum of no terms, over the coordinates of a space.
    pub fn nothing(alloc: Global, space: Space) -> Result<Tally, AllocError>
        requires { space.variables ≤ most_variables }
    {
        let mut sums = Vec::new(alloc);
        for _ in 0..rate_coordinate(space, space.rates) {
            sums.push(0i128)?;
        }
        Ok(Tally { sums })
    }

    /// Adds `times` at the place of `coordinate`; nothing if that is 0.
    fn add(&mut self, closures: &Closures, coordinate: u32, times: i128) -> Result<(), Untold> {
        let place = closures.place(coordinate) as usize;
        if place >= self.sums.len() {
            return Err(Untold::NotFound);
        }
        if place != 0 {
            self.sums[place] = sum(self.sums[place], times)?;
        }
        Ok(())
    }

    /// Adds `times` times `terms`, by coordinate.
    pub fn add_terms(
        &mut self,
        closures: &Closures,
        terms: &[(u32, i128)],
        times: i128,
    ) -> Result<(), Untold> {
        for term in terms {
            self.add(closures, term.0, signed_product(times, term.1)?)?;
        }
        Ok(())
    }

    /// Adds a term.
    pub fn add_term(&mut self, closures: &Closures, space: Space, term: &Term) -> Result<(), Untold>
        requires { space.variables ≤ most_variables }
    {
        let number = term.number as i128;
        let times = if term.negative { -number } else { number };
        match term.atom {
            Atom::Rate(rate) => self.add(closures, rate_coordinate(space, rate), times),
            _ => self.add_terms(closures, &atom_terms(&term.atom), times),
        }
    }

    /// The number at a coordinate.
    fn number(&self, coordinate: u32) -> i128 {
        let at = coordinate as usize;
        if at < self.sums.len() {
            self.sums[at]
        } else {
            0
        }
    }

    /// Appends the terms of rates.
    fn put_rates(&self, terms: &mut Vec<Term>, space: Space) -> Result<(), Untold>
        requires { space.variables ≤ most_variables }
    {
        for rate in 0..space.rates {
            let number = self.number(rate_coordinate(space, rate));
            if number != 0 {
                terms.push(term_of(number, Atom::Rate(rate))?)?;
            }
        }
        Ok(())
    }

    /// Appends the joint entropies with a minus if `negative`, else those with a plus; those of fewer members first.
    fn put_sets(
        &self,
        terms: &mut Vec<Term>,
        notation: &Notation<'_>,
        negative: bool,
    ) -> Result<(), Untold> {
        let given = notation.closures.close(VarSet::empty());
        for set in notation.closures.sets() {
            let number = self.number(set.number() as u32);
            if number != 0 && (number < 0) == negative {
                let term = ClosedTerm {
                    first: *set,
                    second: *set,
                    given,
                };
                terms.push(term_of(number, atom_of(notation.closures, notation.measures, &term))?)?;
            }
        }
        Ok(())
    }

    /// The sum as terms: rates, and then joint entropies, those with a plus first.
    pub fn terms(
        &self,
        alloc: Global,
        notation: &Notation<'_>,
        space: Space,
    ) -> Result<Vec<Term>, Untold>
        requires { space.variables ≤ most_variables }
    {
        let mut terms = Vec::new(alloc);
        self.put_rates(&mut terms, space)?;
        self.put_sets(&mut terms, notation, false)?;
        self.put_sets(&mut terms, notation, true)?;
        Ok(terms)
    }
}
