//! The closures of all sets, and the linear program about a target over closed sets.

use crate::closures::{Closures, Companions, with, without};
use crate::placed::PlacedProgram;
use crate::places::Places;
use it_closure::Dependences;
use it_elemental::{Elemental, count, parts};
use it_orbits::Submodular;
use std::alloc::{AllocError, Global};

/// The most places of a program. Its inverse has a row for each place, with a number at each place.
const MOST_PLACES: usize = 1 << 13;

/// The most inequalities of a program: so many are elemental for ten variables.
const MOST_INEQUALITIES: usize = 11_530;

/// An elemental inequality over closed sets. `None` if it is 0, or another one: for I(X;Y|K) one set K for each closure is enough.
fn over_closed_sets(closures: &Closures, elemental: Elemental) -> Option<Submodular> {
    match elemental {
        Elemental::Conditional { of } => {
            let full = closures.full();
            let given = closures.of(without(full, of));
            if given == full {
                return None;
            }
            Some(Submodular {
                left: full,
                right: full,
                given,
            })
        }
        Elemental::Mutual { left, right, given } => {
            if !closures.is_closed(given) {
                return None;
            }
            Some(Submodular {
                left: closures.of(with(given, left)),
                right: closures.of(with(given, right)),
                given,
            })
        }
    }
}

/// The program of the elemental inequalities over closed sets, without constraints. `None` if it would have more than `MOST_PLACES` places
/// or more than `MOST_INEQUALITIES` inequalities.
fn elemental_program(
    alloc: Global,
    dependences: &Dependences,
    closures: &Closures,
) -> Result<Option<PlacedProgram>, AllocError> {
    let space = dependences.space();
    let sets = closures.closed_sets(alloc)?;
    let places = Places::read(alloc, closures, sets.as_slice(), space.rates)?;
    if places.width() > MOST_PLACES {
        return Ok(None);
    }
    let mut program = PlacedProgram::new(alloc, places)?;
    for generator in 0..count(space.variables) {
        if let Some(inequality) = over_closed_sets(closures, parts(space.variables, generator)) {
            if program.count() >= MOST_INEQUALITIES {
                return Ok(None);
            }
            program.push(inequality)?;
        }
    }
    Ok(Some(program))
}

/// The closures of all sets, and the linear program over closed sets.
#[derive(Drop)]
pub struct ClosedSets {
    companions: Companions,
    pub closures: Closures,
    /// `None` if it is large.
    pub program: Option<PlacedProgram>,
}

impl ClosedSets {
    /// The closures under `dependences` and `companions`, and the program over them.
    pub fn read(
        alloc: Global,
        dependences: &Dependences,
        companions: Companions,
    ) -> Result<ClosedSets, AllocError> {
        let closures = Closures::read(alloc, dependences, &companions)?;
        let program = elemental_program(alloc, dependences, &closures)?;
        Ok(ClosedSets {
            companions,
            closures,
            program,
        })
    }

    /// Whether the closures are those by `companions`.
    pub fn is_of(&self, companions: &Companions) -> bool {
        self.companions.are(companions)
    }
}
