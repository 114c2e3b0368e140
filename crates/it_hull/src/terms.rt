//! A row with a further term.
ghost use Rattle.std.specs.Prelude.{◌≡◌, pos, OnOk, IfOk};
ghost use Rattle.it_number.specs.Limit.{IsWithin};
ghost use Rattle.it_space.specs.Cancelling.{with_term};
ghost use Rattle.it_space.specs.Rows.{IsCanonical, coefficient};
ghost use Rattle.it_hull.specs.Places.{IsPlaceFor};

use it_space::Row;
use std::alloc::{AllocError, Global};

/// The place in `terms` at which a term at coordinate `at`, which they lack, belongs.
fn place_for(terms: &[(u32, i128)], at: u32) -> usize
    requires canonical { IsCanonical terms.now }
    requires lacks { coefficient terms.now at ≡ pos 0 }
    ensures { IsPlaceFor at terms.now result }
{
    match terms.binary_search_by_key(&at, |term| term.0) {
        Ok(place) => place,
        Err(place) => place,
    }
}

/// Inserts the term `number` at coordinate `at`, which the terms lack, unless `number` is 0.
fn put_term(terms: &mut Vec<(u32, i128)>, at: u32, number: i128) -> Result<(), AllocError>
    requires canonical { IsCanonical terms.old.items }
    requires lacks { coefficient terms.old.items at ≡ pos 0 }
    ensures { OnOk result (terms.new.items ≡ with_term at number terms.old.items) }
{
    let place = place_for(terms.as_slice(), at);
    if number != 0 {
        terms.insert(place, (at, number))?;
    }
    Ok(())
}

/// `row` with the coefficient `number` at coordinate `at`, which it lacks.
pub fn with_term(alloc: Global, row: &Row, at: u32, number: i128) -> Result<Row, AllocError>
    requires lacks { coefficient row.now at ≡ pos 0 }
    requires within { IsWithin number }
    ensures { IfOk result (λ r. r ≡ with_term at number row.now) }
{
    let mut terms = row.copy(alloc)?.into_terms();
    put_term(&mut terms, at, number)?;
    Ok(Row::new(terms))
}
