//! The rows of the hull of no rays.
ghost use Rattle.std.specs.Prelude.{◌≡◌, ◌≢◌, [], ◌∷◌, pos, IfOk};
ghost use Rattle.it_number.specs.Limit.{IsWithin};
ghost use Rattle.it_hull.specs.Hulls.{first_rows};

use it_space::Row;
use std::alloc::{AllocError, Global};

/// The row with the single term `coefficient` at coordinate `at`.
fn single(alloc: Global, at: u32, coefficient: i128) -> Result<Row, AllocError>
    requires some { coefficient ≢ pos 0 }
    requires within { IsWithin coefficient }
    ensures { IfOk result (λ r. r ≡ (at, coefficient) ∷ []) }
{
    let terms = vec![in alloc; (at, coefficient)]?;
    Ok(Row::new(terms))
}

/// The rows of the hull of no rays: each coordinate in `kept` is 0.
pub fn first_rows(alloc: Global, kept: &[u32]) -> Result<Vec<Row>, AllocError>
    ensures { IfOk result (λ v. v.items ≡ first_rows kept.now) }
{
    let mut rows = Vec::new(alloc);
    for at in kept {
        let least = single(alloc, *at, 1)?;
        rows.push(least)?;
        let most = single(alloc, *at, -1)?;
        rows.push(most)?;
    }
    Ok(rows)
}
