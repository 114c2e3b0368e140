//! Copies of rows.
ghost use Rattle.std.specs.Prelude.{◌≡◌, IfOk};

use it_space::Row;
use std::alloc::{AllocError, Global};

/// Copies of `rows`, in order.
pub fn copied_rows(alloc: Global, rows: &[Row]) -> Result<Vec<Row>, AllocError>
    ensures { IfOk result (λ v. v.items ≡ rows.now) }
{
    let mut own = Vec::new(alloc);
    for row in rows {
        let copy = row.copy(alloc)?;
        own.push(copy)?;
    }
    Ok(own)
}
