//! Tests: the text of an empty row.

use it_print::row_text;
use it_problems::Kind;
use it_space::Row;
use it_syntax::Names;
use std::alloc::Global;

/// Whether the row without terms is 0.
fn is_zero(alloc: Global) -> bool {
    let row = Row::new(Vec::new(alloc));
    match row_text(alloc, &row, Kind::Equation, &Names::new(alloc)) {
        Ok(text) => text.as_slice() == b"0 = 0".as_slice(),
        Err(_) => false,
    }
}

#[test]
fn an_empty_row_is_zero(rt: HostRuntime) {
    assert!(rt; is_zero(rt.alloc()));
}
