//! Tests: rows in lowest terms.

ghost use Rattle.it_space.specs.Rows.{IsCanonical};

use it_space::{Row, normal};
use std::alloc::Global;

/// Whether the row of `terms` has the terms `lowest` in lowest terms.
fn has_lowest_terms(alloc: Global, terms: &[(u32, i128)], lowest: &[(u32, i128)]) -> bool
    requires { IsCanonical terms.now }
{
    match Vec::from_slice(alloc, terms) {
        Ok(terms) => normal(Row::new(terms)).terms() == lowest,
        Err(_) => false,
    }
}

/// Whether rows are divided by their common divisor.
fn are_divided(alloc: Global) -> bool {
    has_lowest_terms(
        alloc,
        &[(1, 6), (2, -4), (7, 10)],
        &[(1, 3), (2, -2), (7, 5)],
    ) && has_lowest_terms(alloc, &[(4, -i128::MAX)], &[(4, -1)])
        && has_lowest_terms(alloc, &[], &[])
}

#[test]
fn rows_are_divided_by_their_common_divisor(rt: HostRuntime) {
    assert!(rt; are_divided(rt.alloc()));
}
