//! Tests: eliminations of rates without a reduction, and products past the limit.

ghost use Rattle.std.specs.Prelude.{◌≡◌, IfOk};
ghost use Rattle.it_problems.specs.Problems.{IsSystem};

use it_eliminate::{Eliminated, eliminate};
use it_problems::System;
use it_space::{Row, Space};
use std::alloc::{AllocError, Global};

/// Whether elimination ends with a region of the rows `rows`.
fn is_region(end: &Eliminated, rows: &[&[(u32, i128)]]) -> bool {
    match end {
        Eliminated::Region(region) => {
            if region.rows.len() != rows.len() {
                return false;
            }
            for i in 0..rows.len() {
                if region.rows[i].terms() != rows[i] {
                    return false;
                }
            }
            true
        }
        _ => false,
    }
}

/// Superposition coding: U, X, Y are variables 0 to 2, and R, Rc, Rp are rates 0 to 2, at coordinates 8 to 10.
fn superposition(alloc: Global) -> Result<System, AllocError>
    ensures system { IfOk result IsSystem }
    ensures rates { IfOk result (λ s. s.space.rates ≡ 3) }
{
    let rows = vec![in alloc;
        Row::new(vec![in alloc; (9, 1)]?),
        Row::new(vec![in alloc; (10, 1)]?),
        Row::new(vec![in alloc; (1, 1), (4, 1), (5, -1), (9, -1)]?),
        Row::new(vec![in alloc; (1, -1), (3, 1), (5, 1), (7, -1), (10, -1)]?),
        Row::new(vec![in alloc; (8, 1), (9, -1), (10, -1)]?),
        Row::new(vec![in alloc; (8, -1), (9, 1), (10, 1)]?),
    ]?;
    Ok(System {
        space: Space {
            variables: 3,
            rates: 3,
        },
        rows,
    })
}

/// Whether the elimination of Rc and Rp ends with the rate region.
fn has_rate_region(alloc: Global, system: &System) -> bool
    requires system { IsSystem system.now }
    requires rates { system.now.space.rates ≡ 3 }
{
    let rows: &[&[(u32, i128)]] = &[
        &[(1, 1), (4, 1), (5, -1)],
        &[(1, -1), (3, 1), (5, 1), (7, -1)],
        &[(8, 1)],
        &[(3, 1), (4, 1), (7, -1), (8, -1)],
    ];
    match eliminate(alloc, system, [1, 2].as_slice(), 10000) {
        Ok(end) => is_region(&end, rows),
        Err(_) => false,
    }
}

/// Whether the elimination stops at Rc where a rate may leave only two rows.
fn names_rate(alloc: Global, system: &System) -> bool
    requires system { IsSystem system.now }
    requires rates { system.now.space.rates ≡ 3 }
{
    let end = eliminate(alloc, system, [1, 2].as_slice(), 2);
    matches!(end, Ok(Eliminated::Rows { rate: 1 }))
}

/// Whether superposition coding has its rate region, and the rate that leaves too many rows is named.
fn is_eliminated(alloc: Global) -> bool {
    match superposition(alloc) {
        Ok(system) => has_rate_region(alloc, &system) && names_rate(alloc, &system),
        Err(_) => false,
    }
}

#[test]
fn superposition_coding_has_its_rate_region_within_a_limit_of_rows(rt: HostRuntime) {
    assert!(rt; is_eliminated(rt.alloc()));
}

/// M A >= (M - 1) B and M B >= (M - 1) A with M = 2^64 - 1: A and B are rates 0 and 1, at coordinates 2 and 3.
fn wide_products(alloc: Global) -> Result<System, AllocError>
    ensures system { IfOk result IsSystem }
    ensures rates { IfOk result (λ s. s.space.rates ≡ 2) }
{
    Ok(System {
        space: Space {
            variables: 1,
            rates: 2,
        },
        rows: vec![in alloc;
            Row::new(vec![in alloc; (2, 18446744073709551615), (3, -18446744073709551614)]?),
            Row::new(vec![in alloc; (2, -18446744073709551614), (3, 18446744073709551615)]?),
        ]?,
    })
}

/// Whether the elimination of A finds that the products are too wide.
fn is_wide(alloc: Global) -> bool {
    let Ok(system) = wide_products(alloc) else {
        return false;
    };
    let end = eliminate(alloc, &system, [0].as_slice(), 0);
    matches!(end, Ok(Eliminated::Wide { rate: 0 }))
}

#[test]
fn products_past_the_limit_are_wide(rt: HostRuntime) {
    assert!(rt; is_wide(rt.alloc()));
}
