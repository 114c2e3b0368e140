//! Tests: hulls of rays that a judge makes, with rows that are dropped.

ghost use Rattle.std.specs.Prelude.{◌≡◌, ◌∷◌, [], pos, length, IfOk};
ghost use Rattle.it_number.specs.Limit.{IsWithin};
ghost use Rattle.it_spans.specs.Theorems.{AreKept, IsFrame};

use it_check::Verdict;
use it_space::{Certificate, Point, Row, Space};
use it_spans::{Fault, Frame, HullVerdict, RowDrop, Step, check_hull};
use std::alloc::{AllocError, Global};

/// One variable, and R, S and the multipliers' rate, at coordinates 2 to 4.
const FRAME: Frame = Frame {
    space: Space {
        variables: 1,
        rates: 3,
    },
    spare: 2,
    rows: 100,
};

/// A step with the ray at which R is `r` and S is `s`.
fn step(alloc: Global, r: i128, s: i128, drops: Vec<RowDrop>) -> Result<Step, AllocError>
    requires r { IsWithin r }
    requires s { IsWithin s }
    ensures { IfOk result (λ s. length s.ray ≡ 4) }
{
    let ray = Point::new(FRAME.space, vec![in alloc; 0, r, s, 0]?);
    Ok(Step { ray, drops })
}

/// The drop of row number `row`, with the weights `first` of R - S >= 0 and `last` of S >= 0. The generators before them are the one
/// elemental inequality and the equation of the one variable.
fn row_drop(alloc: Global, row: usize, first: i128, last: i128) -> Result<RowDrop, AllocError> {
    let weights = vec![in alloc; (2, first), (3, last)]?;
    Ok(RowDrop {
        row,
        proof: Certificate { scale: 1, weights },
    })
}

/// The verdict on the rows R >= S and S >= 0 as the hull of the rays (1, 0) and (1, 1), with `drops` after the second. By hand: the
/// second ray leaves R - S >= 0, S >= 0 and R >= 0, of which the last is the sum of the other two.
fn verdict(alloc: Global, drops: Vec<RowDrop>) -> Result<HullVerdict, AllocError> {
    let first = step(alloc, 1, 0, Vec::new(alloc))?;
    let second = step(alloc, 1, 1, drops)?;
    let steps = vec![in alloc; first, second]?;
    let rows = vec![in alloc;
        Row::new(vec![in alloc; (2, 1), (3, -1)]?),
        Row::new(vec![in alloc; (3, 1)]?),
    ]?;
    check_hull(
        alloc,
        FRAME,
        [2, 3].as_slice(),
        steps.as_slice(),
        rows.as_slice(),
    )
}

/// The verdict where there is one drop.
fn verdict_on(
    alloc: Global,
    row: usize,
    first: i128,
    last: i128,
) -> Result<HullVerdict, AllocError> {
    let drops = vec![in alloc; row_drop(alloc, row, first, last)?]?;
    verdict(alloc, drops)
}

/// Whether the rows are the hull where R >= 0 is dropped as the sum of the others, and not where it stays.
fn are_hull(alloc: Global) -> bool {
    matches!(verdict_on(alloc, 2, 1, 1), Ok(HullVerdict::Valid))
        && matches!(
            verdict(alloc, Vec::new(alloc)),
            Ok(HullVerdict::OtherRow { place: 2 })
        )
}

/// Whether a wrong weight and a row that isn't there are refused, each with its verdict.
fn are_refused(alloc: Global) -> bool {
    matches!(
        verdict_on(alloc, 2, 1, 2),
        Ok(HullVerdict::Faulty(Fault::Refused {
            ray: 1,
            drop: 0,
            verdict: Verdict::Mismatch {
                coordinate: 3,
                left: 0,
                right: 1,
            },
        }))
    ) && matches!(
        verdict_on(alloc, 3, 1, 1),
        Ok(HullVerdict::Faulty(Fault::NoRow { ray: 1, drop: 0 }))
    )
}

#[test]
fn a_cone_has_the_rows_that_its_drops_leave(rt: HostRuntime) {
    assert!(rt; are_hull(rt.alloc()));
}

#[test]
fn drops_without_a_certificate_are_refused(rt: HostRuntime) {
    assert!(rt; are_refused(rt.alloc()));
}
