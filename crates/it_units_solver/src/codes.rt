//! Tests: entropies of linear codes.

ghost use Rattle.std.specs.Prelude.{◌≡◌, length, IfOk};
ghost use Rattle.it_codes.specs.Codes.{variables_of};

use it_codes::{Field, LinearCode, Variable, entropies_of, first_other};
use it_space::{Point, Space};
use std::alloc::{AllocError, Global};

/// A variable that is one function of two symbols, with the coefficients `first` and `second`.
fn variable(alloc: Global, first: u8, second: u8) -> Result<Variable, AllocError> {
    let function = vec![in alloc; first, second]?;
    let functions = vec![in alloc; function]?;
    Ok(Variable { functions })
}

/// The code of two symbols a and b with the variables a, b, a + b, a + 2 b.
fn code(alloc: Global, field: Field) -> Result<LinearCode, AllocError>
    ensures { IfOk result (λ c. variables_of c ≡ 4) }
{
    let variables = vec![in alloc;
        variable(alloc, 1, 0)?,
        variable(alloc, 0, 1)?,
        variable(alloc, 1, 1)?,
        variable(alloc, 1, 2)?,
    ]?;
    Ok(LinearCode {
        field,
        symbols: 2,
        variables,
    })
}

/// Twice the point at which each of four variables has entropy 1, and any two or more have entropy 2.
fn twice_any_two(alloc: Global) -> Result<Point, AllocError>
    ensures { IfOk result (λ p. length p ≡ 15) }
{
    let values = vec![in alloc; 2, 2, 4, 2, 4, 4, 4, 2, 4, 4, 4, 4, 4, 4, 4]?;
    let space = Space {
        variables: 4,
        rates: 0,
    };
    Ok(Point::new(space, values))
}

/// The first set whose entropy isn't that of any two of the four; 0 where there is none.
fn first_of_other_entropy(alloc: Global, field: Field) -> Result<u16, AllocError> {
    let code = code(alloc, field)?;
    let point = twice_any_two(alloc)?;
    let other = first_other(alloc, &code, 2, &point)?;
    Ok(other.unwrap_or(0))
}

/// The entropy of a and a + 2 b together; 0 where there is none.
fn outer_two(alloc: Global, field: Field) -> Result<i128, AllocError> {
    let code = code(alloc, field)?;
    match entropies_of(alloc, &code)? {
        Some(point) => Ok(point.at(9)),
        None => Ok(0),
    }
}

/// Whether any two variables determine the message over the field of three elements, and the first and the last are one over that of two.
fn are_by_hand(alloc: Global) -> bool {
    matches!(first_of_other_entropy(alloc, Field::Three), Ok(0))
        && matches!(first_of_other_entropy(alloc, Field::Two), Ok(9))
        && matches!(outer_two(alloc, Field::Three), Ok(2))
        && matches!(outer_two(alloc, Field::Two), Ok(1))
}

#[test]
fn four_lines_in_a_plane_want_three_elements(rt: HostRuntime) {
    assert!(rt; are_by_hand(rt.alloc()));
}
