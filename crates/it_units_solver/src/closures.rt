//! Tests: closures by functions of functions.

ghost use Rattle.std.specs.Prelude.{◌≡◌, IfOk};
ghost use Rattle.it_problems.specs.Problems.{IsProblem};

use it_closure::Dependences;
use it_problems::{Constraint, Kind, Origin, Problem};
use it_space::{Row, Space, VarSet};
use std::alloc::{AllocError, Global};

/// Three variables and no rates.
const SPACE: Space = Space {
    variables: 3,
    rates: 0,
};

/// The equation of a `given` line that has no other.
fn equation(row: Row, line: u16) -> Constraint
    ensures { result ≡ record { row = row; kind = Kind.Equation; origin = Origin.Given line 1 1 } }
{
    let origin = Origin::Given {
        line,
        part: 1,
        parts: 1,
    };
    Constraint {
        row,
        kind: Kind::Equation,
        origin,
    }
}

/// Y is a function of X, and Z is one of Y.
fn functions(alloc: Global) -> Result<Problem, AllocError>
    ensures problem { IfOk result (λ p. IsProblem p) }
    ensures space { IfOk result (λ p. p.space ≡ record { variables = 3; rates = 0 }) }
{
    let first = equation(Row::new(vec![in alloc; (1, -1), (3, 1)]?), 1);
    let second = equation(Row::new(vec![in alloc; (2, -1), (6, 1)]?), 2);
    Ok(Problem {
        space: SPACE,
        constraints: vec![in alloc; first, second]?,
    })
}

/// The dependences that these functions make.
fn dependences(alloc: Global) -> Result<Dependences, AllocError>
    ensures { IfOk result (λ d. d.space ≡ record { variables = 3; rates = 0 }) }
{
    let problem = functions(alloc)?;
    Dependences::read(alloc, &problem)
}

/// Whether X closes to all three variables, and the closed sets are these.
fn closes(alloc: Global, dependences: &Dependences, sets: &[u32]) -> bool
    requires { dependences.now.space ≡ record { variables = 3; rates = 0 } }
{
    match dependences.closed(alloc, SPACE) {
        Ok(closed) => {
            closed.as_slice() == sets
                && dependences.close(VarSet::single(0)) == VarSet::from_number(7)
        }
        Err(_) => false,
    }
}

/// Whether h(X,Z) - h(X) is 0 over closed sets.
fn vanishes(alloc: Global, dependences: &Dependences) -> bool
    requires { dependences.now.space ≡ record { variables = 3; rates = 0 } }
{
    let Ok(terms) = Vec::from_slice(alloc, &[(1, -1), (5, 1)]) else {
        return false;
    };
    match dependences.collapse(alloc, &Row::new(terms)) {
        Ok(collapsed) => collapsed.is_zero(),
        Err(_) => false,
    }
}

/// Whether functions of functions close, and a conditional entropy of one vanishes.
fn are_functions(alloc: Global) -> bool {
    match dependences(alloc) {
        Ok(dependences) => {
            closes(alloc, &dependences, &[4, 6, 7]) && vanishes(alloc, &dependences)
        }
        Err(_) => false,
    }
}

#[test]
fn functions_of_functions_close_and_collapse(rt: HostRuntime) {
    assert!(rt; are_functions(rt.alloc()));
}
