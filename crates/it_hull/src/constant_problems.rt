//! The problem in which all variables are constant. Under it no closed set has a coordinate, so that runs are over rates alone.
ghost use Rattle.std.specs.Prelude.{◌≡◌, ◌<◌, IfOk};
ghost use Rattle.it_space.specs.Spaces.{IsSpace, most_variables};
ghost use Rattle.it_hull.specs.Constants.{constant_line, constants};

use it_problems::{Constraint, Kind, Origin, Problem};
use it_space::{Row, Space};
use std::alloc::{AllocError, Global};

/// The constraint of the line that says that `variable`, counted from 0, is constant.
fn constant_line(alloc: Global, variable: u8) -> Result<Constraint, AllocError>
    requires { variable < most_variables }
    ensures { IfOk result (λ c. c ≡ constant_line variable) }
{
    let terms = vec![in alloc; (1u32 << variable, 1)]?;
    Ok(Constraint {
        row: Row::new(terms),
        kind: Kind::Equation,
        origin: Origin::Given {
            line: variable as u16 + 1,
            part: 1,
            parts: 1,
        },
    })
}

/// The problem of a space in which each variable is constant.
pub fn constants(alloc: Global, space: Space) -> Result<Problem, AllocError>
    requires { IsSpace space }
    ensures { IfOk result (λ q. q ≡ constants space) }
{
    let mut constraints = Vec::new(alloc);
    for variable in 0..space.variables {
        let line = constant_line(alloc, variable)?;
        constraints.push(line)?;
    }
    Ok(Problem { space, constraints })
}
