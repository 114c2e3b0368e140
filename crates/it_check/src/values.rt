//! The values of generators at a point.
ghost use Rattle.std.specs.Prelude.{◌≡◌, ◌<◌, length};
ghost use Rattle.it_space.specs.Rows.{IsValueOrWide, point_of};
ghost use Rattle.it_space.specs.Spaces.{size_of};
ghost use Rattle.it_elemental.specs.Generators.{generators, generator_at};

use it_elemental::{count, value_at as elemental_value};
use it_fraction::Wide;
use it_problems::Problem;
use it_space::{Point, value};

/// The value of generator `index` at `point`; `Wide` if a product or a partial sum passes the limit.
pub fn generator_value(problem: &Problem, index: u32, point: &Point) -> Result<i128, Wide>
    requires listed { index < length (generators problem.now) }
    requires complete { length point.now ≡ size_of problem.now.space }
    ensures { IsValueOrWide (generator_at (generators problem.now) index).row (point_of point.now) result }
{
    problem.facts();
    let n = problem.space().variables;
    let elementals = count(n);
    if index >= elementals {
        return value(
            &problem.constraints()[(index - elementals) as usize].row,
            point,
        );
    }
    elemental_value(n, index, point)
}
