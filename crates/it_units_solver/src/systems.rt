//! What tests of symmetries share: the systems that they ask about, and how an answer counts.

ghost use Rattle.std.specs.Prelude.{◌≡◌, ◌+◌, ◌≤◌, All, IfOk, length};
ghost use Rattle.it_space.specs.Rows.{IsOver};
ghost use Rattle.it_space.specs.Spaces.{IsSpace};

use it_problems::{Constraint, Kind, Origin, Problem};
use it_space::{Row, Space};
use std::alloc::{AllocError, Global};

/// The row with -1 at the first coordinate and 1 at the second, which is greater and at most `size`; for others the zero row.
fn difference(alloc: Global, size: u32, first: u32, second: u32) -> Result<Row, AllocError>
    ensures { IfOk result (IsOver size) }
{
    if first == 0 || second <= first || size < second {
        return Ok(Row::new(Vec::new(alloc)));
    }
    Ok(Row::new(vec![in alloc; (first, -1), (second, 1)]?))
}

/// The constraint of `row`, as of a `given` line.
fn given(row: Row, kind: Kind) -> Constraint
    ensures { result.row ≡ row }
{
    let origin = Origin::Given {
        line: 1,
        part: 1,
        parts: 1,
    };
    Constraint { row, kind, origin }
}

/// Appends the constraints of a kind that are differences at these coordinates.
fn push_constraints(
    alloc: Global,
    constraints: &mut Vec<Constraint>,
    size: u32,
    kind: Kind,
    pairs: &[(u32, u32)],
) -> Result<(), AllocError>
    requires { All (λ c. IsOver size c.row) constraints.old.items }
    ensures over { IfOk result (λ _. All (λ c. IsOver size c.row) constraints.new.items) }
    ensures count { IfOk result (λ _. length constraints.new.items ≡ length constraints.old.items + length pairs.now) }
{
    for (first, second) in pairs {
        let row = difference(alloc, size, *first, *second)?;
        constraints.push(given(row, kind))?;
    }
    Ok(())
}

/// The problem whose equations and inequalities are differences at these coordinates.
pub fn problem_of(
    alloc: Global,
    space: Space,
    equations: &[(u32, u32)],
    inequalities: &[(u32, u32)],
) -> Result<Problem, AllocError>
    requires space { IsSpace space }
    requires equations { length equations.now ≤ 100 }
    requires inequalities { length inequalities.now ≤ 100 }
    ensures { IfOk result (λ p. p.space ≡ space) }
{
    let mut constraints = Vec::new(alloc);
    let size = space.size();
    push_constraints(alloc, &mut constraints, size, Kind::Equation, equations)?;
    push_constraints(
        alloc,
        &mut constraints,
        size,
        Kind::Inequality,
        inequalities,
    )?;
    Ok(Problem { space, constraints })
}

/// Regenerating codes of four nodes. Variable 3 i + k is what node i sends to the k-th one of the others; what the others send to a node
/// determines what it sends, as a node holds no more. The rates are what a node holds, and what it sends to another one.
pub fn regenerating(alloc: Global) -> Result<Problem, AllocError>
    ensures { IfOk result (λ p. p.space ≡ record { variables = 12; rates = 2 }) }
{
    let equations: &[(u32, u32)] = &[(584, 591), (1153, 1209), (2066, 2514), (292, 3876)];
    let inequalities: &[(u32, u32)] = &[
        (7, 4096),
        (56, 4096),
        (448, 4096),
        (3584, 4096),
        (1, 4097),
        (2, 4097),
        (4, 4097),
        (8, 4097),
        (16, 4097),
        (32, 4097),
        (64, 4097),
        (128, 4097),
        (256, 4097),
        (512, 4097),
        (1024, 4097),
        (2048, 4097),
    ];
    let space = Space {
        variables: 12,
        rates: 2,
    };
    problem_of(alloc, space, equations, inequalities)
}

/// That k of five encoders, variables 5 to 9, determine the first k of five sources, variables 0 to 4, which determine all.
fn decodings(alloc: Global) -> Result<Vec<(u32, u32)>, AllocError>
    ensures { IfOk result (λ v. length v.items ≡ 32) }
{
    let mut pairs = vec![in alloc; (31, 1023)]?;
    for encoders in 1..32u32 {
        let known = encoders.wrapping_shl(5);
        let sources = 1u32.wrapping_shl(encoders.count_ones()).wrapping_sub(1);
        pairs.push((known, known | sources))?;
    }
    Ok(pairs)
}

/// Multilevel coding of five levels, with a rate for each encoder.
pub fn multilevel(alloc: Global) -> Result<Problem, AllocError>
    ensures { IfOk result (λ p. p.space ≡ record { variables = 10; rates = 5 }) }
{
    let equations = decodings(alloc)?;
    let inequalities: &[(u32, u32)] = &[
        (32, 1024),
        (64, 1025),
        (128, 1026),
        (256, 1027),
        (512, 1028),
    ];
    let space = Space {
        variables: 10,
        rates: 5,
    };
    problem_of(alloc, space, equations.as_slice(), inequalities)
}

/// Whether memory sufficed and the answer is yes.
pub fn holds(answer: Result<bool, AllocError>) -> bool {
    matches!(answer, Ok(true))
}
