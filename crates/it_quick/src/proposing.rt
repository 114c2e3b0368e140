//! The proposals of a run about a target.
ghost use Rattle.std.specs.Prelude.{◌≡◌, All, IfOk, length};
ghost use Rattle.std.specs.Option.{IfSome};
ghost use Rattle.it_number.specs.Limit.{IsWithin};
ghost use Rattle.it_space.specs.Spaces.{IsSpace, size_of};
ghost use Rattle.it_quick.specs.Proposals.{IsOfSpace};

use crate::closed::ClosedSets;
use crate::closures::{Closures, Companions};
use crate::lifting::certificate;
use crate::numbers::number_at;
use crate::placed::PlacedProgram;
use crate::places::Places;
use crate::running::End;
use crate::summands::SummandWeight;
use crate::symmetric;
use it_closure::Dependences;
use it_problems::Problem;
use it_space::{Certificate, Point, Row, RowFault, Space};
use std::alloc::{AllocError, Global};

/// A proposal about a target. It may be wrong.
#[derive(Drop)]
pub enum Proposal {
    /// A certificate of the target.
    Yes(Certificate),
    /// A point that refutes the target.
    No(Point),
}

/// The value at `place`.
fn value_at(values: &[i32], place: u16) -> i128
    ensures { IsWithin result }
{
    i128::from(number_at(values, place))
}

/// The values of all `size` coordinates: each has the value at its place.
fn spread(
    alloc: Global,
    places: &Places,
    values: &[i32],
    size: u32,
) -> Result<Vec<i128>, AllocError>
    ensures { IfOk result (λ v. All IsWithin v.items) }
{
    let mut out = Vec::with_capacity(alloc, size as usize)?;
    for k in 0..size {
        out.push(value_at(values, places.of(k.wrapping_add(1))))?;
    }
    Ok(out)
}

/// The point of `values`, if there is one for each coordinate.
fn point(space: Space, values: Vec<i128>) -> Option<Proposal>
    requires space { IsSpace space }
    requires within { All IsWithin values.items }
    ensures { IfSome result (IsOfSpace space) }
{
    if values.len() == space.size() as usize {
        Some(Proposal::No(Point::new(space, values)))
    } else {
        None
    }
}

/// The proposal by weights of summands; `None` if a number is too large.
fn by_weights(
    alloc: Global,
    problem: &Problem,
    dependences: &Dependences,
    target: &Row,
    weights: &[SummandWeight],
) -> Result<Option<Proposal>, AllocError>
    ensures { IfOk result (λ o. IfSome o (IsOfSpace problem.now.space)) }
{
    match certificate(alloc, problem, dependences, target, weights) {
        Ok(certificate) => Ok(Some(Proposal::Yes(certificate))),
        Err(RowFault::Wide) => Ok(None),
        Err(RowFault::Memory) => Err(AllocError),
    }
}

/// The proposal by values at places.
fn by_values(
    alloc: Global,
    problem: &Problem,
    places: &Places,
    values: &[i32],
) -> Result<Option<Proposal>, AllocError>
    ensures { IfOk result (λ o. IfSome o (IsOfSpace problem.now.space)) }
{
    let values = spread(alloc, places, values, problem.size())?;
    Ok(point(problem.space(), values))
}

/// The proposal by the end of a run of `program`; `None` if it gave up.
fn by_end(
    alloc: Global,
    problem: &Problem,
    dependences: &Dependences,
    program: &PlacedProgram,
    target: &Row,
    end: End,
) -> Result<Option<Proposal>, AllocError>
    ensures { IfOk result (λ o. IfSome o (IsOfSpace problem.now.space)) }
{
    match end {
        End::Weights(weights) => {
            let summands = program.summands(alloc, weights.as_slice())?;
            by_weights(alloc, problem, dependences, target, summands.as_slice())
        }
        End::Point(values) => by_values(alloc, problem, program.places(), values.as_slice()),
        End::GaveUp => Ok(None),
    }
}

/// The proposal of a run of at most `steps` steps about `target` by `program`. The run begins at the last basis, and if it then proposes
/// nothing, again from the start.
fn by_program(
    alloc: Global,
    problem: &Problem,
    dependences: &Dependences,
    program: &mut PlacedProgram,
    target: &Row,
    steps: u32,
) -> Result<Option<Proposal>, AllocError>
    ensures { IfOk result (λ o. IfSome o (IsOfSpace problem.now.space)) }
{
    if !program.pose(alloc, problem, target)? {
        return Ok(None);
    }
    let end = program.run_on(alloc, steps)?;
    let proposal = by_end(alloc, problem, dependences, program, target, end)?;
    if proposal.is_some() {
        return Ok(proposal);
    }
    let end = program.run(alloc, steps)?;
    by_end(alloc, problem, dependences, program, target, end)
}

/// The proposal of runs of at most `steps` steps each about `target`, over the orbits under the symmetries.
fn by_symmetry(
    alloc: Global,
    problem: &Problem,
    dependences: &Dependences,
    closures: &Closures,
    target: &Row,
    steps: u32,
) -> Result<Option<Proposal>, AllocError>
    ensures { IfOk result (λ o. IfSome o (IsOfSpace problem.now.space)) }
{
    match symmetric::run(alloc, problem, closures, target, steps)? {
        Some((program, end)) => by_end(alloc, problem, dependences, &program, target, end),
        None => Ok(None),
    }
}

/// The proposal of a run of at most `steps` steps about `target` over closed sets, or if this proposes nothing, of runs over orbits.
fn by_closed_sets(
    alloc: Global,
    problem: &Problem,
    dependences: &Dependences,
    closed: &mut ClosedSets,
    target: &Row,
    steps: u32,
) -> Result<Option<Proposal>, AllocError>
    ensures { IfOk result (λ o. IfSome o (IsOfSpace problem.now.space)) }
{
    if let Some(program) = &mut closed.program {
        let proposal = by_program(alloc, problem, dependences, program, target, steps)?;
        if proposal.is_some() {
            return Ok(proposal);
        }
    }
    by_symmetry(alloc, problem, dependences, &closed.closures, target, steps)
}

/// A problem about whose targets runs are made. The closed sets of one target are kept for the next, which may have the same.
#[derive(Drop)]
pub struct QuickProblem {
    dependences: Dependences,
    kept: Option<ClosedSets>,
}

impl QuickProblem {
    /// The problem before the first run.
    pub fn read(alloc: Global, problem: &Problem) -> Result<QuickProblem, AllocError> {
        Ok(QuickProblem {
            dependences: Dependences::read(alloc, problem)?,
            kept: None,
        })
    }

    /// The closed sets by `companions`: those that were kept, if they are theirs, else new ones.
    fn closed(&mut self, alloc: Global, companions: Companions) -> Result<ClosedSets, AllocError> {
        if let Some(closed) = self.kept.take() {
            if closed.is_of(&companions) {
                return Ok(closed);
            }
        }
        ClosedSets::read(alloc, &self.dependences, companions)
    }

    /// A certificate of `target` or a point that refutes it, proposed by a run of at most `steps` steps, or if this proposes nothing, by
    /// two such runs that use the symmetries. A point has a value for each coordinate; the contract says no more, so the caller has to
    /// check the proposal. If `problem` isn't the one that was read, the dependences are still those of that one.
    pub fn propose(
        &mut self,
        alloc: Global,
        problem: &Problem,
        target: &Row,
        steps: u32,
    ) -> Result<Option<Proposal>, AllocError>
        ensures { IfOk result (λ o. IfSome o (IsOfSpace problem.now.space)) }
    {
        let companions = Companions::read(alloc, &self.dependences, problem, target)?;
        let mut closed = self.closed(alloc, companions)?;
        let proposal = by_closed_sets(
            alloc,
            problem,
            &self.dependences,
            &mut closed,
            target,
            steps,
        )?;
        self.kept = Some(closed);
        Ok(proposal)
    }
}
