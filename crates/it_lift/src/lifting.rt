//! The lift of a certificate.
ghost use Rattle.std.specs.Prelude.{[], ◌≢◌, ◌≡◌, ◌<◌, ◌≤◌, ◌+◌, ◌-◌, pos, length, All, OnOk, IfOk, IfErr};
ghost use Rattle.it_space.specs.Answers.{certificate_view};
ghost use Rattle.it_space.specs.Rows.{IsOver};
ghost use Rattle.it_space.specs.Spaces.{size_of};
ghost use Rattle.it_polymatroid.specs.Elementals.{elementals};
ghost use Rattle.it_elemental.specs.Generators.{generators_of};
ghost use Rattle.it_lift.specs.LiftedCertificates.{IsCertificateOverClosed, AreDependencesOf, FitsLift, IsLiftOf, IsLiftWide};
ghost use Rattle.it_lift.specs.ProblemLifts.{all_moves, nonempty_moves, ExcessesFit, MovesFit};
ghost use Rattle.it_lift.specs.Sums.{AreWeightsAdded, AreSumsWide};

use crate::excesses::{empty_excess, excess};
use crate::moves::add_moves;
use crate::sums::WeightSums;
use it_closure::Dependences;
use it_elemental::count;
use it_problems::Problem;
use it_space::{Certificate, Row, RowFault, VarSet};
use std::alloc::Global;

/// The certificate over all sets that `collapsed`, a certificate over closed sets, represents: the excess at each set is moved to its
/// closure, by inequalities and equations between the two. Without dependences it is a copy of `collapsed`. `Wide` if a number passes
/// the limit.
pub fn lift(
    alloc: Global,
    problem: &Problem,
    dependences: &Dependences,
    target: &Row,
    collapsed: &Certificate,
) -> Result<Certificate, RowFault>
    requires dependences { AreDependencesOf problem.now dependences.now }
    requires target { IsOver (size_of problem.now.space) target.now }
    requires sums { IsCertificateOverClosed problem.now dependences.now target.now (certificate_view collapsed.now) }
    ensures unchanged { IfOk result (λ c. dependences.now.list ≡ [] → certificate_view c ≡ certificate_view collapsed.now) }
    ensures fits { OnOk result (dependences.now.list ≢ [] → FitsLift problem.now dependences.now target.now (certificate_view collapsed.now)) }
    ensures nonzero { IfOk result (λ c. dependences.now.list ≢ [] → All (λ p. p.1 ≢ pos 0) (certificate_view c).weights) }
    ensures lifted { IfOk result (λ c. IsLiftOf problem.now dependences.now target.now (certificate_view collapsed.now) (certificate_view c)) }
    ensures wide { IfErr result (λ f. f ≡ RowFault.Wide → IsLiftWide problem.now dependences.now target.now (certificate_view collapsed.now)) }
{
    problem.facts();
    if dependences.list().is_empty() {
        return Ok(collapsed.copy(alloc)?);
    }
    lift_all(alloc, problem, dependences, target, collapsed)
}

/// Like `lift`, without the shortcut for no dependences.
fn lift_all(
    alloc: Global,
    problem: &Problem,
    dependences: &Dependences,
    target: &Row,
    collapsed: &Certificate,
) -> Result<Certificate, RowFault>
    requires dependences { AreDependencesOf problem.now dependences.now }
    requires target { IsOver (size_of problem.now.space) target.now }
    requires sums { IsCertificateOverClosed problem.now dependences.now target.now (certificate_view collapsed.now) }
    ensures fits { OnOk result (FitsLift problem.now dependences.now target.now (certificate_view collapsed.now)) }
    ensures nonzero { IfOk result (λ c. All (λ p. p.1 ≢ pos 0) (certificate_view c).weights) }
    ensures lifted { IfOk result (λ c. IsLiftOf problem.now dependences.now target.now (certificate_view collapsed.now) (certificate_view c)) }
    ensures wide { IfErr result (λ f. f ≡ RowFault.Wide → ¬ (FitsLift problem.now dependences.now target.now (certificate_view collapsed.now))) }
{
    problem.facts();
    let count = count(problem.space().variables) as usize + problem.constraints().len();
    let mut sums = WeightSums::start(alloc, count, collapsed.weights.as_slice())?;
    add_all(alloc, &mut sums, problem, dependences, target, collapsed)?;
    Ok(Certificate {
        scale: collapsed.scale,
        weights: sums.weights(alloc)?,
    })
}

/// Adds to the weights of the generators that cancel the excesses at all sets.
fn add_all(
    alloc: Global,
    sums: &mut WeightSums,
    problem: &Problem,
    dependences: &Dependences,
    target: &Row,
    collapsed: &Certificate,
) -> Result<(), RowFault>
    requires space { dependences.now.space ≡ problem.now.space }
    requires listed { All (λ p. p.0 < (generators_of problem.now).count) collapsed.now.weights.items }
    requires places { All (λ d. d.generator < length sums.old) dependences.now.list }
    requires complete { length (elementals dependences.now.space.variables) ≤ length sums.old }
    ensures before { OnOk result (ExcessesFit problem.now dependences.now target.now collapsed.now) }
    ensures added { OnOk result (AreWeightsAdded sums.old sums.new (all_moves problem.now dependences.now target.now collapsed.now)) }
    ensures wide { IfErr result (λ f. f ≡ RowFault.Wide → ¬ (MovesFit problem.now dependences.now target.now collapsed.now sums.old)) }
{
    let empty = empty_excess(problem, dependences, target, collapsed)?;
    add_moves(alloc, sums, dependences, VarSet::empty(), empty)?;
    add_others(alloc, sums, problem, dependences, target, collapsed)?;
    Ok(())
}

/// Like `add_all`, for the nonempty sets.
fn add_others(
    alloc: Global,
    sums: &mut WeightSums,
    problem: &Problem,
    dependences: &Dependences,
    target: &Row,
    collapsed: &Certificate,
) -> Result<(), RowFault>
    requires space { dependences.now.space ≡ problem.now.space }
    requires listed { All (λ p. p.0 < (generators_of problem.now).count) collapsed.now.weights.items }
    requires places { All (λ d. d.generator < length sums.old) dependences.now.list }
    requires complete { length (elementals dependences.now.space.variables) ≤ length sums.old }
    requires before { ExcessesFit problem.now dependences.now target.now collapsed.now }
    ensures added { OnOk result (AreWeightsAdded sums.old sums.new (nonempty_moves problem.now dependences.now target.now collapsed.now)) }
    ensures wide { IfErr result (AreSumsWide sums.old (nonempty_moves problem.now dependences.now target.now collapsed.now)) }
{
    problem.facts();
    for number in 1..1u32 << problem.space().variables {
        let set = VarSet::from_number(number as u16);
        let left = excess(problem, target, collapsed, set)?;
        add_moves(alloc, sums, dependences, set, left)?;
    }
    Ok(())
}
