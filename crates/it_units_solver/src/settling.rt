//! Tests: inequalities that quick runs settle, and proposals turned wrong, which the check refuses. Regenerating codes of four nodes have
//! too many inequalities over closed sets for a run over these: what is settled about them, runs over orbits propose.

ghost use Rattle.std.specs.Prelude.{All, IfOk};
ghost use Rattle.it_number.specs.Limit.{IsWithin};
ghost use Rattle.it_space.specs.Rows.{IsOver};
ghost use Rattle.it_space.specs.Spaces.{size_of};

use crate::systems::{holds, multilevel, regenerating};
use it_check::{Verdict, check_no, check_yes};
use it_problems::Problem;
use it_prove::{Proof, QUICK_STEPS, settle};
use it_quick::QuickProblem;
use it_space::{Certificate, Point, Row};
use std::alloc::{AllocError, Global};

/// The number of the set of all variables of regenerating codes, the file.
const FILE: u32 = 4095;

/// How many coordinates regenerating codes have: sets, and after these two rates.
const SIZE: u32 = 4097;

/// That regenerating codes of four nodes have 4 a + 6 b >= 3 B, for a file B of which a node holds a and sends b (C. Tian,
/// "Characterizing the rate region of the (4,3,3) exact-repair regenerating codes", 2014).
fn known_bound(alloc: Global) -> Result<Row, AllocError>
    ensures { IfOk result (IsOver 4097) }
{
    Ok(Row::new(vec![in alloc; (FILE, -3), (4096, 4), (4097, 6)]?))
}

/// That they have 4 a + 6 b >= 4 B, which is false: at a = 1/2 B, b = 1/6 B (repair by transfer) the left side is 3 B.
fn false_bound(alloc: Global) -> Result<Row, AllocError>
    ensures { IfOk result (IsOver 4097) }
{
    Ok(Row::new(vec![in alloc; (FILE, -4), (4096, 4), (4097, 6)]?))
}

/// What a quick run settles about `target`.
fn settled(alloc: Global, problem: &Problem, target: &Row) -> Result<Option<Proof>, AllocError>
    requires target { IsOver (size_of problem.now.space) target.now }
{
    let mut quick = QuickProblem::read(alloc, problem)?;
    settle(alloc, &mut quick, problem, target, QUICK_STEPS)
}

/// Whether a quick run proves the known bound.
fn known_bound_is_proved(alloc: Global) -> Result<bool, AllocError> {
    let problem = regenerating(alloc)?;
    let proof = settled(alloc, &problem, &known_bound(alloc)?)?;
    Ok(matches!(proof, Some(Proof::Yes(_))))
}

/// Whether a quick run refutes the false bound.
fn false_bound_is_refuted(alloc: Global) -> Result<bool, AllocError> {
    let problem = regenerating(alloc)?;
    let proof = settled(alloc, &problem, &false_bound(alloc)?)?;
    Ok(matches!(proof, Some(Proof::No(_))))
}

/// That multilevel coding has R1 + .. + R5 >= 5 (H1 + H2/2 + .. + H5/5), times 12, where Hk is the entropy of source k given those before
/// (J. R. Roche, R. W. Yeung, K. P. Hau, "Symmetrical multilevel diversity coding", 1997).
fn sum_bound(alloc: Global) -> Result<Row, AllocError>
    ensures { IfOk result (IsOver 1028) }
{
    let terms = vec![in alloc;
        (1, -30),
        (3, -10),
        (7, -5),
        (15, -3),
        (31, -12),
        (1024, 12),
        (1025, 12),
        (1026, 12),
        (1027, 12),
        (1028, 12),
    ]?;
    Ok(Row::new(terms))
}

/// Whether a quick run proves the bound of the sum.
fn sum_bound_is_proved(alloc: Global) -> Result<bool, AllocError> {
    let problem = multilevel(alloc)?;
    let proof = settled(alloc, &problem, &sum_bound(alloc)?)?;
    Ok(matches!(proof, Some(Proof::Yes(_))))
}

/// Whether the check finds `certificate` valid with the weight at `place`, if there is one, left out.
fn is_valid_without(
    alloc: Global,
    problem: &Problem,
    target: &Row,
    certificate: &Certificate,
    place: usize,
) -> Result<bool, AllocError>
    requires target { IsOver (size_of problem.now.space) target.now }
{
    let mut weights = Vec::from_slice(alloc, certificate.weights.as_slice())?;
    if place < weights.len() {
        weights.remove(place);
    }
    let scale = certificate.scale;
    let verdict = check_yes(problem, target, &Certificate { scale, weights });
    Ok(verdict == Verdict::Valid)
}

/// Whether the certificate of the known bound is valid, and with any one of its weights left out isn't.
fn each_weight_is_needed(alloc: Global) -> Result<bool, AllocError> {
    let problem = regenerating(alloc)?;
    let target = known_bound(alloc)?;
    let Some(Proof::Yes(certificate)) = settled(alloc, &problem, &target)? else {
        return Ok(false);
    };
    let count = certificate.weights.len();
    for place in 0..count {
        if is_valid_without(alloc, &problem, &target, &certificate, place)? {
            return Ok(false);
        }
    }
    is_valid_without(alloc, &problem, &target, &certificate, count)
}

/// The value of `point` at `coordinate`; 0 where it has none.
fn value_at(point: &Point, coordinate: u32) -> i128
    ensures { IsWithin result }
{
    if coordinate < 1 || point.values().len() < coordinate as usize {
        0
    } else {
        point.at(coordinate)
    }
}

/// For each of `sources` the value of `point` there, and 0 where it has none.
fn values_at(alloc: Global, point: &Point, sources: &[u32]) -> Result<Vec<i128>, AllocError>
    ensures { IfOk result (λ v. All IsWithin v.items) }
{
    let mut values = Vec::new(alloc);
    for source in sources {
        values.push(value_at(point, *source))?;
    }
    Ok(values)
}

/// Whether the check finds that the point whose value at each coordinate is that of `point` at its source refutes `target`.
fn is_refuted_by(
    alloc: Global,
    problem: &Problem,
    target: &Row,
    point: &Point,
    sources: &[u32],
) -> Result<bool, AllocError>
    requires target { IsOver (size_of problem.now.space) target.now }
{
    let values = values_at(alloc, point, sources)?;
    if values.len() != problem.size() as usize {
        return Ok(false);
    }
    let turned = Point::new(problem.space(), values);
    Ok(check_no(problem, target, &turned) == Verdict::Valid)
}

/// Each coordinate.
fn own_sources(alloc: Global) -> Result<Vec<u32>, AllocError> {
    let mut sources = Vec::new(alloc);
    for coordinate in 1..=SIZE {
        sources.push(coordinate)?;
    }
    Ok(sources)
}

/// For each set the less of it and of its image where two variables are exchanged: what node 0 sends to node 1, variable 0, and what that
/// sends to node 2, variable 4. (An exchange of what two nodes send to each other may change nothing: in repair by transfer it is the same.)
fn exchanged_sources(alloc: Global) -> Result<Vec<u32>, AllocError> {
    let mut sources = Vec::new(alloc);
    for coordinate in 1..=SIZE {
        let has_one = (coordinate & 1 == 0) != (coordinate & 16 == 0);
        let image = if has_one && coordinate <= FILE {
            coordinate ^ 17
        } else {
            coordinate
        };
        sources.push(coordinate.min(image))?;
    }
    Ok(sources)
}

/// Each coordinate but those of the single variables, which make one orbit.
fn sources_without_variables(alloc: Global) -> Result<Vec<u32>, AllocError> {
    let mut sources = Vec::new(alloc);
    for coordinate in 1..=SIZE {
        let is_variable = coordinate <= FILE && coordinate.count_ones() == 1;
        sources.push(if is_variable { 0 } else { coordinate })?;
    }
    Ok(sources)
}

/// Whether the point by which a quick run refutes the false bound does so as it is, and not with the values at `sources`.
fn is_refused_at(alloc: Global, sources: &[u32]) -> Result<bool, AllocError> {
    let problem = regenerating(alloc)?;
    let target = false_bound(alloc)?;
    let Some(Proof::No(point)) = settled(alloc, &problem, &target)? else {
        return Ok(false);
    };
    let own = own_sources(alloc)?;
    Ok(
        is_refuted_by(alloc, &problem, &target, &point, own.as_slice())?
            && !is_refuted_by(alloc, &problem, &target, &point, sources)?,
    )
}

/// Whether that point is refused where it is spread out over the pairs of an exchange that is no symmetry.
fn other_orbits_are_refused(alloc: Global) -> Result<bool, AllocError> {
    is_refused_at(alloc, exchanged_sources(alloc)?.as_slice())
}

/// Whether that point is refused where the values of an orbit are 0.
fn orbits_at_zero_are_refused(alloc: Global) -> Result<bool, AllocError> {
    is_refused_at(alloc, sources_without_variables(alloc)?.as_slice())
}

#[test]
fn a_bound_of_regenerating_codes_is_proved(rt: HostRuntime) {
    assert!(rt; holds(known_bound_is_proved(rt.alloc())));
}

#[test]
fn a_false_bound_of_regenerating_codes_is_refuted(rt: HostRuntime) {
    assert!(rt; holds(false_bound_is_refuted(rt.alloc())));
}

#[test]
fn the_bound_of_multilevel_coding_is_proved(rt: HostRuntime) {
    assert!(rt; holds(sum_bound_is_proved(rt.alloc())));
}

#[test]
fn a_certificate_needs_each_of_its_weights(rt: HostRuntime) {
    assert!(rt; holds(each_weight_is_needed(rt.alloc())));
}

#[test]
fn a_point_spread_out_over_other_orbits_is_refused(rt: HostRuntime) {
    assert!(rt; holds(other_orbits_are_refused(rt.alloc())));
}

#[test]
fn a_point_with_an_orbit_at_zero_is_refused(rt: HostRuntime) {
    assert!(rt; holds(orbits_at_zero_are_refused(rt.alloc())));
}
