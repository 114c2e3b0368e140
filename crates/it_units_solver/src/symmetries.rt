//! Tests: how many symmetries questions have, and what these make of sets, of rates and of inequalities. The orders of the groups are
//! those of the systems: nodes or encoders may be permuted in all ways, and a hexagon turned and reflected. How many orbits there are
//! comes from a listing of all images by another program.

use crate::systems::{holds, multilevel, problem_of, regenerating};
use indexmap::IndexSet;
use it_closure::Dependences;
use it_orbits::{Orbits, Permutation, Submodular, images, symmetries};
use it_problems::Problem;
use it_space::{Row, Space, VarSet};
use std::alloc::{AllocError, Global};

/// How many nodes a search may visit.
const NODES: u32 = 10_000;

/// How many elements of a group are listed.
const MOST: usize = 200;

/// Sharing on a hexagon: two neighbors of six parties, variables 1 to 6, know the secret, variable 0.
fn hexagon(alloc: Global) -> Result<Problem, AllocError> {
    let equations: &[(u32, u32)] = &[(6, 7), (12, 13), (24, 25), (48, 49), (96, 97), (66, 67)];
    let space = Space {
        variables: 7,
        rates: 0,
    };
    problem_of(alloc, space, equations, &[])
}

/// The shares of a hexagon less the secret.
fn shares(alloc: Global) -> Result<Row, AllocError> {
    let terms = vec![in alloc; (1, -1), (2, 1), (4, 1), (8, 1), (16, 1), (32, 1), (64, 1)]?;
    Ok(Row::new(terms))
}

/// The images of variables under `by`, of their images under what was before.
fn images_after(alloc: Global, before: &[u8], by: &Permutation) -> Result<Vec<u8>, AllocError> {
    let mut images = Vec::with_capacity(alloc, before.len())?;
    for variable in before {
        images.push(by.of_variable(*variable))?;
    }
    Ok(images)
}

/// The variables, each as its own image.
fn own_images(alloc: Global, variables: u8) -> Result<Vec<u8>, AllocError> {
    let mut images = Vec::new(alloc);
    for variable in 0..variables {
        images.push(variable)?;
    }
    Ok(images)
}

/// How many permutations of variables `generators` generate, up to `MOST`.
fn order(alloc: Global, variables: u8, generators: &[Permutation]) -> Result<usize, AllocError> {
    let mut group = IndexSet::new(alloc);
    group.insert(own_images(alloc, variables)?)?;
    for place in 0..MOST {
        let Some(element) = group.get_index(place) else {
            return Ok(place);
        };
        let element = Vec::from_slice(alloc, element.as_slice())?;
        for generator in generators {
            group.insert(images_after(alloc, element.as_slice(), generator)?)?;
        }
    }
    Ok(MOST)
}

/// The closure of each set of the variables of `problem`.
fn closures(alloc: Global, problem: &Problem) -> Result<Vec<VarSet>, AllocError> {
    let dependences = Dependences::read(alloc, problem)?;
    let mut closures = Vec::new(alloc);
    for number in 0..1u32.wrapping_shl(u32::from(problem.space().variables)) {
        let set = VarSet::from_number(u16::try_from(number).unwrap_or(0));
        closures.push(dependences.close(set))?;
    }
    Ok(closures)
}

/// How many of the sets with numbers below `sets` stand for orbits: are closed, and the least of their orbits.
fn standing_sets(orbits: &Orbits, sets: usize) -> u32 {
    let mut count: u32 = 0;
    for number in 0..sets {
        let set = VarSet::from_number(u16::try_from(number).unwrap_or(0));
        if orbits.of_set(set) == set {
            count = count.wrapping_add(1);
        }
    }
    count
}

/// How many of the first `rates` rates are the least of their orbits.
fn standing_rates(orbits: &Orbits, rates: u8) -> u32 {
    let mut count: u32 = 0;
    for rate in 0..rates {
        if orbits.of_rate(rate) == rate {
            count = count.wrapping_add(1);
        }
    }
    count
}

/// Whether the permutations generate a group of `elements` elements, under which closed sets make `sets` orbits, and rates `rates`.
fn have_counts(
    alloc: Global,
    problem: &Problem,
    permutations: &[Permutation],
    elements: usize,
    sets: u32,
    rates: u32,
) -> Result<bool, AllocError> {
    let closures = closures(alloc, problem)?;
    let orbits = Orbits::read(alloc, closures.as_slice(), problem.rates(), permutations)?;
    let count = order(alloc, problem.space().variables, permutations)?;
    Ok(
        count == elements
            && standing_sets(&orbits, closures.len()) == sets
            && standing_rates(&orbits, problem.rates()) == rates,
    )
}

/// Whether the four nodes may be permuted.
fn nodes_are_permuted(alloc: Global) -> Result<bool, AllocError> {
    let problem = regenerating(alloc)?;
    let target = Row::new(vec![in alloc; (4095, -1), (4096, 1), (4097, 1)]?);
    let found = symmetries(alloc, &problem, &target, NODES)?;
    have_counts(alloc, &problem, found.as_slice(), 24, 135, 2)
}

/// Whether the five encoders may be permuted with their rates.
fn encoders_are_permuted(alloc: Global) -> Result<bool, AllocError> {
    let problem = multilevel(alloc)?;
    let target = Row::new(vec![in alloc; (1024, 1), (1025, 1), (1026, 1), (1027, 1), (1028, 1)]?);
    let found = symmetries(alloc, &problem, &target, NODES)?;
    have_counts(alloc, &problem, found.as_slice(), 120, 58, 1)
}

/// Whether the hexagon may be turned and reflected.
fn hexagon_is_turned(alloc: Global) -> Result<bool, AllocError> {
    let problem = hexagon(alloc)?;
    let found = symmetries(alloc, &problem, &shares(alloc)?, NODES)?;
    have_counts(alloc, &problem, found.as_slice(), 12, 18, 0)
}

/// Whether a search without nodes finds nothing.
fn nothing_is_found_without_nodes(alloc: Global) -> Result<bool, AllocError> {
    let problem = hexagon(alloc)?;
    let found = symmetries(alloc, &problem, &shares(alloc)?, 0)?;
    Ok(found.is_empty())
}

/// How many images the mutual information of two sets has, if these are at most `most`.
fn image_count(
    alloc: Global,
    permutations: &[Permutation],
    left: u16,
    right: u16,
    most: usize,
) -> Result<Option<usize>, AllocError> {
    let inequality = Submodular::new(
        VarSet::from_number(left),
        VarSet::from_number(right),
        VarSet::empty(),
    );
    match images(alloc, inequality, permutations, most)? {
        Some(images) => Ok(Some(images.len())),
        None => Ok(None),
    }
}

/// Whether the hexagon has six edges, six short diagonals and three long ones, and more than five of the first are told.
fn pairs_are_counted(alloc: Global) -> Result<bool, AllocError> {
    let problem = hexagon(alloc)?;
    let found = symmetries(alloc, &problem, &shares(alloc)?, NODES)?;
    let edges = image_count(alloc, found.as_slice(), 2, 4, 6)?;
    let short = image_count(alloc, found.as_slice(), 2, 8, 6)?;
    let long = image_count(alloc, found.as_slice(), 2, 16, 6)?;
    let many = image_count(alloc, found.as_slice(), 2, 4, 5)?;
    Ok(edges == Some(6) && short == Some(6) && long == Some(3) && many.is_none())
}

#[test]
fn symmetries_of_known_systems_are_found(rt: HostRuntime) {
    assert!(rt; holds(nodes_are_permuted(rt.alloc())));
    assert!(rt; holds(encoders_are_permuted(rt.alloc())));
    assert!(rt; holds(hexagon_is_turned(rt.alloc())));
}

#[test]
fn a_search_without_nodes_finds_nothing(rt: HostRuntime) {
    assert!(rt; holds(nothing_is_found_without_nodes(rt.alloc())));
}

#[test]
fn a_hexagon_has_three_kinds_of_pairs(rt: HostRuntime) {
    assert!(rt; holds(pairs_are_counted(rt.alloc())));
}
