//! The inequalities over closed sets that suffice.
//!
//! The covers of a closed set K are the least closed sets above it. A function on closed sets is nondecreasing and submodular if
//!
//! - h(A) + h(B) >= h(J) + h(K) for each closed set K and each two covers A and B of K, where J is the closure of their union, and
//! - h(A) >= h(K) for each closed set K with a single cover A, which is the first inequality with A in place of B.
//!
//! Over closed sets each elemental inequality is a sum of these. In I(X;Y|K) with K closed, let A be the closure of K and X. If A is no
//! cover of K, there is a cover of K in A, the closure of K and some Z, and I(X;Y|K) is the sum of I(Z;Y|K) and of I(X;Y|K,Z), whose
//! given set is larger. And if K has a second cover B, h(A) >= h(K) is the sum of the inequality of A and B and of h(J) >= h(B).

use crate::closures::{Closures, with};
use it_orbits::Submodular;
use it_space::VarSet;
use std::alloc::{AllocError, Global};

/// Whether `above` is a cover of the closed set `below`, and the closure of it with variable `first`, but with no variable before that.
fn is_cover_by(closures: &Closures, below: VarSet, above: VarSet, first: u8) -> bool {
    if above == below {
        return false;
    }
    let between = above.minus(below);
    for i in 0..closures.variables() {
        if between.has(i) && (i < first || closures.of(with(below, i)) != above) {
            return false;
        }
    }
    true
}

/// The covers of the closed set `below`.
fn covers(alloc: Global, closures: &Closures, below: VarSet) -> Result<Vec<VarSet>, AllocError> {
    let mut covers = Vec::new(alloc);
    for i in 0..closures.variables() {
        let above = closures.of(with(below, i));
        if is_cover_by(closures, below, above, i) {
            covers.push(above)?;
        }
    }
    Ok(covers)
}

/// Appends the inequality of each two of `covers`, the covers of `given`, or of a single one with itself.
fn push_pairs(
    inequalities: &mut Vec<Submodular>,
    covers: &[VarSet],
    given: VarSet,
) -> Result<(), AllocError> {
    // a single cover has no other
    let apart = usize::from(covers.len() != 1);
    for i in 0..covers.len() {
        for j in i + apart..covers.len() {
            inequalities.push(Submodular {
                left: covers[i],
                right: covers[j],
                given,
            })?;
        }
    }
    Ok(())
}

/// The inequalities of the covers of each of `sets`, in their order. `None` if there are more than `most`.
pub fn cover_inequalities(
    alloc: Global,
    closures: &Closures,
    sets: &[VarSet],
    most: usize,
) -> Result<Option<Vec<Submodular>>, AllocError> {
    let mut inequalities = Vec::new(alloc);
    for given in sets {
        let covers = covers(alloc, closures, *given)?;
        push_pairs(&mut inequalities, covers.as_slice(), *given)?;
        if inequalities.len() > most {
            return Ok(None);
        }
    }
    Ok(Some(inequalities))
}
