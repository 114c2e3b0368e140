//! Points over all coordinates from points over closed sets.
ghost use Rattle.std.specs.Prelude.{◌≡◌, ◌++◌, ◌∷◌, [], length, IfErr, IfOk, OnOk, map};
ghost use Rattle.std.specs.List.{zip};
ghost use Rattle.it_space.specs.Rows.{coefficient};
ghost use Rattle.it_space.specs.Spaces.{size_of};
ghost use Rattle.it_closure.specs.Reading.{dependences_of};
ghost use Rattle.it_prove.specs.Closed.{closed_places, spread_point};
ghost use Rattle.it_polymatroid.specs.Elementals.{span};
ghost use Rattle.it_prove.specs.Steps.{AreClosedValues, spread_value};
ghost use Rattle.it_columns.specs.Scaling.{NumbersFit};

use it_closure::Dependences;
use it_columns::{common_scale, scaled_values};
use it_fraction::Fraction;
use it_problems::Problem;
use it_space::{Point, RowFault};
use std::alloc::{AllocError, Global};
use std::marker::Model;

/// A point over closed sets: the value at each of its coordinates, which ascend, and 0 elsewhere.
#[derive(Drop)]
struct ClosedPoint<'a> {
    coordinates: &'a [u32],
    values: &'a [i128],
}

impl<'a> Model for ClosedPoint<'a> {
    ghost use Rattle.std.specs.List.{zip};
    ghost use Rattle.it_space.specs.Rows.{Terms};
    ghost use Rattle.it_prove.specs.Steps.{AreClosedValues};

    ghost Value = { Terms };

    ghost view = { λ p. zip p.coordinates.now p.values.now };

    ghost invariant = { λ p. AreClosedValues p.coordinates.now p.values.now };
}

impl<'a> ClosedPoint<'a> {
    /// The point with `values` at `coordinates`.
    fn new(coordinates: &'a [u32], values: &'a [i128]) -> ClosedPoint<'a>
        requires { AreClosedValues coordinates.now values.now }
        ensures { result ≡ zip coordinates.now values.now }
    {
        ClosedPoint {
            coordinates,
            values,
        }
    }

    /// The value at `place`.
    fn value_at(&self, place: u32) -> i128
        ensures { result ≡ coefficient self.now place }
    {
        match self.coordinates.binary_search(&place) {
            Ok(index) => self.values[index],
            Err(_) => 0,
        }
    }
}

/// Appends the value of `point` at the place of `coordinate`.
fn put_value(
    values: &mut Vec<i128>,
    dependences: &Dependences,
    point: &ClosedPoint<'_>,
    coordinate: u32,
) -> Result<(), AllocError>
    ensures { OnOk result (values.new.items ≡ values.old.items ++ spread_value dependences.now point.now coordinate ∷ []) }
{
    values.push(point.value_at(dependences.place(coordinate)))?;
    Ok(())
}

/// The values at all coordinates, from 1 on: each has the value of `point` at its place.
fn spread_values(
    alloc: Global,
    dependences: &Dependences,
    point: &ClosedPoint<'_>,
) -> Result<Vec<i128>, AllocError>
    ensures { IfOk result (λ v. v.items ≡ map (spread_value dependences.now point.now) (span 1 (size_of dependences.now.space))) }
{
    let size = dependences.space().size();
    let mut values = Vec::with_capacity(alloc, size as usize)?;
    for coordinate in 1..size + 1 {
        put_value(&mut values, dependences, point, coordinate)?;
    }
    Ok(values)
}

/// The point over all coordinates by the run's `point`, which has a value for each coordinate of the run: the values are made whole and
/// spread out. `Wide` if the scale or a value passes the limit.
pub fn whole_point(
    alloc: Global,
    problem: &Problem,
    dependences: &Dependences,
    coordinates: &[u32],
    point: &[Fraction],
) -> Result<Point, RowFault>
    requires space { dependences.now.space ≡ problem.now.space }
    requires list { dependences.now.list ≡ dependences_of problem.now }
    requires coordinates { coordinates.now ≡ closed_places problem.now }
    requires complete { length point.now ≡ length coordinates.now }
    ensures value { IfOk result (λ p. p ≡ spread_point problem.now point.now) }
    ensures fits { OnOk result (NumbersFit point.now) }
    ensures wide { IfErr result (λ f. f ≡ RowFault.Wide → ¬ (NumbersFit point.now)) }
{
    problem.facts();
    let scale = common_scale(point)?;
    let scaled = scaled_values(alloc, point, scale)?;
    let closed = ClosedPoint::new(coordinates, scaled.as_slice());
    let values = spread_values(alloc, dependences, &closed)?;
    Ok(Point::new(problem.space(), values))
}
