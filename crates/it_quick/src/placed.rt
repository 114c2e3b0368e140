//! Linear programs about targets, with what their places and columns stand for.

use crate::closures::Closures;
use crate::constraints::{push_constraints, put_right};
use crate::costs::{constraint_cost, inequality_cost};
use crate::implied::{Independence, Part, independences};
use crate::places::Places;
use crate::programs::{Column, Inequality, Program};
use crate::resuming::resumed;
use crate::rows::InverseRow;
use crate::running::{ColumnWeight, End, State};
use crate::summands::{Summand, SummandWeight, of_constraint};
use indexmap::IndexSet;
use it_orbits::Submodular;
use it_problems::Problem;
use it_space::{Row, VarSet};
use std::alloc::{AllocError, Global};

/// A run from the start may make this many times the steps of a run from the basis of an earlier one.
const STEPS_FOR_ONE: u32 = 4;

/// A linear program about a target, the places of coordinates in it, and the inequalities over sets that are its first columns.
#[derive(Drop)]
pub struct PlacedProgram {
    places: Places,
    inequalities: Vec<Submodular>,
    program: Program,
    // the basis at which the last run ended, and the columns of constraints that it had
    last: Option<Vec<InverseRow>>,
    before: Vec<Column>,
}

impl PlacedProgram {
    /// The program at `places` without columns.
    pub fn new(alloc: Global, places: Places) -> Result<PlacedProgram, AllocError> {
        let program = Program::new(alloc, places.width())?;
        Ok(PlacedProgram {
            places,
            inequalities: Vec::new(alloc),
            program,
            last: None,
            before: Vec::new(alloc),
        })
    }

    /// The program at `places` of `inequalities`, of which the first is taken of those at the same places.
    pub fn read(
        alloc: Global,
        places: Places,
        inequalities: &[Submodular],
    ) -> Result<PlacedProgram, AllocError> {
        let mut program = PlacedProgram::new(alloc, places)?;
        let mut met = IndexSet::new(alloc);
        for inequality in inequalities {
            if met.insert(program.next_column(inequality).places())? {
                program.push(*inequality)?;
            }
        }
        Ok(program)
    }

    /// The column of `inequality`, if it is the next one.
    fn next_column(&self, inequality: &Submodular) -> Inequality {
        let left = self.places.of_set(inequality.left);
        let right = self.places.of_set(inequality.right);
        let given = self.places.of_set(inequality.given);
        Inequality {
            plus: left.min(right),
            other_plus: left.max(right),
            minus: self.places.of_set(inequality.left.union(inequality.right)),
            other_minus: given,
            cost: inequality_cost(given, self.inequalities.len()),
        }
    }

    /// Appends the column of `inequality`. The program must have no constraints yet.
    pub fn push(&mut self, inequality: Submodular) -> Result<(), AllocError> {
        let column = self.next_column(&inequality);
        self.program.inequalities.push(column)?;
        self.inequalities.push(inequality)?;
        Ok(())
    }

    /// The number of inequalities.
    pub fn count(&self) -> usize {
        self.inequalities.len()
    }

    /// The places of coordinates.
    pub fn places(&self) -> &Places {
        &self.places
    }

    /// Replaces the columns of constraints by those of `problem`, and the right side by that of `target`. `false` if a number is large.
    pub fn pose(
        &mut self,
        alloc: Global,
        problem: &Problem,
        target: &Row,
    ) -> Result<bool, AllocError> {
        self.program.put_costs_back();
        self.before = std::mem::replace(&mut self.program.others, Vec::new(alloc));
        let is_posed = push_constraints(alloc, &mut self.program, &self.places, problem)?
            && put_right(alloc, &mut self.program, &self.places, target)?;
        if !is_posed {
            // no run has these columns
            self.last = None;
        }
        Ok(is_posed)
    }

    /// Appends the columns of the parts by `sets`, closed sets, of the independences that `problem` has; of those at the same places the
    /// first one's.
    pub fn push_implied(
        &mut self,
        alloc: Global,
        problem: &Problem,
        closures: &Closures,
        sets: &[VarSet],
    ) -> Result<(), AllocError> {
        let mut met = IndexSet::new(alloc);
        for independence in independences(alloc, closures, problem)? {
            for set in sets {
                if let Some(part) = independence.part(closures, *set) {
                    if met.insert(self.next_column(&part.mutual).places())? {
                        self.push_part(alloc, &independence, &part)?;
                    }
                }
            }
        }
        Ok(())
    }

    /// Appends the column of the negation of a part of `independence`.
    fn push_part(
        &mut self,
        alloc: Global,
        independence: &Independence,
        part: &Part,
    ) -> Result<(), AllocError> {
        let entries = self.next_column(&part.mutual).negated(alloc)?;
        let cost = constraint_cost(self.program.columns());
        self.program.others.push(Column {
            entries,
            cost,
            generator: independence.generator,
            negated: independence.negated,
            rest: Some(part.rest),
        })?;
        Ok(())
    }

    /// The end of a run about `target` with the constraints of `problem`, from the start, within `steps` steps.
    pub fn run_about(
        &mut self,
        alloc: Global,
        problem: &Problem,
        target: &Row,
        steps: u32,
    ) -> Result<End, AllocError> {
        if self.pose(alloc, problem, target)? {
            self.run(alloc, steps)
        } else {
            Ok(End::GaveUp)
        }
    }

    /// The end of a run about the target that was posed, from the start, within `steps` steps.
    pub fn run(&mut self, alloc: Global, steps: u32) -> Result<End, AllocError> {
        self.program.put_costs_back();
        let state = State::start(alloc, &self.program)?;
        self.run_from(alloc, state, steps)
    }

    /// The end of a run about the target that was posed, from the basis at which the last run ended, within fewer steps than `steps`. It
    /// gives up if there is no such basis.
    pub fn run_on(&mut self, alloc: Global, steps: u32) -> Result<End, AllocError> {
        let Some(rows) = self.last.take() else {
            return Ok(End::GaveUp);
        };
        match resumed(alloc, rows, self.before.as_slice(), &mut self.program)? {
            Some(state) => self.run_from(alloc, state, steps / STEPS_FOR_ONE),
            None => Ok(End::GaveUp),
        }
    }

    /// The end of a run from `state` within `steps` steps. Its basis is kept for the next run, unless it gives up.
    fn run_from(&mut self, alloc: Global, mut state: State, steps: u32) -> Result<End, AllocError> {
        let end = state.run(alloc, &self.program, steps)?;
        self.last = match end {
            End::GaveUp => None,
            _ => Some(state.into_rows()),
        };
        Ok(end)
    }

    /// The inequality of column `column`, or the one that is added to its constraint.
    fn inequality(&self, column: usize) -> Option<Submodular> {
        match self.inequalities.get(column) {
            Some(inequality) => Some(*inequality),
            None => self.program.other(column)?.rest,
        }
    }

    /// The inequalities that have weights.
    pub fn weighed(
        &self,
        alloc: Global,
        weights: &[ColumnWeight],
    ) -> Result<Vec<Submodular>, AllocError> {
        let mut weighed = Vec::new(alloc);
        for weight in weights {
            if let Some(inequality) = self.inequality(weight.column) {
                weighed.push(inequality)?;
            }
        }
        Ok(weighed)
    }

    /// The weights of what the columns of `weights` stand for.
    pub fn summands(
        &self,
        alloc: Global,
        weights: &[ColumnWeight],
    ) -> Result<Vec<SummandWeight>, AllocError> {
        let mut summands = Vec::with_capacity(alloc, weights.len())?;
        for weight in weights {
            if let Some(inequality) = self.inequality(weight.column) {
                summands.push(SummandWeight::new(Summand::Inequality(inequality), weight))?;
            }
            if let Some(column) = self.program.other(weight.column) {
                summands.push(SummandWeight::new(of_constraint(column), weight))?;
            }
        }
        Ok(summands)
    }
}
