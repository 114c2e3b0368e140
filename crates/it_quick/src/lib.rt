//! A quick run about a target: it proposes a certificate of the target or a point that refutes it. Nothing is promised of a proposal
//! but its shape, so the caller has to check it.
//!
//! The columns of its linear program are the elemental inequalities and the constraints, over the sets that are closed under the
//! problem's functional dependences and those that its rows imply; the right side is the target. The run is that of the dual simplex
//! method (C. E. Lemke, "The dual method of solving the linear programming problem", 1954). It begins with a basis of artificial
//! columns, which never enter again once they have left, so that a row that stays 0 takes no step. The leaving row is that of the
//! steepest edge (J. J. Forrest and D. Goldfarb, "Steepest-edge simplex algorithms for linear programming", 1992). The numbers are
//! exact: whole numbers in 32 bits over one denominator for each row; where they don't suffice, the run gives up. A run about another
//! target begins at the basis at which the last run ended, and if that proposes nothing, again from the start.
//!
//! Where there are very many columns, and where such a run gives up, the program is one over the orbits of closed sets under the
//! symmetries of the problem and the target, with fewer inequalities, and with equations that independences imply; the inequalities that
//! have weights there, and their images, are those of a second run without symmetry.
#![tactic(auto)]

mod closed;
mod closures;
mod constraints;
mod costs;
mod covers;
mod implied;
mod lifting;
mod numbers;
mod placed;
mod places;
mod pricing;
mod programs;
mod proposing;
mod resuming;
mod rows;
mod running;
mod summands;
mod symmetric;

pub use proposing::{Proposal, QuickProblem};
