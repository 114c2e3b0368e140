//! Rows and proofs in the field's notation, as texts that are read back and judged before they are returned.
#![tactic(auto)]

mod closed;
mod constraints;
mod drafts;
mod equations;
mod finding;
mod folding;
mod joining;
mod judging;
mod laws;
mod line_telling;
mod measures;
mod names;
mod pieces;
mod printing;
mod proof_judging;
mod proven;
mod proving;
mod reading;
mod row_judging;
mod row_origins;
mod row_printing;
mod row_search;
mod shortest;
mod steps;
mod steps_under;
mod substituting;
mod sums;
mod tallies;
mod telling;
mod under;
mod under_judging;
mod untold;
mod writing;

pub use laws::{printed_rows_say, texts_move, told_proves, told_under_proves};
pub use line_telling::told_line;
pub use printing::{PrintedProof, printed_form};
pub use proven::Proven;
pub use proving::told_form;
pub use row_origins::{row_comment, row_origin};
pub use row_printing::{PrintedRow, printed_row};
pub use steps::told_steps;
pub use steps_under::printed_steps;
pub use telling::told_row;
