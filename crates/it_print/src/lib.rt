//! The lines of answers, as bytes: those of the text format, and with them the rows that the proofs use.
#![tactic(auto)]

mod generators;
mod lines;
mod pieces;
mod posed;
mod proof_lines;
mod rows;
mod sets;
mod substitutions;
mod sums;
mod values;

pub use generators::{write_elemental, write_origin};
pub use lines::answer_line;
pub use pieces::{write_between, write_if, write_number, write_signed};
pub use posed::PosedQuestion;
pub use proof_lines::proof_text;
pub use rows::row_text;
pub use sets::write_set;
pub use sums::{sum_text, write_proof};
pub use values::{is_closed, is_told, pair_text, value_of, values_text, write_coordinate};
