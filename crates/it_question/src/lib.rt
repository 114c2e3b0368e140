//! Question files: the lines of a file, and the questions that they ask.
#![tactic(auto)]

mod asking;
mod bodies;
mod cursor;
mod files;
mod laws;
mod lines;
mod names;
mod own;
mod parts;
mod pieces;
mod places;
mod plain;
mod rates;
pub mod readers;
mod region_types;
mod regions;
mod sizes;
mod sorts;
mod tables;
mod texts;
mod tries;
pub mod types;
mod words;

pub use files::questions;
pub use laws::{
    file_has_one, file_is_one, questions_stand_alone, text_reads_back, texts_are_ascii,
};
pub use plain::first_line;
pub use sizes::FileLimits;
pub use tables::{line_constraints, region_constraints};
pub use types::{FileFault, OwnLines, Question, Region, Verb};
