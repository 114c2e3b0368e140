//! Readers of parts of a file, for other files that are made of the same lines. Each takes from the front what it reads; at a
//! fault what is left begins with the piece that the fault is at.

pub use crate::asking::{bodies, file_end};
pub use crate::bodies::Body;
pub use crate::cursor::{Cursor, Line};
pub use crate::files::stop_fault;
pub use crate::lines::file_lines;
pub use crate::names::{names_to_end, new_name};
pub use crate::own::MOST_LINES;
pub use crate::parts::{names_set, relation};
pub use crate::regions::MOST_NAMES;
pub use crate::sorts::NameSort;
pub use crate::texts::with_texts;
pub use crate::words::{after_word, comma, line_end, word};
