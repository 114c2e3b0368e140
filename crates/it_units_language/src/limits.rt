//! Tests: what a file may ask, by the limits of its questions.

use crate::fixtures::LONGEST_FILE;
use it_question::types::FileFault;
use it_question::{FileLimits, questions};
use it_syntax::types::Code;
use std::alloc::Global;

/// A question of twelve names.
const TWELVE: &[u8] = b"vars A, B, C, D, E, F, G, J, K, L, M, N\nprove H(A) >= 0\n";

/// A question of ten names, whose table has more than 4,000,000 entries.
const TEN: &[u8] = b"vars A, B, C, D, E, F, G, J, K, L\nprove H(A) >= 0\n";

/// A containment of ten names and one more.
const ELEVEN_IN_REGIONS: &[u8] =
    b"vars A, B, C, D, E, F, G, J, K, L, M\nrates R\nregion\nregion\ncontain\n";

/// Whether a file asks one question, of so many variables.
fn asks_of(alloc: Global, file: &[u8], limits: FileLimits, variables: u8) -> bool {
    if file.len() > LONGEST_FILE {
        return false;
    }
    match questions(alloc, file, limits) {
        Ok(asked) => asked.len() == 1 && asked[0].space().variables == variables,
        Err(_) => false,
    }
}

/// Whether a file's first fault is `code`, at this line and column.
fn stops_at(
    alloc: Global,
    file: &[u8],
    limits: FileLimits,
    line: u32,
    column: u32,
    code: Code,
) -> bool {
    if file.len() > LONGEST_FILE {
        return false;
    }
    match questions(alloc, file, limits) {
        Ok(_) => false,
        Err(fault) => fault == FileFault::Fault { line, column, code },
    }
}

/// Whether twelve names are read with room for as many and for more, and refused at the first one past fewer.
fn names_count(alloc: Global) -> bool {
    asks_of(alloc, TWELVE, FileLimits::wide(12), 12)
        && asks_of(alloc, TWELVE, FileLimits::wide(16), 12)
        && stops_at(alloc, TWELVE, FileLimits::wide(11), 1, 39, Code::Many)
        && stops_at(alloc, TWELVE, FileLimits::USUAL, 1, 36, Code::Many)
}

/// Whether a large table is refused at the verb by the usual limits alone.
fn entries_count(alloc: Global) -> bool {
    stops_at(alloc, TEN, FileLimits::USUAL, 2, 1, Code::Large)
        && asks_of(alloc, TEN, FileLimits::wide(10), 10)
}

#[test]
fn a_question_has_as_many_names_as_its_file_allows(rt: HostRuntime) {
    assert!(rt; names_count(rt.alloc()));
}

#[test]
fn wide_files_bound_no_table(rt: HostRuntime) {
    assert!(rt; entries_count(rt.alloc()));
}

#[test]
fn containments_have_ten_names_in_any_file(rt: HostRuntime) {
    assert!(rt;
        stops_at(
            rt.alloc(),
            ELEVEN_IN_REGIONS,
            FileLimits::wide(16),
            3,
            1,
            Code::Large
        )
    );
}
