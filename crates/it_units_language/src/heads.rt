//! Tests: the head of a file, with where the questions begin.

use crate::fixtures::LONGEST_FILE;
use it_copy::head;
use it_copy::types::{CopyLine, Head};
use std::alloc::Global;

/// Whether `names` are the names `want`, in order.
fn are_names(names: &[Vec<u8>], want: &[&[u8]]) -> bool {
    if names.len() != want.len() {
        return false;
    }
    for i in 0..want.len() {
        if names[i].as_slice() != want[i] {
            return false;
        }
    }
    true
}

/// Whether a line asks for the copy `fresh` of the variable `old` over the set `over`.
fn is_copy(line: &CopyLine, fresh: &[u8], old: &[u8], over: &[&[u8]]) -> bool {
    line.fresh.as_slice() == fresh
        && line.old.as_slice() == old
        && are_names(line.over.as_slice(), over)
}

/// Whether a head is R, a copy of A over C and D, then S, a copy of R over the empty set, and the questions begin at byte `from` after
/// `skipped` lines.
fn is_of_two(head: &Head, from: usize, skipped: u32) -> bool {
    let lines = head.lines.as_slice();
    lines.len() == 2
        && is_copy(&lines[0], b"R", b"A", &[b"C", b"D"])
        && is_copy(&lines[1], b"S", b"R", &[])
        && head.from == from
        && head.skipped == skipped
}

/// Whether a file has the head of two copies.
fn has_two(alloc: Global, file: &[u8], from: usize, skipped: u32) -> bool {
    if file.len() > LONGEST_FILE {
        return false;
    }
    match head(alloc, file) {
        Ok(head) => is_of_two(&head, from, skipped),
        Err(_) => false,
    }
}

/// Whether the head ends before the first line that begins with `vars`, after blank lines and comments; in a file that has none, with
/// the file.
fn end_with_questions(alloc: Global) -> bool {
    let asking =
        b"copy R of A over C, D\n\ncopy S of R over 0\n# and then\n vars A, B, C, D\nprove H(A) >= 0\n";
    let alone = b"copy R of A over C, D\ncopy S of R over 0";
    has_two(alloc, asking, 53, 4) && has_two(alloc, alone, 40, 2)
}

#[test]
fn a_head_ends_where_the_questions_begin(rt: HostRuntime) {
    assert!(rt; end_with_questions(rt.alloc()));
}
