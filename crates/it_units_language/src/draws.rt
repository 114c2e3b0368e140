//! Tests: the first draws of a seed, and where the second question goes on.

use it_gen::questions_of;
use std::alloc::Global;

/// The first two questions of seed 1, worked out apart from the program. The eight draws of the first are 16838, 5758, 10113,
/// 17515, 31051, 5627, 23010 and 7419; modulo 4, 28, 4, 28, 4, 28, 3 and 15 they are 2, 18, 1, 15, 3, 27, 0 and 9.
const TWO_QUESTIONS: &[u8] = b"vars A, B, C, D
prove 3 I(B;C|D) + 2 I(A;D|B,C) + 4 I(C;D|A,B) >= 0 H(B,D)
vars A, B, C, D
prove 1 I(C;D|B) + 2 I(C;D|A,B) + 1 I(B;D) >= 2 H(A,D)
";

/// Whether these two questions are drawn.
fn are_drawn(alloc: Global) -> bool {
    match questions_of(alloc, 1, 2) {
        Ok(file) => file.as_slice() == TWO_QUESTIONS,
        Err(_) => false,
    }
}

#[test]
fn the_second_question_goes_on_where_the_first_ends(rt: HostRuntime) {
    assert!(rt; are_drawn(rt.alloc()));
}
