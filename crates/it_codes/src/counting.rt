//! Counts of the messages at which functions are 0.
ghost use Rattle.std.specs.Prelude.{◌≡◌, ◌+◌, ◌*◌, ◌≤◌, ◌^◌, ◌<◌, cond, length, map, IfOk};
ghost use Rattle.std.specs.List.{list_all, range_with_len};
ghost use Rattle.it_codes.specs.Codes.{code_sets, count_around, functions_of, is_zero_at, size, vanishes, zero_set};
ghost use Rattle.it_space.specs.Spaces.{most_variables};

use crate::codes::{LinearCode, Variable};
use std::alloc::{AllocError, Global};

/// Whether the linear function with the coefficients `function` is 0 at `message`, over the field of `size` elements.
fn is_zero_at(size: u32, message: u32, function: &[u8]) -> bool
    requires some { 1 ≤ size }
    requires few { size ≤ 3 }
    ensures { result ≡ is_zero_at size message function.now }
{
    let mut sum = 0;
    let mut left = message;
    for coefficient in function {
        sum = (sum + *coefficient as u32 * (left % size)) % size;
        left = left / size;
    }
    sum == 0
}

/// Whether all of `functions` are 0 at `message`.
fn are_zero_at(size: u32, message: u32, functions: &[Vec<u8>]) -> bool
    requires some { 1 ≤ size }
    requires few { size ≤ 3 }
    ensures { result ≡ list_all (λ f. is_zero_at size message f.items) functions.now }
{
    functions
        .iter()
        .all(|function| is_zero_at(size, message, function.as_slice()))
}

/// Whether all functions of `variable` are 0 at `message`.
fn vanishes(size: u32, message: u32, variable: &Variable) -> bool
    requires some { 1 ≤ size }
    requires few { size ≤ 3 }
    ensures { result ≡ vanishes size message (functions_of variable.now) }
{
    are_zero_at(size, message, variable.functions.as_slice())
}

/// `set` with the variable of place value `place` added if `is_member`.
fn with_place(set: u32, place: u32, is_member: bool) -> u32
    requires set { set < place }
    requires place { place ≤ 2 ^ most_variables }
    ensures value { result ≡ set + place * cond is_member 1 0 }
    ensures below { result < 2 * place }
{
    if is_member { set + place } else { set }
}

/// The set of the variables all of whose functions are 0 at `message`.
fn zero_set(size: u32, message: u32, variables: &[Variable]) -> u16
    requires some { 1 ≤ size }
    requires few { size ≤ 3 }
    requires variables { length variables.now ≤ most_variables }
    ensures { result ≡ zero_set size message (map functions_of variables.now) }
{
    let mut set: u32 = 0;
    let mut place: u32 = 1;
    for variable in variables {
        set = with_place(set, place, vanishes(size, message, variable));
        place *= 2;
    }
    set as u16
}

/// The set of the variables that are 0 at each of the first `count` messages.
fn sets_at(
    alloc: Global,
    size: u32,
    count: u32,
    variables: &[Variable],
) -> Result<Vec<u16>, AllocError>
    requires some { 1 ≤ size }
    requires few { size ≤ 3 }
    requires variables { length variables.now ≤ most_variables }
    ensures { IfOk result (λ v. v.items ≡ map (λ message. zero_set size message (map functions_of variables.now)) (range_with_len 0 count)) }
{
    (0..count)
        .map(|message| zero_set(size, message, variables))
        .collect(alloc)
}

/// The set of the variables that are 0 at each message of `code`.
pub fn zero_sets(alloc: Global, code: &LinearCode) -> Result<Vec<u16>, AllocError>
    ensures { IfOk result (λ v. v.items ≡ code_sets code.now) }
{
    sets_at(
        alloc,
        code.field().size(),
        code.message_count(),
        code.variables(),
    )
}

/// The number of `sets` that contain `set`.
pub fn count_around(set: u16, sets: &[u16]) -> u32
    requires { length sets.now ≤ 4096 }
    ensures { result ≡ count_around set sets.now }
{
    sets.iter().filter(|other| set & **other == set).count() as u32
}
