//! The row that says that a number is a factor between two rows.
ghost use Rattle.std.specs.Prelude.{◌≡◌, ◌++◌, ℕ, IfErr, IfOk, OkIff, OnOk};
ghost use Rattle.it_space.specs.Rows.{single_term};
ghost use Rattle.it_space.specs.Spaces.{IsSpace, size_of};
ghost use Rattle.it_ratio.specs.Sides.{NumberFits, RowForms, SideFits, side_number, side_row};

use it_fraction::{Wide, difference, signed_product};
use it_space::{Row, Space, push_some};
use std::alloc::{AllocError, Global};

/// Why there is no such row: allocation failed, or a number of it, at this coordinate, passes the limit.
#[derive(Clone, Copy)]
pub enum RowStop {
    Memory,
    Wide { coordinate: u32 },
}

impl From<AllocError> for RowStop {
    ghost use Rattle.std.specs.Prelude.{◌≡◌};
    ghost use Rattle.it_ratio.specs.declared.sides.RowStop.TheVariants.{Memory};

    ghost from_gives = { λ _ e. e ≡ Memory };

    fn from(_error: AllocError) -> RowStop {
        RowStop::Memory
    }
}

/// The coefficient at `at` of `num` times `left` less `den` times `right`. `Wide` if a product or the difference passes the limit.
fn side_number(left: &Row, right: &Row, num: &i128, den: &i128, at: u32) -> Result<i128, Wide>
    ensures { OkIff result (NumberFits num.now den.now left.now right.now at) (side_number num.now den.now left.now right.now at) }
{
    let above = signed_product(*num, left.coefficient(at))?;
    let below = signed_product(*den, right.coefficient(at))?;
    difference(above, below)
}

/// Appends the term at `at` of `num` times `left` less `den` times `right`.
fn push_number(
    terms: &mut Vec<(u32, i128)>,
    left: &Row,
    right: &Row,
    num: &i128,
    den: &i128,
    at: u32,
) -> Result<(), RowStop>
    ensures value { OnOk result (terms.new.items ≡ terms.old.items ++ single_term at (side_number num.now den.now left.now right.now at)) }
    ensures fits { OnOk result (NumberFits num.now den.now left.now right.now at) }
    ensures wide { IfErr result (λ e. (c : ℕ) → e ≡ RowStop.Wide c → (c ≡ at) × ¬ (NumberFits num.now den.now left.now right.now at)) }
{
    let Ok(number) = side_number(left, right, num, den, at) else {
        return Err(RowStop::Wide { coordinate: at });
    };
    push_some(terms, at, number)?;
    Ok(())
}

/// `num` times `left` less `den` times `right`, over the coordinates of `space`; `Wide` with the first coordinate at which a number
/// passes the limit.
pub fn side_row(
    alloc: Global,
    space: Space,
    left: &Row,
    right: &Row,
    num: &i128,
    den: &i128,
) -> Result<Row, RowStop>
    requires { IsSpace space }
    ensures forms { RowForms (size_of space) num.now den.now left.now right.now result }
    ensures fits { OnOk result (SideFits (size_of space) num.now den.now left.now right.now) }
    ensures wide { IfErr result (λ e. (c : ℕ) → e ≡ RowStop.Wide c → ¬ (SideFits (size_of space) num.now den.now left.now right.now)) }
{
    let mut terms = Vec::new(alloc);
    for at in 1..space.size() + 1 {
        push_number(&mut terms, left, right, num, den, at)?;
    }
    Ok(Row::new(terms))
}
