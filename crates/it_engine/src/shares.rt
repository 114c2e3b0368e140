//! A common multiple of the denominators of the rows that moved, and a bound on the sum of their entries over it.
ghost use Rattle.std.specs.Prelude.{◌≡◌, ◌+◌, ◌*◌, ◌<◌, ◌≤◌, ℕ, length, true};
ghost use Rattle.std.specs.Bool.{OnTrue};
ghost use Rattle.std.specs.Option.{IfSome};
ghost use Rattle.it_engine.specs.Behind.{AddsShare, AreMovedInOrder, AreShares, has_moved, share_of};
ghost use Rattle.it_engine.specs.Tables.{whole_row_at};
ghost use Rattle.it_number.specs.Limit.{signed_limit};

use crate::blocks::{Block, denominator_at, most_at, row_at};
use it_vectors::{common_divisor, short_product, short_sum};
use it_whole::WholeRow;

/// The share of row `q` in `multiple`, a multiple of its denominator: their quotient.
#[inline(always)]
pub fn share_at(rows: &[WholeRow], q: usize, multiple: u64) -> u64
    requires q { q < length rows.now }
    requires some { 0 < (whole_row_at rows.now q).denominator }
    ensures { result ≡ share_of multiple rows.now q }
{
    let denominator = denominator_at(rows, q);
    // most denominators are 1 or the multiple, and divisions are slow
    if denominator == 1 {
        multiple
    } else if denominator == multiple {
        1
    } else {
        multiple / denominator
    }
}

/// A common multiple of denominators, and a bound on the sum of the entries of their rows, each times its row's share of it.
#[derive(Drop, Clone, Copy)]
pub struct Shares {
    /// A common multiple of the denominators.
    pub multiple: u64,
    /// A bound on the sum of the entries, each times its row's share of the multiple.
    pub bound: u64,
}

/// `shares` with `entry` times `share` added to the bound. `None` if that isn't below 2^63.
#[inline(always)]
fn with_share(shares: Shares, entry: u64, share: u64) -> Option<Shares>
    ensures { IfSome result (λ s. (s.multiple ≡ shares.multiple) × (s.bound ≡ shares.bound + entry * share)) }
{
    let part = short_product(entry, share)?;
    let bound = short_sum(shares.bound, part)?;
    Some(Shares {
        multiple: shares.multiple,
        bound,
    })
}

/// The multiple and the bound, both times `factor`. `None` unless both are below 2^63.
fn times_factor(shares: Shares, factor: u64) -> Option<Shares>
    ensures { IfSome result (λ s. (s.multiple < signed_limit) × (s.multiple ≡ shares.multiple * factor) × (s.bound ≡ shares.bound * factor)) }
{
    let multiple = short_product(shares.multiple, factor)?;
    let bound = short_product(shares.bound, factor)?;
    Some(Shares { multiple, bound })
}

/// `shares` with a further row, of denominator `denominator` and with entries up to `entry`. Mostly the denominator divides the multiple,
/// which then stays. `None` if a number isn't below 2^63.
fn with_other_row(shares: Shares, denominator: u64, entry: u64) -> Option<Shares>
    requires some { 0 < shares.multiple }
    requires low { shares.multiple < signed_limit }
    requires denominator { 0 < denominator }
    ensures { IfSome result (λ s. AddsShare shares.multiple shares.bound denominator entry s.multiple s.bound) }
{
    if shares.multiple % denominator == 0 {
        return with_share(shares, entry, shares.multiple / denominator);
    }
    let factor = denominator / common_divisor(shares.multiple, denominator);
    let wider = times_factor(shares, factor)?;
    with_share(wider, entry, wider.multiple / denominator)
}

/// Like `with_other_row`. Most denominators are 1 or the multiple; these cases come first, as divisions are slow.
#[inline]
fn with_row(shares: Shares, denominator: u64, entry: u64) -> Option<Shares>
    requires some { 0 < shares.multiple }
    requires low { shares.multiple < signed_limit }
    requires denominator { 0 < denominator }
    ensures { IfSome result (λ s. AddsShare shares.multiple shares.bound denominator entry s.multiple s.bound) }
{
    if denominator == 1 {
        return with_share(shares, entry, shares.multiple);
    }
    if denominator == shares.multiple {
        return with_share(shares, entry, 1);
    }
    with_other_row(shares, denominator, entry)
}

/// `shares`, those of the rows before `q` that moved, with row `q`, which moved. `None` if a number isn't below 2^63.
#[inline]
fn more_shares(block: &Block<'_>, q: usize, shares: Shares, norm: u64) -> Option<Shares>
    requires rows { q < length block.now.rows.now }
    requires moves { has_moved block.now.moved.now q ≡ true }
    requires some { 0 < (whole_row_at block.now.rows.now q).denominator }
    requires shares { AreShares norm block.now.rows.now block.now.moved.now q shares.multiple shares.bound }
    ensures { IfSome result (λ s. AreShares norm block.now.rows.now block.now.moved.now (q + 1) s.multiple s.bound) }
{
    let entry = short_product(norm, most_at(block.rows, q))?;
    with_row(shares, denominator_at(block.rows, q), entry)
}

/// The multiple and the bound of all rows that moved but the cost row. `None` if a number isn't below 2^63.
pub fn shares_of_moved(block: &Block<'_>, norm: u64) -> Option<Shares>
    requires rows { length block.now.basis.now ≤ length block.now.rows.now }
    requires order { AreMovedInOrder block.now.moved.now (length block.now.basis.now) block.now.order.now }
    requires some { (i : ℕ) → i < length block.now.rows.now → 0 < (whole_row_at block.now.rows.now i).denominator }
    ensures { IfSome result (λ s. AreShares norm block.now.rows.now block.now.moved.now (length block.now.basis.now) s.multiple s.bound) }
{
    let mut shares = Shares {
        multiple: 1,
        bound: 0,
    };
    for k in 0..block.order.len() {
        let q = row_at(block.order, k);
        shares = more_shares(block, q, shares, norm)?;
    }
    Some(shares)
}

/// Whether the numbers of the rows that stay behind are below 2^63 at every column, though they aren't formed: by a bound `most` on the
/// rows' numbers, a bound `low` on their denominators, and the multiple and the bound of the rows that moved.
pub fn are_short(most: u64, low: u64, multiple: u64, norm: u64, shares: u64) -> bool
    ensures numbers { OnTrue result (norm * most * multiple + norm * most * shares < signed_limit) }
    ensures denominators { OnTrue result (low * multiple < signed_limit) }
{
    let Some(all) = short_product(norm, most) else {
        return false;
    };
    let Some(own) = short_product(all, multiple) else {
        return false;
    };
    let Some(others) = short_product(all, shares) else {
        return false;
    };
    short_sum(own, others).is_some() && short_product(low, multiple).is_some()
}
