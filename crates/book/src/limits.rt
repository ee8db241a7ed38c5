// The limits of the book, and the tests of a value against its range.
ghost use Rattle.std.specs.Prelude.{◌≡◌, ◌≤◌, true, false, ◌||◌, pos, ◌≤ℤ◌, IfOk, MatchResult};
ghost use Rattle.book.specs.Limits.{asset_most, entry_most, off, off_way};
ghost use Rattle.book.specs.declared.refusal.Refusal.TheVariants.{OutOfRange};

use crate::refusal::Refusal;

// Papers keep these two as well.
pub use dispute::{ASSET_MOST, CLOSES_MOST};

pub const HOLDER_MOST: u64 = 999;

// One over, under, uplift or payin, in cents; the least is 1.
pub const ENTRY_MOST: u64 = 1_000_000_000;

// The month's entries of an account, either way, in cents.
pub const ENTRIES_MOST: i64 = 1_000_000_000;

// The carried balance below which no term is taken, in cents.
pub const BALANCE_LEAST: i64 = -2_000_000_000;

// Whether a number is 0, or above the most.
pub(crate) fn off(most: u64, n: u64) -> bool
    ensures value { result ≡ off most n }
{
    !(1..=most).contains(&n)
}

// An asset and a sum entered of it are in their ranges, or the call is refused.
pub(crate) fn entry_ranged(asset: u64, cents: u64) -> Result<(), Refusal>
    ensures within { IfOk result (λ _. cents ≤ entry_most) }
    ensures cases { MatchResult result (λ _. (off asset_most asset || off entry_most cents) ≡ false) (λ why. (why ≡ OutOfRange) × ((off asset_most asset || off entry_most cents) ≡ true)) }
{
    if off(ASSET_MOST, asset) || off(ENTRY_MOST, cents) {
        return Err(Refusal::OutOfRange);
    }
    Ok(())
}

// Whether an amount is further from zero than the most.
pub(crate) fn off_way(most: i64, z: i64) -> bool
    requires { pos 0 ≤ℤ most }
    ensures value { result ≡ off_way most z }
{
    !(-most..=most).contains(&z)
}
