// How an asset stands when it is paid. Every standing keeps the ranges of its figures.
ghost use Rattle.payment.specs.Stand.{InRange, stand};

use crate::mark::Mark;

mod calls;

// The most that an award may be either way, in cents.
pub const AWARD_MOST: i64 = 1_000_000_000;

// The most that a cap base may be, in cents.
pub const CAP_BASE_MOST: i64 = 1_000_000_000;

// The most that a commitment may be, in kilowatts.
pub const COMMITMENT_MOST: u64 = 1_000_000;

#[derive(Clone, Copy, Debug, PartialEq, Eq)]
pub struct Standing {
    // The award in force, in cents.
    award: i64,
    // Half of what an asset with an award of 0 or more may be paid, in cents.
    cap_base: i64,
    // The commitment in force, in kilowatts.
    commitment: u64,
    mark: Mark,
    ghost in_range: { InRange (stand award cap_base commitment mark) },
}
