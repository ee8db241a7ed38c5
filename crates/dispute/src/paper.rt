// A paper at each of its stages, and the resolution that it may yield. Neither can be copied or let go.
ghost use Rattle.std.specs.Prelude.{T};
ghost use Rattle.dispute.specs.Limits.{is_asset, is_day, is_period, is_sum};

mod filing;
mod moves;
mod notes;
mod reading;
mod referral;
mod replies;
mod withdrawal;

pub use notes::Note;

// The stage of a paper that is filed and not yet served.
#[derive(Clone, Copy, Debug, PartialEq, Eq)]
pub struct Unserved;

// The stage of a paper that is served: the sum offered, in cents, and the day served.
#[derive(Clone, Copy, Debug, PartialEq, Eq)]
pub struct Offer {
    cents: i64,
    day: u64,
    ghost in_range: { T (is_sum cents) × T (is_day day) },
}

// The stage of a paper that was rejected and waits for a determination.
#[derive(Clone, Copy, Debug, PartialEq, Eq)]
pub struct Rejected;

// A paper for an asset and a period, at the stage `S`.
#[must_use]
pub struct Paper<S> {
    asset: u64,
    period: u64,
    stage: S,
    ghost in_range: { T (is_asset asset) × T (is_period period) },
}

pub type Filed = Paper<Unserved>;

pub type Served = Paper<Offer>;

pub type Referred = Paper<Rejected>;

// What a dispute came to: an asset, and a sum of cents either way.
#[must_use]
pub struct Resolution {
    asset: u64,
    cents: i64,
    ghost in_range: { T (is_asset asset) × T (is_sum cents) },
}
