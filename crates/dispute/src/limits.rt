// The limits of what papers hold and are given.
ghost use Rattle.std.specs.Prelude.{◌≡◌};
ghost use Rattle.dispute.specs.Limits.{is_asset, is_closes, is_day, is_period, is_sum};

// The greatest number of an asset; the least is 1.
pub const ASSET_MOST: u64 = 9_999;

// The greatest number of a period; the least is 1.
pub const PERIOD_MOST: u64 = 360;

// The most closes there can be.
pub const CLOSES_MOST: u64 = 360;

// The greatest number of a business day; the least is 0.
pub const DAY_MOST: u64 = 100_000;

// The most that a sum may be either way, in cents; 0 is no sum.
pub const SUM_MOST: u64 = 1_000_000_000;

// How many closes must follow that of a period before a paper is filed for it.
pub const FILING_CLOSES: u64 = 4;

// How many days after the day served a paper may be accepted or rejected.
pub const REPLY_DAYS: u64 = 30;

pub(crate) fn is_asset(asset: u64) -> bool
    ensures value { result ≡ is_asset asset }
{
    (1..=ASSET_MOST).contains(&asset)
}

pub(crate) fn is_period(period: u64) -> bool
    ensures value { result ≡ is_period period }
{
    (1..=PERIOD_MOST).contains(&period)
}

pub(crate) fn is_closes(closes: u64) -> bool
    ensures value { result ≡ is_closes closes }
{
    closes <= CLOSES_MOST
}

pub(crate) fn is_day(day: u64) -> bool
    ensures value { result ≡ is_day day }
{
    day <= DAY_MOST
}

pub(crate) fn is_sum(cents: i64) -> bool
    ensures value { result ≡ is_sum cents }
{
    (1..=SUM_MOST).contains(&cents.unsigned_abs())
}
