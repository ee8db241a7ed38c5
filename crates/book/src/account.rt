// An account: what the book keeps of one asset.
use crate::class::ByClass;
use payment::Mark;

pub(crate) mod carried;
pub(crate) mod closing;
mod in_force;
pub(crate) mod invoice;
mod opened;

#[derive(Clone, Copy, Debug, PartialEq, Eq)]
pub struct Account {
    pub asset: u64,
    pub holder: u64,
    pub terms: Terms,
    pub ledger: Ledger,
}

// What an asset's standing comes from.
#[derive(Clone, Copy, Debug, PartialEq, Eq)]
pub struct Terms {
    // of the last term: its award in cents and its commitment in kilowatts, both 0 where there was none, and its year
    pub award: i64,
    pub commitment: u64,
    pub year: Option<u64>,
    // half of what the asset may be paid at a close, in cents
    pub cap_base: i64,
    pub mark: Mark,
}

// What is carried of an asset, in cents.
#[derive(Clone, Copy, Debug, PartialEq, Eq)]
pub struct Ledger {
    pub general: i64,
    // of the open month
    pub entries: i64,
    // what the asset may still receive out of the pools
    pub claims: ByClass,
    // what it still owes to them
    pub charges: ByClass,
}
