// What a close answers.
use crate::class::ByClass;

// One asset at one close.
#[derive(Clone, Copy, Debug, PartialEq, Eq)]
pub struct Row {
    pub asset: u64,
    // the award in force
    pub award: i64,
    // what was taken of its charges, and its share of the pools
    pub taken: ByClass,
    pub share: ByClass,
    pub payment: i64,
    // what is carried from here on
    pub balance: i64,
}

// A close: how many rows it wrote, and what no claim took of each pool.
#[derive(Clone, Copy, Debug, PartialEq, Eq)]
pub struct Closed {
    pub rows: usize,
    pub residues: ByClass,
}
