// The book: the accounts of its assets, the open pools, and how many periods are closed.
ghost use Rattle.std.specs.Prelude.{◌≤◌, vec_capacity};
ghost use Rattle.book.specs.Kept.{Kept};
ghost use Rattle.book.specs.Limits.{closes_most};

use crate::account::Account;
use crate::class::ByClass;
use payment::PaymentRule;
use sharing::Seats;

mod adjustments;
mod calendar;
mod closing;
mod entries;
mod listing;
mod opening;
mod payins;
mod posting;
mod put;
mod readiness;
mod renewals;

#[derive(Drop)]
pub struct Book<R: Seats<N>, P: PaymentRule, const N: usize> {
    rule: R,
    pile: P,
    // in listing order
    accounts: Vec<Account>,
    pools: ByClass,
    closes: u64,
    ghost room: { N ≤ vec_capacity accounts },
    ghost kept: { Kept N closes pools accounts.items },
    ghost in_time: { closes ≤ closes_most },
}
