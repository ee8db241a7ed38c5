// Ready from the next period on.
ghost use Rattle.book.specs.Book.{view};
ghost use Rattle.book.specs.Calls.{Step, ready, readying};
ghost use Rattle.book.specs.Outcome.{outcome};

use crate::book::Book;
use crate::limits::{ASSET_MOST, off};
use crate::refusal::Refusal;
use payment::{Mark, PaymentRule};
use sharing::Seats;

impl<R: Seats<N>, P: PaymentRule, const N: usize> Book<R, P, N> {
    // Marks an asset ready from the next period on.
    pub fn ready(&mut self, asset: u64) -> Result<(), Refusal>
        ensures step { Step N R.SharingRule.shares P.PaymentRule.pays (view self.old) (outcome (ready asset) (λ _. readying asset) result) (view self.new) }
    {
        if off(ASSET_MOST, asset) {
            return Err(Refusal::OutOfRange);
        }
        let spot = self.locate(asset)?;
        let mut account = spot.account;
        if account.terms.mark != Mark::NotReady {
            return Err(Refusal::Marked);
        }
        account.terms.mark = Mark::ReadyNext;
        self.put(spot.place, account, self.pools);
        Ok(())
    }
}
