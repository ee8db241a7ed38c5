// Uplift and the month's entries.
ghost use Rattle.std.specs.Prelude.{pos};
ghost use Rattle.book.specs.Account.{EitherWay};
ghost use Rattle.book.specs.Book.{view};
ghost use Rattle.book.specs.Calls.{Step, entered, entry, uplift};
ghost use Rattle.book.specs.Find.{Found};
ghost use Rattle.book.specs.Limits.{entries_most};
ghost use Rattle.book.specs.Outcome.{Added, outcome};

use crate::book::Book;
use crate::limits::entry_ranged;
use crate::refusal::Refusal;
use crate::spot::Spot;
use payment::PaymentRule;
use sharing::Seats;

impl<R: Seats<N>, P: PaymentRule, const N: usize> Book<R, P, N> {
    // Adds to the month's entries of an account, within their limit.
    pub(crate) fn add(&mut self, spot: Spot, cents: i64) -> Result<(), Refusal>
        requires { (Found spot.account.asset self.old.accounts.items spot) × (EitherWay entries_most cents) }
        ensures cases { Added (view self.old) spot.account.asset cents result (view self.new) }
    {
        let account = spot.added(cents)?;
        self.put(spot.place, account, self.pools);
        Ok(())
    }

    // Raises the month's entries.
    pub fn uplift(&mut self, asset: u64, cents: u64) -> Result<(), Refusal>
        ensures step { Step N R.SharingRule.shares P.PaymentRule.pays (view self.old) (outcome (entry uplift asset (pos cents)) (λ _. entered uplift asset (pos cents)) result) (view self.new) }
    {
        entry_ranged(asset, cents)?;
        let spot = self.locate(asset)?;
        self.committed(spot.account.terms)?;
        self.add(spot, cents as i64)
    }
}
