// Sums paid in.
ghost use Rattle.std.specs.Prelude.{◌≡◌, ◌≤◌, pos, neg_ℤ};
ghost use Rattle.book.specs.Account.{RangedTerms, balance};
ghost use Rattle.book.specs.Book.{view};
ghost use Rattle.book.specs.Calls.{Step, entered, entry, on_terms, paid, payin};
ghost use Rattle.book.specs.Close.{above_zero};
ghost use Rattle.book.specs.Find.{Found};
ghost use Rattle.book.specs.Outcome.{outcome};

use crate::account::carried::settled;
use crate::account::{Account, Terms};
use crate::book::Book;
use crate::limits::entry_ranged;
use crate::refusal::Refusal;
use crate::spot::Spot;
use payment::PaymentRule;
use sharing::Seats;

impl<R: Seats<N>, P: PaymentRule, const N: usize> Book<R, P, N> {
    // Credits an account with a sum that it owes, and gives it these terms.
    pub(crate) fn credit(&mut self, spot: Spot, terms: Terms, cents: u64)
        requires { (Found spot.account.asset self.old.accounts.items spot) × ((RangedTerms terms) × ((cents ≤ above_zero (neg_ℤ (balance spot.account.ledger))) × (cents ≤ 4000000000))) }
        ensures after { view self.new ≡ paid spot.account.asset cents (on_terms (λ _. terms)) (view self.old) }
    {
        let pools = self.pools.plus(settled(cents, spot.account.ledger.charges));
        let account = Account {
            terms,
            ..spot.credited(cents)
        };
        self.put(spot.place, account, pools);
    }

    // Credits an asset that owes with a sum that it paid.
    pub fn payin(&mut self, asset: u64, cents: u64) -> Result<(), Refusal>
        ensures step { Step N R.SharingRule.shares P.PaymentRule.pays (view self.old) (outcome (entry payin asset (pos cents)) (λ _. entered payin asset (pos cents)) result) (view self.new) }
    {
        entry_ranged(asset, cents)?;
        let spot = self.locate(asset)?;
        if spot.owes_less(cents) {
            return Err(Refusal::NotOwed);
        }
        self.credit(spot, spot.account.terms, cents);
        Ok(())
    }
}
