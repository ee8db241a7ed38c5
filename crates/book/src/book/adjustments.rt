// Overs and unders.
ghost use Rattle.std.specs.Prelude.{◌+◌, [], ◌∷◌, ◌++◌, pos, IfOk, ◌≡◌, nat_lt};
ghost use Rattle.sharing.specs.Rule.{most_cents};
ghost use Rattle.book.specs.Book.{view};
ghost use Rattle.book.specs.Calls.{Step, adjustment, entered, entry, over, under};
ghost use Rattle.book.specs.Find.{Finds, Found};
ghost use Rattle.book.specs.Outcome.{outcome};
ghost use Rattle.book.specs.Refusal.{first, refusal};

use crate::book::Book;
use crate::class::Class;
use crate::find::find_with_totals;
use crate::limits::entry_ranged;
use crate::refusal::Refusal;
use crate::spot::Spot;
use payment::PaymentRule;
use sharing::{MOST_CENTS, Seats};

impl<R: Seats<N>, P: PaymentRule, const N: usize> Book<R, P, N> {
    // Where an over or an under goes, or why it is refused. The total is what its class comes to without it.
    fn adjustable(
        &self,
        class: Class,
        asset: u64,
        cents: u64,
        place: Option<usize>,
        total: u64,
    ) -> Result<Spot, Refusal>
        requires { Finds asset self.now.accounts.items place }
        ensures cases { refusal result ≡ first (adjustment (view self.now) class asset (pos cents) ++ (nat_lt most_cents (total + cents), 13) ∷ []) }
        ensures value { IfOk result (Found asset self.now.accounts.items) }
    {
        entry_ranged(asset, cents)?;
        let spot = self.spot(place.ok_or(Refusal::NotListed)?);
        if self.wrong_month(class) {
            return Err(Refusal::WrongMonth);
        }
        self.committed(spot.account.terms)?;
        if total.saturating_add(cents) > MOST_CENTS {
            return Err(Refusal::PastLimit);
        }
        Ok(spot)
    }

    // Raises a claim.
    pub fn over(&mut self, class: Class, asset: u64, cents: u64) -> Result<(), Refusal>
        ensures step { Step N R.SharingRule.shares P.PaymentRule.pays (view self.old) (outcome (entry (over class) asset (pos cents)) (λ _. entered (over class) asset (pos cents)) result) (view self.new) }
    {
        let located = find_with_totals(&self.accounts, class, asset);
        let spot = self.adjustable(class, asset, cents, located.place, located.claims)?;
        let mut account = spot.account;
        account.ledger.claims = account.ledger.claims.more(class, cents);
        self.put(spot.place, account, self.pools);
        Ok(())
    }

    // Raises a charge owed.
    pub fn under(&mut self, class: Class, asset: u64, cents: u64) -> Result<(), Refusal>
        ensures step { Step N R.SharingRule.shares P.PaymentRule.pays (view self.old) (outcome (entry (under class) asset (pos cents)) (λ _. entered (under class) asset (pos cents)) result) (view self.new) }
    {
        let located = find_with_totals(&self.accounts, class, asset);
        let total = located.charges + self.pools.of(class);
        let spot = self.adjustable(class, asset, cents, located.place, total)?;
        let mut account = spot.account;
        account.ledger.charges = account.ledger.charges.more(class, cents);
        self.put(spot.place, account, self.pools);
        Ok(())
    }
}
