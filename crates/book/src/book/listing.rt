// Listing assets.
ghost use Rattle.std.specs.Prelude.{◌≡◌};
ghost use Rattle.book.specs.Book.{view};
ghost use Rattle.book.specs.Calls.{Step, list, opening, verdict};
ghost use Rattle.book.specs.Outcome.{outcome};
ghost use Rattle.book.specs.Refusal.{refusal};

use crate::account::Account;
use crate::book::Book;
use crate::find::find;
use crate::limits::{ASSET_MOST, HOLDER_MOST, off};
use crate::refusal::Refusal;
use payment::PaymentRule;
use sharing::Seats;

impl<R: Seats<N>, P: PaymentRule, const N: usize> Book<R, P, N> {
    fn may_list(&self, asset: u64, holder: u64) -> Result<(), Refusal>
        ensures cases { refusal result ≡ verdict N (view self.now) (list asset holder) }
    {
        if off(ASSET_MOST, asset) || off(HOLDER_MOST, holder) {
            return Err(Refusal::OutOfRange);
        }
        if find(&self.accounts, asset).is_some() {
            return Err(Refusal::Listed);
        }
        if self.accounts.len() >= N {
            return Err(Refusal::Full);
        }
        Ok(())
    }

    // Adds an account.
    pub fn list(&mut self, asset: u64, holder: u64) -> Result<(), Refusal>
        ensures step { Step N R.SharingRule.shares P.PaymentRule.pays (view self.old) (outcome (list asset holder) (λ _. opening asset holder) result) (view self.new) }
    {
        self.may_list(asset, holder)?;
        self.accounts.push_reserved(Account::opened(asset, holder));
        Ok(())
    }
}
