// Posting resolutions.
ghost use Rattle.book.specs.Account.{EitherWay};
ghost use Rattle.book.specs.Book.{view};
ghost use Rattle.book.specs.Calls.{Step, entered, entry, resolution as posting};
ghost use Rattle.book.specs.Limits.{entries_most};
ghost use Rattle.book.specs.Outcome.{Same, outcome, posted};

use crate::book::Book;
use crate::refusal::Refusal;
use dispute::Resolution;
use payment::PaymentRule;
use sharing::Seats;

impl<R: Seats<N>, P: PaymentRule, const N: usize> Book<R, P, N> {
    // The call itself, on what the resolution says.
    fn post(&mut self, asset: u64, cents: i64) -> Result<(), Refusal>
        requires { EitherWay entries_most cents }
        ensures step { Step N R.SharingRule.shares P.PaymentRule.pays (view self.old) (outcome (entry posting asset cents) (λ _. entered posting asset cents) result) (view self.new) }
    {
        let spot = self.locate(asset)?;
        self.add(spot, cents)
    }

    // Posts a resolution to its asset's month, or hands it back.
    pub fn resolve(&mut self, resolution: Resolution) -> Result<(), (Resolution, Refusal)>
        ensures step { Step N R.SharingRule.shares P.PaymentRule.pays (view self.old) (posted resolution.asset resolution.cents result) (view self.new) }
        ensures same { Same resolution result }
    {
        match self.post(resolution.asset(), resolution.cents()) {
            Ok(()) => {
                let _ = resolution.note();
                Ok(())
            }
            Err(why) => Err((resolution, why)),
        }
    }
}
