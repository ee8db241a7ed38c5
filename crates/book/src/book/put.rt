// Looking an account up, and writing it back.
ghost use Rattle.std.specs.Prelude.{◌≡◌, ◌<◌, false, length, MatchResult, slice_set};
ghost use Rattle.book.specs.Accounts.{at, listed};
ghost use Rattle.book.specs.Book.{view};
ghost use Rattle.book.specs.Find.{Found};
ghost use Rattle.book.specs.Kept.{Kept};
ghost use Rattle.book.specs.State.{state};
ghost use Rattle.book.specs.declared.refusal.Refusal.TheVariants.{NotListed};

use crate::account::Account;
use crate::book::Book;
use crate::class::ByClass;
use crate::find::find;
use crate::refusal::Refusal;
use crate::spot::Spot;
use payment::PaymentRule;
use sharing::Seats;

impl<R: Seats<N>, P: PaymentRule, const N: usize> Book<R, P, N> {
    // A place with its account.
    pub(crate) fn spot(&self, place: usize) -> Spot
        requires { place < length self.now.accounts.items }
        ensures place { result.place ≡ place }
        ensures account { result.account ≡ at place self.now.accounts.items }
    {
        Spot {
            place,
            account: self.accounts[place],
        }
    }

    // Where the account of an asset stands.
    pub(crate) fn locate(&self, asset: u64) -> Result<Spot, Refusal>
        ensures cases { MatchResult result (Found asset self.now.accounts.items) (λ why. (why ≡ NotListed) × (listed asset self.now.accounts.items ≡ false)) }
    {
        let place = find(&self.accounts, asset).ok_or(Refusal::NotListed)?;
        Ok(self.spot(place))
    }

    // Puts an account in its place, and the pools beside it.
    pub(crate) fn put(&mut self, place: usize, account: Account, pools: ByClass)
        requires { (place < length self.old.accounts.items) × (Kept N self.old.closes pools (slice_set self.old.accounts.items place account)) }
        ensures after { view self.new ≡ state (slice_set self.old.accounts.items place account) pools self.old.closes }
    {
        self.accounts[place] = account;
        self.pools = pools;
    }
}
