// Opening a book, and reading it.
ghost use Rattle.std.specs.Prelude.{◌≡◌, [], ◌∷◌, length, IfOk};
ghost use Rattle.book.specs.Accounts.{account as account_of};
ghost use Rattle.book.specs.Book.{view};
ghost use Rattle.book.specs.Calls.{unlisted};
ghost use Rattle.book.specs.History.{History};
ghost use Rattle.book.specs.Law.{EveryClose, Run, Whole, Worked};
ghost use Rattle.book.specs.Limits.{asset_most, off};
ghost use Rattle.book.specs.Refusal.{first, refusal};
ghost use Rattle.book.specs.State.{State, empty};

use crate::account::Account;
use crate::book::Book;
use crate::class::ByClass;
use crate::limits::{ASSET_MOST, off};
use crate::refusal::Refusal;
use payment::PaymentRule;
use sharing::Seats;
use std::alloc::{AllocError, Global};

impl<R: Seats<N>, P: PaymentRule, const N: usize> Book<R, P, N> {
    // An empty book, with memory for all the assets that it will take. The clause `law` is the law over everything that may
    // be done with it: every cent entered is paid or still carried. The clause `worked` says of every row that is ever written
    // how its other figures follow from the history.
    pub fn open(heap: Global, rule: R, pile: P) -> Result<Book<R, P, N>, AllocError>
    where
        R: Drop,
        P: Drop,
        ensures value { IfOk result (λ book. view book ≡ empty) }
        ensures law { (h : History) (s : State) → Run N R.SharingRule.shares P.PaymentRule.pays h s → Whole R.SharingRule.shares P.PaymentRule.pays P.PaymentRule.limits h s }
        ensures worked { (h : History) (s : State) → Run N R.SharingRule.shares P.PaymentRule.pays h s → EveryClose Worked h }
    {
        let accounts = Vec::with_capacity(heap, N)?;
        Ok(Book {
            rule,
            pile,
            accounts,
            pools: ByClass::NONE,
            closes: 0,
        })
    }

    // How many periods are closed.
    pub fn closes(&self) -> u64
        ensures value { result ≡ (view self.now).closes }
    {
        self.closes
    }

    // The open pools.
    pub fn pools(&self) -> ByClass
        ensures value { result ≡ (view self.now).pools }
    {
        self.pools
    }

    // How many assets are listed.
    pub fn assets(&self) -> usize
        ensures value { result ≡ length (view self.now).accounts }
    {
        self.accounts.len()
    }

    // The account of an asset.
    pub fn account(&self, asset: u64) -> Result<Account, Refusal>
        ensures cases { refusal result ≡ first ((off asset_most asset, 4) ∷ (unlisted (view self.now) asset, 8) ∷ []) }
        ensures value { IfOk result (λ found. found ≡ account_of asset (view self.now).accounts) }
    {
        if off(ASSET_MOST, asset) {
            return Err(Refusal::OutOfRange);
        }
        let spot = self.locate(asset)?;
        Ok(spot.account)
    }
}
