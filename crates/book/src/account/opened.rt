// A new account.
ghost use Rattle.std.specs.Prelude.{◌≡◌};
ghost use Rattle.book.specs.Account.{opened};

use crate::account::{Account, Ledger, Terms};
use crate::class::ByClass;
use payment::Mark;

impl Account {
    // An account that holds nothing yet.
    pub(crate) fn opened(asset: u64, holder: u64) -> Account
        ensures value { result ≡ opened asset holder }
    {
        Account {
            asset,
            holder,
            terms: Terms {
                award: 0,
                commitment: 0,
                year: None,
                cap_base: 0,
                mark: Mark::NotReady,
            },
            ledger: Ledger {
                general: 0,
                entries: 0,
                claims: ByClass::NONE,
                charges: ByClass::NONE,
            },
        }
    }
}
