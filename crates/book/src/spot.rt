// Where an account stands, and what sums that are entered make of it.
ghost use Rattle.std.specs.Prelude.{◌≡◌, ◌≤◌, true, false, ◌+ℤ◌, MatchResult};
ghost use Rattle.book.specs.Account.{EitherWay, RangedTerms, owes_less};
ghost use Rattle.book.specs.Calls.{on_ledger};
ghost use Rattle.book.specs.Entries.{adding, credited};
ghost use Rattle.book.specs.Limits.{entries_most, off_way};
ghost use Rattle.book.specs.Small.{Small};
ghost use Rattle.book.specs.declared.refusal.Refusal.TheVariants.{PastLimit};

use crate::account::carried::settled;
use crate::account::{Account, Ledger};
use crate::limits::{ENTRIES_MOST, off_way};
use crate::refusal::Refusal;

// A place with the account that stands there, whose figures leave room for the arithmetic on them.
#[derive(Clone, Copy)]
pub(crate) struct Spot {
    pub place: usize,
    pub account: Account,
    ghost ranged: { RangedTerms account.terms },
    ghost small: { Small account.ledger },
}

impl Spot {
    // Whether a sum is more than what is owed, or nothing is owed.
    pub(crate) fn owes_less(&self, cents: u64) -> bool
        ensures value { result ≡ owes_less self.now.account.ledger cents }
    {
        let carried = self.account.ledger.balance();
        carried >= 0 || cents > carried.unsigned_abs()
    }

    // The account with more or less in the month's entries, where they keep their limit.
    pub(crate) fn added(&self, cents: i64) -> Result<Account, Refusal>
        requires { EitherWay entries_most cents }
        ensures cases { MatchResult result (λ a. (off_way entries_most (self.now.account.ledger.entries +ℤ cents) ≡ false) × (a ≡ on_ledger (adding cents) self.now.account)) (λ why. (why ≡ PastLimit) × (off_way entries_most (self.now.account.ledger.entries +ℤ cents) ≡ true)) }
    {
        let entries = self.account.ledger.entries + cents;
        if off_way(ENTRIES_MOST, entries) {
            return Err(Refusal::PastLimit);
        }
        let ledger = Ledger {
            entries,
            ..self.account.ledger
        };
        Ok(Account {
            ledger,
            ..self.account
        })
    }

    // The account with a sum paid in: it lowers charges, and the rest raises the general balance.
    pub(crate) fn credited(&self, cents: u64) -> Account
        requires { cents ≤ 4000000000 }
        ensures value { result ≡ on_ledger (credited cents) self.now.account }
    {
        let carried = self.account.ledger;
        let off = settled(cents, carried.charges);
        let rest = cents - off.delivery - off.availability;
        let ledger = Ledger {
            general: carried.general + rest as i64,
            charges: carried.charges.minus(off),
            ..carried
        };
        Account {
            ledger,
            ..self.account
        }
    }
}
