// What a close gathers of a class: the charges taken, and the claims.
ghost use Rattle.std.specs.Prelude.{◌≡◌, ◌≤◌, length, sum_by};
ghost use Rattle.sharing.specs.Rule.{most_cents};
ghost use Rattle.book.specs.Account.{RangedTerms};
ghost use Rattle.book.specs.Accounts.{Each, charged, claimed};
ghost use Rattle.book.specs.Close.{claims, taken_of};
ghost use Rattle.book.specs.Small.{Tight};

use crate::account::Account;
use crate::class::Class;

// What is taken of all charges of a class.
pub(crate) fn taken_by_all(accounts: &[Account], year: u64, class: Class) -> u64
    requires { (Each (λ a. Tight a.ledger) accounts.now) × ((Each (λ a. RangedTerms a.terms) accounts.now) × (charged class accounts.now ≤ most_cents)) }
    ensures value { result ≡ sum_by (taken_of year class) accounts.now }
    ensures bound { result ≤ charged class accounts.now }
{
    let mut sum = 0;
    for account in accounts {
        let award = account.terms.award_in_force(year);
        sum += account.ledger.taken(award).of(class);
    }
    sum
}

// Writes the claims of a class in listing order, and answers what they come to.
pub(crate) fn gather_claims(accounts: &[Account], class: Class, into: &mut [u64]) -> u64
    requires { (length into.old ≡ length accounts.now) × (claimed class accounts.now ≤ most_cents) }
    ensures value { result ≡ claimed class accounts.now }
    ensures after { into.new ≡ claims class accounts.now }
{
    let mut sum = 0;
    for (i, account) in accounts.iter().enumerate() {
        let claim = account.ledger.claims.of(class);
        into[i] = claim;
        sum += claim;
    }
    sum
}
