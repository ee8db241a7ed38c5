// Finding an account by its asset.
ghost use Rattle.std.specs.Prelude.{◌≡◌, ◌≤◌};
ghost use Rattle.sharing.specs.Rule.{most_cents};
ghost use Rattle.book.specs.Accounts.{charged, claimed};
ghost use Rattle.book.specs.Find.{Finds};

use crate::account::Account;
use crate::class::Class;

// The place of an asset, if it is listed, with what all claims and all charges of a class come to.
#[derive(Clone, Copy)]
pub(crate) struct Located {
    pub place: Option<usize>,
    pub claims: u64,
    pub charges: u64,
}

// Where the account of an asset stands.
pub(crate) fn find(accounts: &[Account], asset: u64) -> Option<usize>
    ensures cases { Finds asset accounts.now result }
{
    accounts.iter().position(|account| account.asset == asset)
}

// The same as `find`, with the totals of a class, in one pass.
pub(crate) fn find_with_totals(accounts: &[Account], class: Class, asset: u64) -> Located
    requires { (claimed class accounts.now ≤ most_cents) × (charged class accounts.now ≤ most_cents) }
    ensures cases { Finds asset accounts.now result.place }
    ensures claims { result.claims ≡ claimed class accounts.now }
    ensures charges { result.charges ≡ charged class accounts.now }
{
    let mut place = None;
    let mut claims = 0;
    let mut charges = 0;
    for (i, account) in accounts.iter().enumerate() {
        place = place.or((account.asset == asset).then_some(i));
        claims += account.ledger.claims.of(class);
        charges += account.ledger.charges.of(class);
    }
    Located {
        place,
        claims,
        charges,
    }
}
