// What a ledger carries, and what a sum paid into it takes off its charges.
ghost use Rattle.std.specs.Prelude.{◌≡◌, ◌≤◌};
ghost use Rattle.book.specs.Account.{balance};
ghost use Rattle.book.specs.Entries.{settled};
ghost use Rattle.book.specs.Small.{Small};

use crate::account::Ledger;
use crate::class::ByClass;

impl Ledger {
    // The carried balance.
    pub(crate) fn balance(&self) -> i64
        requires { Small self.now }
        ensures value { result ≡ balance self.now }
    {
        let claims = (self.claims.delivery + self.claims.availability) as i64;
        let charges = (self.charges.delivery + self.charges.availability) as i64;
        self.general + self.entries + claims - charges
    }
}

// How much of the charges a sum pays: delivery first, then availability.
pub(crate) fn settled(cents: u64, charges: ByClass) -> ByClass
    ensures value { result ≡ settled cents charges }
    ensures bound { (result.delivery ≤ charges.delivery) × (result.availability ≤ charges.availability) }
{
    let delivery = cents.min(charges.delivery);
    let availability = (cents - delivery).min(charges.availability);
    ByClass {
        delivery,
        availability,
    }
}
