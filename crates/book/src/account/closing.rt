// What a close does to one account.
ghost use Rattle.std.specs.Prelude.{◌≡◌, ◌≤◌};
ghost use Rattle.payment.specs.Rule.{Between};
ghost use Rattle.payment.specs.Stand.{award_most};
ghost use Rattle.book.specs.Account.{EitherWay, award_in_force};
ghost use Rattle.book.specs.Closable.{Closable};
ghost use Rattle.book.specs.Close.{closed_ledger, closed_terms, funds, taken, total_of};
ghost use Rattle.book.specs.Small.{Small, Tight};

use crate::account::carried::settled;
use crate::account::{Account, Ledger, Terms};
use crate::class::ByClass;
use payment::Mark;

// What a close reckons an account by.
#[derive(Clone, Copy)]
pub(crate) struct Reckoning {
    ledger: Ledger,
    // the award in force
    pub award: i64,
    // what is taken of the charges, and the share of the pools
    pub taken: ByClass,
    pub share: ByClass,
    ghost tight: { Tight ledger },
    ghost ranged: { EitherWay award_most award },
    ghost owed: { (taken.delivery ≤ ledger.charges.delivery) × (taken.availability ≤ ledger.charges.availability) },
    ghost claimed: { (share.delivery ≤ ledger.claims.delivery) × (share.availability ≤ ledger.claims.availability) },
}

impl Ledger {
    // General balance, month's entries and award in force, together.
    fn funds(&self, award: i64) -> i64
        requires { (Tight self.now) × (EitherWay award_most award) }
        ensures value { result ≡ funds award self.now }
    {
        self.general + self.entries + award
    }

    // What is taken of the charges: all of them with a negative award, else out of what the funds are above zero.
    pub(crate) fn taken(&self, award: i64) -> ByClass
        requires { (Tight self.now) × (EitherWay award_most award) }
        ensures value { result ≡ taken award self.now }
        ensures bound { (result.delivery ≤ self.now.charges.delivery) × (result.availability ≤ self.now.charges.availability) }
    {
        if award < 0 {
            return self.charges;
        }
        settled(self.funds(award).max(0) as u64, self.charges)
    }
}

impl Reckoning {
    pub(crate) fn of(account: &Account, year: u64, share: ByClass) -> Reckoning
        requires { Closable account.now share }
        ensures ledger { result.ledger ≡ account.now.ledger }
        ensures award { result.award ≡ award_in_force year account.now.terms }
        ensures taken { result.taken ≡ taken result.award account.now.ledger }
        ensures share { result.share ≡ share }
    {
        let ledger = account.ledger;
        let award = account.terms.award_in_force(year);
        Reckoning {
            ledger,
            award,
            taken: ledger.taken(award),
            share,
        }
    }

    // The funds, less what is taken, plus the shares.
    pub(crate) fn total(&self) -> i64
        ensures value { result ≡ total_of self.now.award self.now.taken self.now.share self.now.ledger }
    {
        let off = (self.taken.delivery + self.taken.availability) as i64;
        let on = (self.share.delivery + self.share.availability) as i64;
        self.ledger.funds(self.award) - off + on
    }

    // The ledger after the close, where this payment was made out of the total.
    pub(crate) fn closed(&self, payment: i64) -> Ledger
        requires { Between (total_of self.now.award self.now.taken self.now.share self.now.ledger) payment }
        ensures value { result ≡ closed_ledger self.now.award self.now.taken self.now.share payment self.now.ledger }
        ensures small { Small result }
    {
        Ledger {
            general: self.total() - payment,
            entries: 0,
            claims: self.ledger.claims.minus(self.share),
            charges: self.ledger.charges.minus(self.taken),
        }
    }
}

impl Terms {
    // The terms after the close: ready from the next period on becomes ready.
    pub(crate) fn closed(&self) -> Terms
        ensures value { result ≡ closed_terms self.now }
    {
        let mark = match self.mark {
            Mark::NotReady => Mark::NotReady,
            Mark::ReadyNext | Mark::Ready => Mark::Ready,
        };
        Terms { mark, ..*self }
    }
}
