// What is in force of an account's terms, and a new term.
ghost use Rattle.std.specs.Prelude.{◌≡◌};
ghost use Rattle.book.specs.Account.{award_in_force, commitment_in_force, given_in};
ghost use Rattle.book.specs.Entries.{renewed};

use crate::account::Terms;
use payment::Mark;

impl Terms {
    // Whether the last term is of this year.
    pub(crate) fn given_in(&self, year: u64) -> bool
        ensures value { result ≡ given_in year self.now }
    {
        self.year == Some(year)
    }

    pub(crate) fn award_in_force(&self, year: u64) -> i64
        ensures value { result ≡ award_in_force year self.now }
    {
        if self.given_in(year) { self.award } else { 0 }
    }

    pub(crate) fn commitment_in_force(&self, year: u64) -> u64
        ensures value { result ≡ commitment_in_force year self.now }
    {
        if self.given_in(year) {
            self.commitment
        } else {
            0
        }
    }

    // The terms after a term is given.
    pub(crate) fn renewed(&self, year: u64, award: i64, commitment: u64, ready: bool) -> Terms
        ensures value { result ≡ renewed year award commitment ready self.now }
    {
        Terms {
            award,
            commitment,
            year: Some(year),
            cap_base: if commitment > 0 {
                award.max(0)
            } else {
                self.cap_base.max(award)
            },
            mark: if ready { Mark::Ready } else { self.mark },
        }
    }
}
