// The period that is open.
ghost use Rattle.std.specs.Prelude.{◌≡◌, ◌==◌, true, false, MatchResult};
ghost use Rattle.book.specs.Account.{commitment_in_force};
ghost use Rattle.book.specs.Book.{view};
ghost use Rattle.book.specs.Calls.{wrong_month};
ghost use Rattle.book.specs.State.{month as month_of, year as year_of};
ghost use Rattle.book.specs.declared.refusal.Refusal.TheVariants.{NoCommitment};

use crate::account::Terms;
use crate::book::Book;
use crate::class::Class;
use crate::refusal::Refusal;
use payment::PaymentRule;
use sharing::Seats;

impl<R: Seats<N>, P: PaymentRule, const N: usize> Book<R, P, N> {
    pub(crate) fn year(&self) -> u64
        ensures value { result ≡ year_of (view self.now) }
    {
        self.closes / 12 + 1
    }

    pub(crate) fn month(&self) -> u64
        ensures value { result ≡ month_of (view self.now) }
    {
        self.closes % 12 + 1
    }

    // Availability is adjusted in month 12 alone.
    pub(crate) fn wrong_month(&self, class: Class) -> bool
        ensures value { result ≡ wrong_month (view self.now) class }
    {
        match class {
            Class::Delivery => false,
            Class::Availability => self.month() != 12,
        }
    }

    // A commitment is in force by these terms, or the call is refused.
    pub(crate) fn committed(&self, terms: Terms) -> Result<(), Refusal>
        ensures cases { MatchResult result (λ _. (commitment_in_force (year_of (view self.now)) terms == 0) ≡ false) (λ why. (why ≡ NoCommitment) × ((commitment_in_force (year_of (view self.now)) terms == 0) ≡ true)) }
    {
        if terms.commitment_in_force(self.year()) == 0 {
            return Err(Refusal::NoCommitment);
        }
        Ok(())
    }
}
