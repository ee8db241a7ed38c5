// Terms.
ghost use Rattle.book.specs.Book.{view};
ghost use Rattle.book.specs.Calls.{Step, renewal, term};
ghost use Rattle.book.specs.Outcome.{outcome};

use crate::account::invoice::invoice_of;
use crate::book::Book;
use crate::limits::{ASSET_MOST, BALANCE_LEAST, off, off_way};
use crate::refusal::Refusal;
use payment::{AWARD_MOST, COMMITMENT_MOST, PaymentRule};
use sharing::Seats;

impl<R: Seats<N>, P: PaymentRule, const N: usize> Book<R, P, N> {
    // Gives an asset its term of the year, and answers the invoice, which is credited as paid.
    pub fn term(
        &mut self,
        asset: u64,
        award: i64,
        commitment: u64,
        ready: bool,
    ) -> Result<u64, Refusal>
        ensures step { Step N R.SharingRule.shares P.PaymentRule.pays (view self.old) (outcome (term asset award commitment ready) (λ invoice. renewal asset award commitment ready invoice) result) (view self.new) }
    {
        if off(ASSET_MOST, asset) || off_way(AWARD_MOST, award) || commitment > COMMITMENT_MOST {
            return Err(Refusal::OutOfRange);
        }
        let spot = self.locate(asset)?;
        if self.month() != 1 {
            return Err(Refusal::WrongMonth);
        }
        let year = self.year();
        let terms = spot.account.terms;
        if terms.given_in(year) {
            return Err(Refusal::TermGiven);
        }
        let carried = spot.account.ledger.balance();
        if carried < BALANCE_LEAST {
            return Err(Refusal::TooFarBelow);
        }
        let invoice = invoice_of(terms.award, award, carried);
        self.credit(spot, terms.renewed(year, award, commitment, ready), invoice);
        Ok(invoice)
    }
}
