// Closing a period.
ghost use Rattle.std.specs.Prelude.{◌≡◌, ◌<◌, ◌≤◌, ◌++◌, length, take, drop, is_ok, IfOk, if◌then◌else◌};
ghost use Rattle.sharing.specs.Rule.{Shareable, most_cents};
ghost use Rattle.book.specs.Book.{view};
ghost use Rattle.book.specs.Calls.{Step, close, closing};
ghost use Rattle.book.specs.Close.{closed_state, pooled, residue as residue_of, residues as residues_of, rows as rows_of, shares as shares_of};
ghost use Rattle.book.specs.Limits.{closes_most};
ghost use Rattle.book.specs.Outcome.{outcome};

use crate::book::Book;
use crate::class::{ByClass, Class};
use crate::limits::CLOSES_MOST;
use crate::pooling::{gather_claims, taken_by_all};
use crate::refusal::Refusal;
use crate::row::{Closed, Row};
use crate::settling::settle_all;
use payment::PaymentRule;
use sharing::{Seats, SharingRule};

// Shares a pool that the rule takes.
fn share_among<R: SharingRule>(rule: &R, pool: u64, claims: &[u64], into: &mut [u64])
    requires { Shareable R.SERVES pool claims.now (length into.old) }
    ensures after { into.new ≡ R.SharingRule.shares pool claims.now }
{
    rule.share(pool, claims, into).unwrap();
}

impl<R: Seats<N>, P: PaymentRule, const N: usize> Book<R, P, N> {
    // The open pool of a class with all that is taken.
    fn pool_of(&self, class: Class) -> u64
        ensures value { result ≡ pooled (view self.now) class }
        ensures bound { result ≤ most_cents }
    {
        self.pools.of(class) + taken_by_all(&self.accounts, self.year(), class)
    }

    // Shares the pool of a class among its claims, and answers what no claim took.
    fn share_class(&self, class: Class, shares: &mut [u64]) -> u64
        requires { length shares.old ≡ length self.now.accounts.items }
        ensures after { shares.new ≡ shares_of R.SharingRule.shares (view self.now) class }
        ensures value { result ≡ residue_of R.SharingRule.shares (view self.now) class }
    {
        let claims = &mut [0; N][..self.accounts.len()];
        let pool = self.pool_of(class);
        let sum = gather_claims(&self.accounts, class, claims);
        share_among(&self.rule, pool, claims, shares);
        pool.saturating_sub(sum)
    }

    // Closes the period, into a list that has a place for each asset.
    fn close_with(&mut self, rows: &mut [Row]) -> Closed
        requires { (self.old.closes < closes_most) × (length self.old.accounts.items ≤ length rows.old) }
        ensures value { (result.rows ≡ length self.old.accounts.items) × (result.residues ≡ residues_of R.SharingRule.shares (view self.old)) }
        ensures after { view self.new ≡ closed_state R.SharingRule.shares P.PaymentRule.pays (view self.old) }
        ensures rows { rows.new ≡ rows_of R.SharingRule.shares P.PaymentRule.pays (view self.old) ++ drop (length self.old.accounts.items) rows.old }
    {
        let count = self.accounts.len();
        let delivery = &mut [0; N][..count];
        let availability = &mut [0; N][..count];
        let year = self.year();
        let residues = ByClass {
            delivery: self.share_class(Class::Delivery, delivery),
            availability: self.share_class(Class::Availability, availability),
        };
        settle_all(
            &self.pile,
            year,
            delivery,
            availability,
            self.accounts.as_mut_slice(),
            rows,
        );
        self.pools = ByClass::NONE;
        self.closes += 1;
        Closed {
            rows: count,
            residues,
        }
    }

    // Closes the period: writes a row for each asset in listing order, and answers their count and what no claim took of each pool.
    pub fn close(&mut self, rows: &mut [Row]) -> Result<Closed, Refusal>
        ensures step { Step N R.SharingRule.shares P.PaymentRule.pays (view self.old) (outcome (close (length rows.old)) (λ closed. closing (length rows.old) (take closed.rows rows.new) closed.residues) result) (view self.new) }
        ensures count { IfOk result (λ closed. closed.rows ≡ length (view self.old).accounts) }
        ensures rows { rows.new ≡ (if is_ok result then rows_of R.SharingRule.shares P.PaymentRule.pays (view self.old) ++ drop (length (view self.old).accounts) rows.old else rows.old) }
    {
        if self.closes >= CLOSES_MOST {
            return Err(Refusal::AllClosed);
        }
        if rows.len() < self.accounts.len() {
            return Err(Refusal::FewRows);
        }
        Ok(self.close_with(rows))
    }
}
