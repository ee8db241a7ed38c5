// The work of a close on the accounts.
ghost use Rattle.std.specs.Prelude.{◌≡◌, ℕ, ◌<◌, ◌≤◌, ◌++◌, map, length, drop};
ghost use Rattle.payment.specs.Rule.{Between};
ghost use Rattle.book.specs.Account.{RangedTerms, standing};
ghost use Rattle.book.specs.Closable.{Closable, due_at};
ghost use Rattle.book.specs.Close.{account_after, due, dues, row};

use crate::account::closing::Reckoning;
use crate::account::{Account, Terms};
use crate::class::ByClass;
use crate::row::Row;
use payment::{PaymentRule, Standing, payment};

// One asset after a close, with its row.
#[derive(Clone, Copy)]
pub(crate) struct Settled {
    pub account: Account,
    pub row: Row,
}

// What the pile answers.
fn payment_of<P: PaymentRule>(pile: &P, year: u64, terms: &Terms, total: i64) -> i64
    requires { RangedTerms terms.now }
    ensures value { result ≡ P.PaymentRule.pays (standing year terms.now) total }
    ensures between { Between total result }
{
    let award = terms.award_in_force(year);
    let commitment = terms.commitment_in_force(year);
    let standing = Standing::new(award, terms.cap_base, commitment, terms.mark).unwrap();
    payment(pile, &standing, total)
}

// Closes one account with its shares.
fn settle_one<P: PaymentRule>(pile: &P, year: u64, account: &Account, share: ByClass) -> Settled
    requires { Closable account.now share }
    ensures account { result.account ≡ account_after P.PaymentRule.pays year (due account.now share) }
    ensures row { result.row ≡ row P.PaymentRule.pays year (due account.now share) }
{
    let reckoning = Reckoning::of(account, year, share);
    let payment = payment_of(pile, year, &account.terms, reckoning.total());
    let ledger = reckoning.closed(payment);
    Settled {
        account: Account {
            terms: account.terms.closed(),
            ledger,
            ..*account
        },
        row: Row {
            asset: account.asset,
            award: reckoning.award,
            taken: reckoning.taken,
            share: reckoning.share,
            payment,
            balance: ledger.balance(),
        },
    }
}

// Closes every account with its shares, in listing order, and writes its row.
pub(crate) fn settle_all<P: PaymentRule>(
    pile: &P,
    year: u64,
    delivery: &[u64],
    availability: &[u64],
    accounts: &mut [Account],
    rows: &mut [Row],
)
    requires { (length accounts.old ≤ length delivery.now) × ((length accounts.old ≤ length availability.now) × ((length accounts.old ≤ length rows.old) × (((i : ℕ) → i < length accounts.old → Closable (due_at i accounts.old delivery.now availability.now).account (due_at i accounts.old delivery.now availability.now).share)))) }
    ensures accounts { accounts.new ≡ map (account_after P.PaymentRule.pays year) (dues accounts.old delivery.now availability.now) }
    ensures rows { rows.new ≡ map (row P.PaymentRule.pays year) (dues accounts.old delivery.now availability.now) ++ drop (length accounts.old) rows.old }
{
    // Accounts and rows are written in step, by their index: of what is written through an adapter of iter_mut nothing is known.
    for i in 0..accounts.len() {
        let account = accounts[i];
        let share = ByClass {
            delivery: delivery[i],
            availability: availability[i],
        };
        let settled = settle_one(pile, year, &account, share);
        accounts[i] = settled.account;
        rows[i] = settled.row;
    }
}
