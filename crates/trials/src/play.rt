// Plays acts on a book, and prints each with its answer.
use crate::act::Act;
use crate::tell::{
    BLANK, invoiced, print_closed, print_ledger, print_rows, print_terms, refused, told,
};
use book::{Book, Class};
use payment::PaymentRule;
use sharing::Seats;
use std::alloc::AllocError;
use std::io;

// The most rows that a close is given here.
const ROWS: usize = 64;

// A book that acts are played on, and what their answers are printed by.
#[derive(Drop)]
pub struct Player<'a, R: Seats<N>, P: PaymentRule, const N: usize> {
    pub(crate) rt: &'a HostRuntime,
    pub(crate) book: Book<R, P, N>,
}

impl<'a, R: Seats<N>, P: PaymentRule, const N: usize> Player<'a, R, P, N> {
    // With an empty book of this rule and this pile.
    pub fn open(rt: &'a HostRuntime, rule: R, pile: P) -> Result<Player<'a, R, P, N>, AllocError>
    where
        R: Drop,
        P: Drop,
    {
        let book = Book::open(rt.alloc(), rule, pile)?;
        Ok(Player { rt, book })
    }

    fn look(&self, act: &Act, asset: u64) -> io::Result<()> {
        match self.book.account(asset) {
            Ok(account) => {
                print_terms(self.rt, act, account.holder, &account.terms)?;
                print_ledger(self.rt, &account.ledger)
            }
            Err(why) => refused(self.rt, act, why),
        }
    }

    fn pools(&self, act: &Act) -> io::Result<()> {
        let pools = self.book.pools();
        let assets = self.book.assets();
        let closes = self.book.closes();
        println!(self.rt;
            "  {act}: {} {}, assets {assets}, closes {closes}",
            pools.of(Class::Delivery),
            pools.of(Class::Availability)
        )
    }

    fn close(&mut self, act: &Act, places: usize) -> io::Result<()> {
        let mut rows = [BLANK; ROWS];
        let list = &mut rows[0..places.min(ROWS)];
        print_closed(self.rt, act, self.book.close(list))?;
        print_rows(self.rt, list)
    }

    // Closes so often, and prints how many closes were taken.
    fn close_times(&mut self, act: &Act, times: u64) -> io::Result<()> {
        let mut rows = [BLANK; ROWS];
        let book = &mut self.book;
        let taken = (0..times).filter(|_| book.close(&mut rows).is_ok()).count();
        println!(self.rt; "  {act}: taken {taken}")
    }

    // Lists every asset from 1 to the last, and prints how many were taken.
    fn list_to(&mut self, act: &Act, last: u64) -> io::Result<()> {
        let book = &mut self.book;
        let taken = (1..=last)
            .filter(|asset| book.list(*asset, 1).is_ok())
            .count();
        println!(self.rt; "  {act}: taken {taken}")
    }

    fn play_one(&mut self, act: &Act) -> io::Result<()> {
        match *act {
            Act::Part(words) => self.rt.println(words),
            Act::List(asset, holder) => told(self.rt, act, self.book.list(asset, holder)),
            Act::ListTo(last) => self.list_to(act, last),
            Act::Term(asset, award, kw, ready) => {
                invoiced(self.rt, act, self.book.term(asset, award, kw, ready))
            }
            Act::Over(class, asset, cents) => {
                told(self.rt, act, self.book.over(class, asset, cents))
            }
            Act::Under(class, asset, cents) => {
                told(self.rt, act, self.book.under(class, asset, cents))
            }
            Act::Uplift(asset, cents) => told(self.rt, act, self.book.uplift(asset, cents)),
            Act::Resolve(asset, cents) => self.resolve(act, asset, cents),
            Act::ResolveTwice(asset, cents) => self.resolve_twice(act, asset, cents),
            Act::Payin(asset, cents) => told(self.rt, act, self.book.payin(asset, cents)),
            Act::Ready(asset) => told(self.rt, act, self.book.ready(asset)),
            Act::Close(places) => self.close(act, places),
            Act::Months(times) => self.close_times(act, times),
            Act::Look(asset) => self.look(act, asset),
            Act::Pools => self.pools(act),
        }
    }

    // Plays a table of acts, under its heading.
    pub fn play(&mut self, heading: &str, acts: &[Act]) -> anyhow::Result<()> {
        println!(self.rt; "{heading}")?;
        for act in acts {
            self.play_one(act)?;
        }
        Ok(())
    }
}
