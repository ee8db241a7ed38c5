// Resolutions, posted to a book.
use crate::act::Act;
use crate::play::Player;
use crate::tell::refused;
use dispute::{Filed, Resolution};
use payment::PaymentRule;
use sharing::Seats;
use std::io;

// Of an asset and a sum: a paper is filed, offered the sum and accepted. None where the papers refuse the asset or the sum.
fn resolution_of(asset: u64, cents: i64) -> Option<Resolution> {
    let filed = Filed::file(asset, 1, 5).ok()?;
    match filed.offer(cents, 100) {
        Ok(served) => Some(served.accept(130).unwrap()),
        Err((filed, _)) => {
            filed.withdraw();
            None
        }
    }
}

impl<'a, R: Seats<N>, P: PaymentRule, const N: usize> Player<'a, R, P, N> {
    // Posts a resolution, or notes it where it is handed back.
    fn post(&mut self, act: &Act, resolution: Resolution) -> io::Result<()> {
        match self.book.resolve(resolution) {
            Ok(()) => println!(self.rt; "  {act}: taken"),
            Err((resolution, why)) => {
                let note = resolution.note();
                println!(self.rt;
                    "  {act}: refused by {}, noted {} {}",
                    why.number(),
                    note.asset,
                    note.cents
                )
            }
        }
    }

    pub fn resolve(&mut self, act: &Act, asset: u64, cents: i64) -> io::Result<()> {
        match resolution_of(asset, cents) {
            Some(resolution) => self.post(act, resolution),
            None => println!(self.rt; "  {act}: no resolution"),
        }
    }

    // Lists the asset of a resolution that was handed back, and posts it again.
    fn post_again(&mut self, act: &Act, resolution: Resolution) -> io::Result<()> {
        let _ = self.book.list(resolution.asset(), 1);
        self.post(act, resolution)
    }

    pub fn resolve_twice(&mut self, act: &Act, asset: u64, cents: i64) -> io::Result<()> {
        let Some(resolution) = resolution_of(asset, cents) else {
            return println!(self.rt; "  {act}: no resolution");
        };
        match self.book.resolve(resolution) {
            Ok(()) => println!(self.rt; "  {act}: taken at once"),
            Err((resolution, why)) => {
                // the resolution has to be spent before a failure to print ends this call
                let printed = refused(self.rt, act, why);
                self.post_again(act, resolution)?;
                printed
            }
        }
    }
}
