// Prints what a book answers.
use crate::act::Act;
use book::{ByClass, Closed, Ledger, Refusal, Row, Terms};
use std::io;

// What a row list holds before a close.
pub const BLANK: Row = Row {
    asset: 0,
    award: 0,
    taken: ByClass::NONE,
    share: ByClass::NONE,
    payment: 7,
    balance: 7,
};

pub fn refused(rt: &HostRuntime, act: &Act, why: Refusal) -> io::Result<()> {
    println!(rt; "  {act}: refused by {}", why.number())
}

pub fn told(rt: &HostRuntime, act: &Act, answer: Result<(), Refusal>) -> io::Result<()> {
    match answer {
        Ok(()) => println!(rt; "  {act}: taken"),
        Err(why) => refused(rt, act, why),
    }
}

pub fn invoiced(rt: &HostRuntime, act: &Act, answer: Result<u64, Refusal>) -> io::Result<()> {
    match answer {
        Ok(cents) => println!(rt; "  {act}: invoice {cents}"),
        Err(why) => refused(rt, act, why),
    }
}

fn print_row(rt: &HostRuntime, row: &Row) -> io::Result<()> {
    println!(rt;
        "    row {}: award {}, taken {} {}, share {} {}, paid {}, carried {}",
        row.asset,
        row.award,
        row.taken.delivery,
        row.taken.availability,
        row.share.delivery,
        row.share.availability,
        row.payment,
        row.balance
    )
}

// The rows that a close wrote, and how many it left alone.
pub fn print_rows(rt: &HostRuntime, rows: &[Row]) -> io::Result<()> {
    for row in rows {
        if *row != BLANK {
            print_row(rt, row)?;
        }
    }
    let alone = rows.iter().filter(|row| **row == BLANK).count();
    println!(rt; "    rows left alone {alone}")
}

pub fn print_closed(
    rt: &HostRuntime,
    act: &Act,
    answer: Result<Closed, Refusal>,
) -> io::Result<()> {
    match answer {
        Ok(closed) => println!(rt;
            "  {act}: rows {}, residues {} {}",
            closed.rows, closed.residues.delivery, closed.residues.availability
        ),
        Err(why) => refused(rt, act, why),
    }
}

pub fn print_terms(rt: &HostRuntime, act: &Act, holder: u64, terms: &Terms) -> io::Result<()> {
    println!(rt;
        "  {act}: holder {holder}, award {}, kw {}, year {}, cap base {}, mark {}",
        terms.award,
        terms.commitment,
        terms.year.unwrap_or(0),
        terms.cap_base,
        u64::from(terms.mark)
    )
}

pub fn print_ledger(rt: &HostRuntime, ledger: &Ledger) -> io::Result<()> {
    println!(rt;
        "    general {}, entries {}, claims {} {}, charges {} {}",
        ledger.general,
        ledger.entries,
        ledger.claims.delivery,
        ledger.claims.availability,
        ledger.charges.delivery,
        ledger.charges.availability
    )
}
