// One call on a book with what it is given, or one look into it, and how both are printed.
use book::Class;
use std::fmt;

#[derive(Clone, Copy, Debug, PartialEq, Eq)]
pub enum Act {
    // what the acts below it show
    Part(&'static str),
    // asset and holder
    List(u64, u64),
    // every asset from 1 to this one
    ListTo(u64),
    // asset, award, kilowatts and ready
    Term(u64, i64, u64, bool),
    Over(Class, u64, u64),
    Under(Class, u64, u64),
    Uplift(u64, u64),
    Resolve(u64, i64),
    // where it is refused, the asset is listed and the same resolution posted again
    ResolveTwice(u64, i64),
    Payin(u64, u64),
    Ready(u64),
    // with a list of so many rows
    Close(usize),
    // so many closes, one after the other
    Months(u64),
    // at an account
    Look(u64),
    // at the open pools and the closes so far
    Pools,
}

fn class_word(class: Class) -> &'static str {
    match class {
        Class::Delivery => "delivery",
        Class::Availability => "availability",
    }
}

fn ready_word(ready: bool) -> &'static str {
    if ready { "ready" } else { "unready" }
}

impl fmt::Display for Act {
    fn fmt<W: fmt::Write>(&self, f: &mut fmt::Formatter<W>) -> fmt::Result {
        match *self {
            Act::Part(words) => f.write_str(words),
            Act::List(asset, holder) => write!(f, "list {asset} {holder}"),
            Act::ListTo(last) => write!(f, "list to {last}"),
            Act::Term(asset, award, kw, ready) => {
                write!(f, "term {asset} {award} {kw} {}", ready_word(ready))
            }
            Act::Over(class, asset, cents) => {
                write!(f, "over {} {asset} {cents}", class_word(class))
            }
            Act::Under(class, asset, cents) => {
                write!(f, "under {} {asset} {cents}", class_word(class))
            }
            Act::Uplift(asset, cents) => write!(f, "uplift {asset} {cents}"),
            Act::Resolve(asset, cents) => write!(f, "resolve {asset} {cents}"),
            Act::ResolveTwice(asset, cents) => write!(f, "resolve twice {asset} {cents}"),
            Act::Payin(asset, cents) => write!(f, "payin {asset} {cents}"),
            Act::Ready(asset) => write!(f, "ready {asset}"),
            Act::Close(rows) => write!(f, "close {rows}"),
            Act::Months(times) => write!(f, "months {times}"),
            Act::Look(asset) => write!(f, "look {asset}"),
            Act::Pools => f.write_str("pools"),
        }
    }
}
