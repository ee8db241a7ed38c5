// The settlement book: accounts, entries and closes.
#![tactic(auto)]

mod account;
mod book;
mod class;
mod figures;
mod find;
mod limits;
mod pooling;
mod refusal;
mod row;
mod settling;
mod spot;

pub use account::{Account, Ledger, Terms};
pub use book::Book;
pub use class::{ByClass, Class};
pub use figures::worked_figures;
pub use limits::{ASSET_MOST, BALANCE_LEAST, CLOSES_MOST, ENTRIES_MOST, ENTRY_MOST, HOLDER_MOST};
pub use refusal::Refusal;
pub use row::{Closed, Row};
