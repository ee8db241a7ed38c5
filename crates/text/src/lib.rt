// Text in, text out: bytes to tokens to forms, printed lines, and a session over a book.
#![tactic(auto)]

mod answer;
mod byte;
mod draft;
mod entering;
mod fault;
mod form;
mod input;
mod lexer;
mod page;
mod print;
mod reader;
mod refusal;
mod run;
mod sessions;
mod token;
mod transcript;
mod words;

pub use fault::{Fault, FormFault, Layer, TextFault};
pub use form::Form;
pub use page::{Line, PAGE_LEAST, Text, write};
pub use print::{ClosedPeriod, Invoice, RefusedLine};
pub use reader::read_line;
pub use refusal::Refusal;
pub use sessions::{INPUT_MOST, session, settle};
