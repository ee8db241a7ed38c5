// The printed lines.
ghost use Rattle.std.specs.Prelude.{◌≡◌, ◌+◌, ◌≤◌, ◌++◌, length};
ghost use Rattle.arrayvec.specs.ArrayString.{array_string_len};
ghost use Rattle.book.specs.Class.{both};
ghost use Rattle.text.specs.Line.{closed_line, fault_line, invoice_line, layer_word, row_line};
ghost use Rattle.text.specs.Page.{page_least};

use crate::fault::{Fault, Layer};
use crate::page::{Line, Text};
use book::{ByClass, Row};
use itoa::{Buffer, Integer};

// What is due from an asset at once.
#[derive(Clone, Copy, Debug, PartialEq, Eq)]
pub struct Invoice {
    pub asset: u64,
    pub cents: u64,
}

// The end of a close: its period and what no claim took.
#[derive(Clone, Copy, Debug, PartialEq, Eq)]
pub struct ClosedPeriod {
    pub period: u64,
    pub residues: ByClass,
}

// Why a line was not taken.
#[derive(Clone, Copy, Debug, PartialEq, Eq)]
pub struct RefusedLine {
    pub line: usize,
    pub fault: Fault,
}

// Puts a number in decimal behind a text, and what stands before it. Inlined, so that the words before it are no call.
#[inline(always)]
fn put<I: Integer>(text: &mut Text, before: &str, n: I)
    requires { array_string_len text.old + length before.now + I.MAX_STR_LEN ≤ page_least }
    ensures bytes { text.new.bytes ≡ text.old.bytes ++ (before.now ++ I.text n) }
    ensures bound { array_string_len text.new ≤ array_string_len text.old + length before.now + I.MAX_STR_LEN }
{
    text.push_str(before);
    text.push_str(Buffer::new().format(n));
}

// What both classes come to, which can pass 64 bits.
fn sum(pair: ByClass) -> u128
    ensures value { result ≡ both pair }
{
    u128::from(pair.delivery) + u128::from(pair.availability)
}

fn word(layer: Layer) -> &'static str
    ensures value { result.now ≡ layer_word layer }
{
    match layer {
        Layer::Text => "text",
        Layer::Form => "form",
        Layer::Book => "book",
    }
}

// What an asset was paid at a close, and what it carries.
impl Line for Row {
    ghost bytes = { row_line };

    fn spell(&self, text: &mut Text) {
        text.clear();
        put(text, "(row (asset ", self.asset);
        put(text, ") (award ", self.award);
        put(text, ") (taken ", sum(self.taken));
        put(text, ") (share ", sum(self.share));
        put(text, ") (paid ", self.payment);
        put(text, ") (carried ", self.balance);
        text.push_str("))\n");
    }
}

impl Line for ClosedPeriod {
    ghost bytes = { λ closed. closed_line closed.period closed.residues };

    fn spell(&self, text: &mut Text) {
        text.clear();
        put(text, "(closed (period ", self.period);
        put(text, ") (delivery ", self.residues.delivery);
        put(text, ") (availability ", self.residues.availability);
        text.push_str("))\n");
    }
}

impl Line for Invoice {
    ghost bytes = { λ invoice. invoice_line invoice.asset invoice.cents };

    fn spell(&self, text: &mut Text) {
        text.clear();
        put(text, "(invoice (asset ", self.asset);
        put(text, ") (cents ", self.cents);
        text.push_str("))\n");
    }
}

impl Line for RefusedLine {
    ghost bytes = { λ refused. fault_line refused.line refused.fault };

    fn spell(&self, text: &mut Text) {
        text.clear();
        put(text, "(refused (line ", self.line);
        put(text, ") (byte ", self.fault.byte());
        text.push_str(") (layer ");
        text.push_str(word(self.fault.layer()));
        put(text, ") (number ", self.fault.number());
        text.push_str("))\n");
    }
}
