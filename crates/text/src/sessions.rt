// A session: the lines of an input, told to a book one after the other.
ghost use Rattle.std.specs.Prelude.{◌≡◌, ◌+◌, ◌≤◌, [], length, IfOk, vec_len, vec_capacity, MatchResult};
ghost use Rattle.book.specs.Book.{view};
ghost use Rattle.book.specs.History.{History};
ghost use Rattle.text.specs.Line.{fault_line};
ghost use Rattle.text.specs.declared.fault.Fault.TheVariants.{Form as InForm};
ghost use Rattle.text.specs.declared.fault.FormFault.TheVariants.{Text as InText};
ghost use Rattle.text.specs.declared.fault.TextFault.TheVariants.{LongInput};
ghost use Rattle.text.specs.Session.{Session, input_most, lines};
ghost use Rattle.text.specs.Settling.{CarriedOn, Settled};
ghost use Rattle.text.specs.Telling.{LineTold, needed};

use crate::entering::answer;
use crate::fault::{Fault, FormFault, TextFault};
use crate::input::{Lines, line_count};
use crate::page::PAGE_LEAST;
use crate::print::RefusedLine;
use crate::transcript::{ROW_PLACES, Transcript};
use book::{Book, ByClass, CLOSES_MOST, Row};
use payment::PaymentRule;
use sharing::Seats;
use std::alloc::{AllocError, Global};

// The most bytes of an input.
pub const INPUT_MOST: usize = 65_536;

const BLANK: Row = Row {
    asset: 0,
    award: 0,
    taken: ByClass::NONE,
    share: ByClass::NONE,
    payment: 0,
    balance: 0,
};

// Tells one line, and prints what comes of it.
fn tell_line<R: Seats<N>, P: PaymentRule, const N: usize>(
    book: &mut Book<R, P, N>,
    transcript: &mut Transcript,
    number: usize,
    line: &[u8],
    rows: &mut [Row; ROW_PLACES],
)
    requires { vec_len transcript.old.bytes + needed 1 (view book.old) ≤ vec_capacity transcript.old.bytes }
    ensures told { LineTold N R.SharingRule.shares P.PaymentRule.pays number line.now (view book.old) transcript.old.bytes (view book.new) transcript.new.bytes }
{
    let answered = answer(book, line, rows);
    transcript.print_answer(number, answered, rows);
}

// Tells all lines, with memory for all that they print.
fn tell_lines<R: Seats<N>, P: PaymentRule, const N: usize>(
    book: &mut Book<R, P, N>,
    transcript: &mut Transcript,
    input: &[u8],
)
    requires { (transcript.old.bytes.items ≡ []) × ((length input.now ≤ input_most) × (vec_len transcript.old.bytes + needed (length (lines input.now)) (view book.old) ≤ vec_capacity transcript.old.bytes)) }
    ensures told { (h : History) × Session N R.SharingRule.shares P.PaymentRule.pays (view book.old) (lines input.now) transcript.new.bytes.items h (view book.new) }
{
    let mut rows = [BLANK; ROW_PLACES];
    for (told, line) in Lines(input).enumerate() {
        tell_line(book, transcript, told + 1, line, &mut rows);
    }
}

// The bytes that a session can print at the most.
fn room_for<R: Seats<N>, P: PaymentRule, const N: usize>(
    book: &Book<R, P, N>,
    lines: usize,
) -> usize
    requires { lines ≤ input_most + 1 }
    ensures value { result ≡ needed lines (view book.now) }
{
    let closes = CLOSES_MOST.saturating_sub(book.closes()) as usize;
    (lines + ROW_PLACES * closes) * PAGE_LEAST
}

// Tells a whole input to a book, and answers the transcript. Memory is asked for before the first line is told.
pub fn session<R: Seats<N>, P: PaymentRule, const N: usize>(
    book: &mut Book<R, P, N>,
    heap: Global,
    input: &[u8],
) -> Result<Vec<u8>, AllocError>
    ensures transcript { MatchResult result (λ out. CarriedOn N R.SharingRule.shares P.PaymentRule.pays (view book.old) input.now out.items (view book.new)) (λ _. view book.new ≡ view book.old) }
{
    if input.len() > INPUT_MOST {
        return unread(heap);
    }
    let room = room_for(book, line_count(input));
    let mut transcript = Transcript::with_room(heap, room)?;
    tell_lines(book, &mut transcript, input);
    Ok(transcript.bytes)
}

// The transcript of an input that is too long to be read.
fn unread(heap: Global) -> Result<Vec<u8>, AllocError>
    ensures made { IfOk result (λ out. out.items ≡ fault_line 0 (InForm (InText LongInput))) }
{
    let mut transcript = Transcript::with_room(heap, PAGE_LEAST)?;
    let fault = Fault::Form(FormFault::Text(TextFault::LongInput));
    transcript.print(&RefusedLine { line: 0, fault });
    Ok(transcript.bytes)
}

// Opens a book of this rule and this pile, tells it a whole input, and answers the transcript with the book as it is left. The
// clause `law` says that what was entered and answered is a history of that book, of which the law over histories holds.
pub fn settle<R: Seats<N>, P: PaymentRule, const N: usize>(
    heap: Global,
    rule: R,
    pile: P,
    input: &[u8],
) -> Result<(Vec<u8>, Book<R, P, N>), AllocError>
where
    R: Drop,
    P: Drop,
    ensures law { IfOk result (λ left. Settled N R.SharingRule.shares P.PaymentRule.pays P.PaymentRule.limits input.now left.0.items (view left.1)) }
{
    let mut book = Book::open(heap, rule, pile)?;
    let out = session(&mut book, heap, input)?;
    Ok((out, book))
}
