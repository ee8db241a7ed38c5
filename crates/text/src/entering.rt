// A form entered into a book.
ghost use Rattle.book.specs.Book.{view};
ghost use Rattle.text.specs.Answer.{Came, Made, Roomy};
ghost use Rattle.text.specs.Entering.{booked};
ghost use Rattle.std.specs.Prelude.{List};
ghost use Rattle.text.specs.declared.form.Form.TheVariants.{Close, Term};

use crate::answer::Answer;
use crate::fault::Fault;
use crate::form::Form;
use crate::print::{ClosedPeriod, Invoice};
use crate::reader::read_line;
use crate::transcript::ROW_PLACES;
use book::{Book, Refusal, Row};
use payment::PaymentRule;
use sharing::Seats;

// The term of a year; its invoice is printed where it is above 0.
fn enter_term<R: Seats<N>, P: PaymentRule, const N: usize>(
    book: &mut Book<R, P, N>,
    asset: u64,
    award: i64,
    commitment: u64,
    ready: bool,
) -> Result<Answer, Refusal>
    ensures made { (rows : List Row) → Made N R.SharingRule.shares P.PaymentRule.pays (Term asset award commitment ready) (view book.old) (booked result) rows (view book.new) }
    ensures room { Roomy result (view book.old) (view book.new) }
{
    let cents = book.term(asset, award, commitment, ready)?;
    if cents == 0 {
        return Ok(Answer::Silent);
    }
    Ok(Answer::Invoice(Invoice { asset, cents }))
}

fn enter_close<R: Seats<N>, P: PaymentRule, const N: usize>(
    book: &mut Book<R, P, N>,
    rows: &mut [Row; ROW_PLACES],
) -> Result<Answer, Refusal>
    ensures made { Made N R.SharingRule.shares P.PaymentRule.pays Close (view book.old) (booked result) rows.new (view book.new) }
    ensures room { Roomy result (view book.old) (view book.new) }
{
    let closed = book.close(rows)?;
    let period = ClosedPeriod {
        period: book.closes(),
        residues: closed.residues,
    };
    Ok(Answer::Closed {
        count: closed.rows,
        period,
    })
}

// Makes the call of a form. The rows of a close are left in `rows`.
fn enter<R: Seats<N>, P: PaymentRule, const N: usize>(
    book: &mut Book<R, P, N>,
    form: Form,
    rows: &mut [Row; ROW_PLACES],
) -> Result<Answer, Refusal>
    ensures made { Made N R.SharingRule.shares P.PaymentRule.pays form (view book.old) (booked result) rows.new (view book.new) }
    ensures room { Roomy result (view book.old) (view book.new) }
{
    match form {
        Form::List { asset, holder } => book.list(asset, holder)?,
        Form::Term {
            asset,
            award,
            commitment,
            ready,
        } => return enter_term(book, asset, award, commitment, ready),
        Form::Over {
            class,
            asset,
            cents,
        } => book.over(class, asset, cents)?,
        Form::Under {
            class,
            asset,
            cents,
        } => book.under(class, asset, cents)?,
        Form::Uplift { asset, cents } => book.uplift(asset, cents)?,
        Form::Payin { asset, cents } => book.payin(asset, cents)?,
        Form::Ready { asset } => book.ready(asset)?,
        Form::Close => return enter_close(book, rows),
    }
    Ok(Answer::Silent)
}

// Reads a line and makes its call.
pub(crate) fn answer<R: Seats<N>, P: PaymentRule, const N: usize>(
    book: &mut Book<R, P, N>,
    line: &[u8],
    rows: &mut [Row; ROW_PLACES],
) -> Result<Answer, Fault>
    ensures came { Came N R.SharingRule.shares P.PaymentRule.pays line.now (view book.old) result rows.new (view book.new) }
    ensures room { Roomy result (view book.old) (view book.new) }
{
    let form = read_line(line)?;
    Ok(enter(book, form, rows)?)
}
