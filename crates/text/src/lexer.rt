// Bytes to tokens.
ghost use Rattle.std.specs.Prelude.{◌≡◌, ℕ, ◌+◌, ◌<◌, ◌≤◌, ◌∷◌, length, take, drop, ◌≢◌};
ghost use Rattle.text.specs.Bytes.{sort_at};
ghost use Rattle.text.specs.Next.{told};
ghost use Rattle.text.specs.Tokens.{placed, symbol_by, tokens};
ghost use Rattle.text.specs.declared.byte.Sort.TheVariants.{Blank};
ghost use Rattle.text.specs.declared.lexer.TheConstants.{LINE_MOST};

use crate::byte::Sort;
use crate::fault::TextFault;
use crate::run::{Numeral, is_word};
use crate::token::{Next, Token};

// The most bytes of a line.
pub(crate) const LINE_MOST: usize = 300;

// How many bytes at the front are of a sort.
fn span(bytes: &[u8], sort: Sort) -> usize
    ensures bound { result ≤ length bytes.now }
    ensures all { (k : ℕ) → k < result → sort_at bytes.now k ≡ sort }
    ensures stops { result < length bytes.now → sort_at bytes.now result ≢ sort }
{
    bytes
        .iter()
        .position(|b| Sort::from(*b) != sort)
        .unwrap_or(bytes.len())
}

// How many bytes stand for themselves, where the first is of a sort: a whole run, or that byte.
fn piece_len(bytes: &[u8], sort: Sort) -> usize
    requires some { 0 < length bytes.now }
    requires first { sort_at bytes.now 0 ≡ sort }
    requires no_blank { sort ≢ Blank }
    ensures value { (place : ℕ) → tokens place bytes.now ≡ placed place (symbol_by sort (take result bytes.now)) ∷ tokens (place + result) (drop result bytes.now) }
    ensures bound { (0 < result) × (result ≤ length bytes.now) }
{
    match sort {
        Sort::Part => span(bytes, sort),
        _ => 1,
    }
}

// The token that bytes are whose first is of a sort, if they are one.
fn token_of(sort: Sort, bytes: &[u8]) -> Option<Token<'_>>
    ensures { told result ≡ symbol_by sort bytes.now }
{
    match sort {
        Sort::Open => Some(Token::Open),
        Sort::Close => Some(Token::Close),
        Sort::Part if is_word(bytes) => Some(Token::Word(bytes)),
        Sort::Part => Numeral::new(bytes).map(Token::Number),
        Sort::Blank | Sort::Foreign => None,
    }
}

// What is left of a line, and how many bytes of the line stand before it.
#[derive(Clone, Copy, Debug, PartialEq, Eq)]
pub(crate) struct Cursor<'a> {
    rest: &'a [u8],
    at: usize,
    ghost within: { at + length rest.now ≤ LINE_MOST },
}

impl<'a> Cursor<'a> {
    ghost use Rattle.text.specs.Cursor.{Given, Opened, end_of, left};
    ghost use Rattle.text.specs.Next.{Sound};

    // At the front of a line, if it is not too long.
    pub(crate) fn new(line: &'a [u8]) -> Result<Cursor<'a>, TextFault>
        ensures { Opened line.now result }
    {
        if line.len() > LINE_MOST {
            return Err(TextFault::LongLine);
        }
        Ok(Cursor { rest: line, at: 0 })
    }

    // The byte past the line, counted from 1.
    pub(crate) fn end(&self) -> usize
        ensures { result ≡ end_of self.now }
    {
        self.at + self.rest.len() + 1
    }

    // The next token, or nothing where only blanks are left. Inlined, since a line is read by it token by token.
    #[inline(always)]
    pub(crate) fn next_token(&mut self) -> Result<Option<Next<'a>>, TextFault>
        ensures { Given self.old result self.new }
    {
        let blanks = span(self.rest, Sort::Blank);
        let (_, rest) = self.rest.split_at(blanks);
        let place = self.at + blanks;
        let [first, ..] = rest else {
            return Ok(None);
        };
        let sort = Sort::from(*first);
        let len = piece_len(rest, sort);
        let (bytes, rest) = rest.split_at(len);
        let token = token_of(sort, bytes).ok_or(TextFault::NoToken(place + 1))?;
        *self = Cursor {
            rest,
            at: place + len,
        };
        Ok(Some(Next { token, place }))
    }

    // Whether all that is left is tokens.
    pub(crate) fn all_tokens(mut self) -> Result<(), TextFault>
        ensures { Sound (left self.entry) result }
    {
        while self.next_token()?.is_some() {}
        Ok(())
    }
}
