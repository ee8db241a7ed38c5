// Tokens to forms.
ghost use Rattle.std.specs.Prelude.{◌≡◌};
ghost use Rattle.text.specs.Forms.{verb_of};
ghost use Rattle.text.specs.Grammar.{Only, ReadBack, Reads};
ghost use Rattle.text.specs.Next.{symbol_of};
ghost use Rattle.text.specs.Reader.{read_from, read_behind};
ghost use Rattle.text.specs.Reading.{reading};

use crate::draft::{Draft, taken_in};
use crate::fault::FormFault;
use crate::form::{Field, Form, Item, Verb};
use crate::lexer::Cursor;
use crate::token::{Next, Token};
use crate::words::{fields_of, suits, verb_named};

fn verb_in(token: Token) -> Option<Verb>
    ensures value { result ≡ verb_of (symbol_of token.entry) }
{
    match token {
        Token::Word(word) => verb_named(word),
        _ => None,
    }
}

impl<'a> Cursor<'a> {
    ghost use Rattle.text.specs.Reader.{Expected, FieldRead, FieldsRead, Finished, HeadRead, Wanted};

    // The next token, where the line may not end.
    fn wanted(&mut self) -> Result<Next<'a>, FormFault>
        ensures { Wanted self.old result self.new }
    {
        self.next_token()?.ok_or(FormFault::NoForm(self.end()))
    }

    // The next token, where an item is wanted.
    fn accept(&mut self, item: Item) -> Result<Next<'a>, FormFault>
        ensures { Expected self.old item result self.new }
    {
        let next = self.wanted()?;
        if !suits(item, next.token) {
            return Err(FormFault::NoForm(next.place + 1));
        }
        Ok(next)
    }

    // The value of a field.
    fn read_field(&mut self, field: Field) -> Result<Next<'a>, FormFault>
        ensures { FieldRead self.old field result self.new }
    {
        self.accept(Item::Open)?;
        self.accept(Item::Name(field))?;
        let value = self.accept(Item::Value(field))?;
        self.accept(Item::Close)?;
        Ok(value)
    }

    // The values of some fields, or the fault of the first that is out of its range. That fault is handed on, as one of the form
    // comes before it, wherever it stands.
    fn read_fields(&mut self, fields: &[Field]) -> Result<Result<Draft, FormFault>, FormFault>
        ensures { FieldsRead self.old fields.now result self.new }
    {
        let mut gathered = Ok(Draft::new());
        for field in fields {
            let value = self.read_field(*field)?;
            gathered = taken_in(gathered, *field, value);
        }
        Ok(gathered)
    }

    // The opening bracket of a form, and its word.
    fn read_head(&mut self) -> Result<Verb, FormFault>
        ensures { HeadRead self.old result self.new }
    {
        self.accept(Item::Open)?;
        let word = self.wanted()?;
        verb_in(word.token).ok_or(FormFault::NoForm(word.place + 1))
    }

    // The closing bracket of a form, with nothing behind it.
    fn finish(mut self) -> Result<(), FormFault>
        ensures { Finished self.entry result }
    {
        self.accept(Item::Close)?;
        match self.next_token()? {
            None => Ok(()),
            Some(next) => Err(FormFault::NoForm(next.place + 1)),
        }
    }
}

// The form of a word, out of the part of the line behind it.
fn read_behind(verb: Verb, mut part: Cursor) -> Result<Form, FormFault>
    ensures { result ≡ read_behind verb part.entry }
{
    let gathered = part.read_fields(fields_of(verb))?;
    part.finish()?;
    Ok(gathered?.form(verb))
}

// What the tokens of a line say, or the fault of the first that is wrong: the head of the form, then all behind it.
fn read_tokens(mut line: Cursor) -> Result<Form, FormFault>
    ensures { result ≡ read_from line.entry }
{
    let verb = line.read_head()?;
    read_behind(verb, line)
}

// The same of any line. A form has no byte that is no token; where there is no form, such a byte is the first fault.
fn read_whole(line: &[u8]) -> Result<Form, FormFault>
    ensures value { result ≡ reading line.now }
{
    let cursor = Cursor::new(line)?;
    // matched, as the second reading can fail too, and its fault comes before the first's
    match read_tokens(cursor) {
        Ok(form) => Ok(form),
        Err(fault) => {
            cursor.all_tokens()?;
            Err(fault)
        }
    }
}

// What a line says, or the one fault that it has.
pub fn read_line(line: &[u8]) -> Result<Form, FormFault>
    ensures value { result ≡ reading line.now }
    ensures law { Reads line.now result }
    ensures only { Only line.now result }
    ensures back { ReadBack }
{
    read_whole(line)
}
