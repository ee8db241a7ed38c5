// What is wrong with a line: a fault of the text, inside one of the form, inside one of the session.
ghost use Rattle.std.specs.Prelude.{◌≡◌};
ghost use Rattle.text.specs.declared.fault.Fault.TheVariants.{Book as ByBook, Form as InForm};
ghost use Rattle.text.specs.declared.fault.FormFault.TheVariants.{Text as InText};
ghost use Rattle.text.specs.Fault.{byte as byte_of, layer as layer_of, number as number_of};

use crate::lexer::LINE_MOST;

#[derive(Clone, Copy, Debug, PartialEq, Eq)]
pub enum TextFault {
    // the input has more than 65,536 bytes
    LongInput,
    // the line has more than 300 bytes
    LongLine,
    // a byte or a run is no token; its first byte, counted from 1
    NoToken(usize),
}

#[derive(Clone, Copy, Debug, PartialEq, Eq)]
pub enum FormFault {
    Text(TextFault),
    // the tokens are no form; the first byte of the wrong one, one past the line where it ends early
    NoForm(usize),
    // a value is outside its range; its first byte
    OutOfRange(usize),
}

#[derive(Clone, Copy, Debug, PartialEq, Eq)]
pub enum Fault {
    Form(FormFault),
    Book(book::Refusal),
}

#[derive(Clone, Copy, Debug, PartialEq, Eq)]
pub enum Layer {
    Text,
    Form,
    Book,
}

impl Fault {
    // The number by which the fault is known outside.
    pub fn number(self) -> u64
        ensures value { result ≡ number_of self }
    {
        match self {
            Fault::Form(FormFault::Text(TextFault::LongInput | TextFault::LongLine)) => 1,
            Fault::Form(FormFault::Text(TextFault::NoToken(_))) => 2,
            Fault::Form(FormFault::NoForm(_)) => 3,
            Fault::Form(FormFault::OutOfRange(_)) => 4,
            Fault::Book(why) => why.number(),
        }
    }

    // The byte that it names.
    pub fn byte(self) -> usize
        ensures value { result ≡ byte_of self }
    {
        match self {
            Fault::Form(FormFault::Text(TextFault::LongInput)) => 0,
            Fault::Form(FormFault::Text(TextFault::LongLine)) => LINE_MOST + 1,
            Fault::Form(
                FormFault::Text(TextFault::NoToken(at))
                | FormFault::NoForm(at)
                | FormFault::OutOfRange(at),
            ) => at,
            Fault::Book(_) => 1,
        }
    }

    // Where it was found.
    pub fn layer(self) -> Layer
        ensures value { result ≡ layer_of self }
    {
        match self {
            Fault::Form(FormFault::Text(_)) => Layer::Text,
            Fault::Form(_) => Layer::Form,
            Fault::Book(_) => Layer::Book,
        }
    }
}

impl From<TextFault> for FormFault {
    ghost from_gives = { λ e r. r ≡ InText e };

    fn from(fault: TextFault) -> FormFault {
        FormFault::Text(fault)
    }
}

impl From<FormFault> for Fault {
    ghost from_gives = { λ e r. r ≡ InForm e };

    fn from(fault: FormFault) -> Fault {
        Fault::Form(fault)
    }
}

impl From<book::Refusal> for Fault {
    ghost from_gives = { λ e r. r ≡ ByBook e };

    fn from(refusal: book::Refusal) -> Fault {
        Fault::Book(refusal)
    }
}
