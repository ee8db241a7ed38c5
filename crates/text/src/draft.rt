// The values of the fields, each tested against its range.
ghost use Rattle.std.specs.Prelude.{◌≡◌};
ghost use Rattle.text.specs.Next.{symbol_of};
ghost use Rattle.text.specs.Reading.{formed, fresh, hold, hold_number, in_range, take_in, with_number};
ghost use Rattle.text.specs.Tokens.{placed};

use crate::fault::FormFault;
use crate::form::{Field, Form, Verb};
use crate::token::{Next, Token};
use crate::words::class_named;
use book::{ASSET_MOST, Class, ENTRY_MOST, HOLDER_MOST};
use payment::{AWARD_MOST, COMMITMENT_MOST};

// Whether a number is in a field's range.
fn in_range(field: Field, n: i64) -> bool
    ensures value { result ≡ in_range field n }
{
    match field {
        Field::Class => true,
        Field::Asset => (1..=ASSET_MOST as i64).contains(&n),
        Field::Holder => (1..=HOLDER_MOST as i64).contains(&n),
        Field::Award => (-AWARD_MOST..=AWARD_MOST).contains(&n),
        Field::Kw => (0..=COMMITMENT_MOST as i64).contains(&n),
        Field::Ready => (0..=1).contains(&n),
        Field::Cents => (1..=ENTRY_MOST as i64).contains(&n),
    }
}

// The values of the fields that were read, each 0 until it is.
#[derive(Clone, Copy, Debug, PartialEq, Eq)]
pub(crate) struct Draft {
    pub class: Class,
    pub asset: u64,
    pub holder: u64,
    pub award: i64,
    pub kw: u64,
    pub ready: bool,
    pub cents: u64,
}

impl Draft {
    // Before a field was read.
    pub(crate) fn new() -> Draft
        ensures value { result ≡ fresh }
    {
        Draft {
            class: Class::Delivery,
            asset: 0,
            holder: 0,
            award: 0,
            kw: 0,
            ready: false,
            cents: 0,
        }
    }

    // With a number in a field, if it is in the field's range.
    fn hold_number(self, field: Field, n: i64) -> Option<Draft>
        ensures value { result ≡ hold_number field n self }
    {
        if !in_range(field, n) {
            return None;
        }
        Some(match field {
            Field::Class => self,
            Field::Asset => Draft {
                asset: n as u64,
                ..self
            },
            Field::Holder => Draft {
                holder: n as u64,
                ..self
            },
            Field::Award => Draft { award: n, ..self },
            Field::Kw => Draft {
                kw: n as u64,
                ..self
            },
            Field::Ready => Draft {
                ready: n == 1,
                ..self
            },
            Field::Cents => Draft {
                cents: n as u64,
                ..self
            },
        })
    }

    // With a value in a field, if it is in the field's range.
    fn hold(self, field: Field, token: Token) -> Option<Draft>
        ensures value { result ≡ hold field (symbol_of token.entry) self }
    {
        match token {
            Token::Word(word) => {
                Some(class_named(word).map_or(self, |class| Draft { class, ..self }))
            }
            Token::Number(number) => self.hold_number(field, number.value()),
            Token::Open | Token::Close => Some(self),
        }
    }

    // The form of a word, with these values.
    pub(crate) fn form(self, verb: Verb) -> Form
        ensures value { result ≡ formed verb self }
    {
        match verb {
            Verb::List => Form::List {
                asset: self.asset,
                holder: self.holder,
            },
            Verb::Term => Form::Term {
                asset: self.asset,
                award: self.award,
                commitment: self.kw,
                ready: self.ready,
            },
            Verb::Over => Form::Over {
                class: self.class,
                asset: self.asset,
                cents: self.cents,
            },
            Verb::Under => Form::Under {
                class: self.class,
                asset: self.asset,
                cents: self.cents,
            },
            Verb::Uplift => Form::Uplift {
                asset: self.asset,
                cents: self.cents,
            },
            Verb::Payin => Form::Payin {
                asset: self.asset,
                cents: self.cents,
            },
            Verb::Ready => Form::Ready { asset: self.asset },
            Verb::Close => Form::Close,
        }
    }
}

// What is gathered with one more field: the values, or the fault of the first that is out of its range.
pub(crate) fn taken_in(
    gathered: Result<Draft, FormFault>,
    field: Field,
    next: Next,
) -> Result<Draft, FormFault>
    ensures value { result ≡ take_in field (placed next.entry.place (symbol_of next.entry.token)) gathered }
{
    let draft = gathered?;
    draft
        .hold(field, next.token)
        .ok_or(FormFault::OutOfRange(next.place + 1))
}
