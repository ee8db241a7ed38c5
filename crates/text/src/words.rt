// The words of the forms.
ghost use Rattle.std.specs.Prelude.{◌≡◌};
ghost use Rattle.text.specs.Forms.{class_named, field_word, fields, fits, named};
ghost use Rattle.text.specs.Next.{symbol_of};

use crate::form::{Field, Item, Verb};
use crate::token::Token;
use book::Class;

pub(crate) fn verb_named(word: &[u8]) -> Option<Verb>
    ensures value { result ≡ named word.now }
{
    match word {
        b"list" => Some(Verb::List),
        b"term" => Some(Verb::Term),
        b"over" => Some(Verb::Over),
        b"under" => Some(Verb::Under),
        b"uplift" => Some(Verb::Uplift),
        b"payin" => Some(Verb::Payin),
        b"ready" => Some(Verb::Ready),
        b"close" => Some(Verb::Close),
        _ => None,
    }
}

fn field_word(field: Field) -> &'static [u8]
    ensures value { result.now ≡ field_word field }
{
    match field {
        Field::Class => b"class",
        Field::Asset => b"asset",
        Field::Holder => b"holder",
        Field::Award => b"award",
        Field::Kw => b"kw",
        Field::Ready => b"ready",
        Field::Cents => b"cents",
    }
}

pub(crate) fn fields_of(verb: Verb) -> &'static [Field]
    ensures value { result.now ≡ fields verb }
{
    match verb {
        Verb::List => &[Field::Asset, Field::Holder],
        Verb::Term => &[Field::Asset, Field::Award, Field::Kw, Field::Ready],
        Verb::Over | Verb::Under => &[Field::Class, Field::Asset, Field::Cents],
        Verb::Uplift | Verb::Payin => &[Field::Asset, Field::Cents],
        Verb::Ready => &[Field::Asset],
        Verb::Close => &[],
    }
}

pub(crate) fn class_named(word: &[u8]) -> Option<Class>
    ensures value { result ≡ class_named word.now }
{
    match word {
        b"delivery" => Some(Class::Delivery),
        b"availability" => Some(Class::Availability),
        _ => None,
    }
}

// Whether a token may stand where an item is wanted.
pub(crate) fn suits(item: Item, token: Token) -> bool
    ensures value { result ≡ fits item (symbol_of token.entry) }
{
    match (item, token) {
        (Item::Open, Token::Open) | (Item::Close, Token::Close) => true,
        (Item::Name(field), Token::Word(word)) => word == field_word(field),
        (Item::Value(Field::Class), Token::Word(word)) => class_named(word).is_some(),
        (Item::Value(Field::Class), _) => false,
        (Item::Value(_), Token::Number(_)) => true,
        _ => false,
    }
}
