// The forms: what a line says, and what its tokens are.
use book::Class;

#[derive(Clone, Copy, Debug, PartialEq, Eq)]
pub enum Form {
    List {
        asset: u64,
        holder: u64,
    },
    Term {
        asset: u64,
        award: i64,
        commitment: u64,
        ready: bool,
    },
    Over {
        class: Class,
        asset: u64,
        cents: u64,
    },
    Under {
        class: Class,
        asset: u64,
        cents: u64,
    },
    Uplift {
        asset: u64,
        cents: u64,
    },
    Payin {
        asset: u64,
        cents: u64,
    },
    Ready {
        asset: u64,
    },
    Close,
}

// The word of a form.
#[derive(Clone, Copy, Debug, PartialEq, Eq)]
pub(crate) enum Verb {
    List,
    Term,
    Over,
    Under,
    Uplift,
    Payin,
    Ready,
    Close,
}

#[derive(Clone, Copy, Debug, PartialEq, Eq)]
pub(crate) enum Field {
    Class,
    Asset,
    Holder,
    Award,
    Kw,
    Ready,
    Cents,
}

// What may stand at a place among the fields.
#[derive(Clone, Copy, Debug, PartialEq, Eq)]
pub(crate) enum Item {
    Open,
    Name(Field),
    Value(Field),
    Close,
}
