// Tokens: parts of a line.
ghost use Rattle.std.specs.Prelude.{◌<◌};
ghost use Rattle.text.specs.declared.lexer.TheConstants.{LINE_MOST};

use crate::run::Numeral;

#[derive(Clone, Copy, Debug, PartialEq, Eq)]
pub(crate) enum Token<'a> {
    Open,
    Close,
    Word(&'a [u8]),
    Number(Numeral<'a>),
}

// A token with its place: how many bytes stand before it in the line.
#[derive(Clone, Copy, Debug, PartialEq, Eq)]
pub(crate) struct Next<'a> {
    pub token: Token<'a>,
    pub place: usize,
    ghost near: { place < LINE_MOST },
}
