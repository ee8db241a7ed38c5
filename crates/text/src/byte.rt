// What a byte of a line is.
ghost use Rattle.std.specs.Prelude.{◌≡◌};
ghost use Rattle.text.specs.Bytes.{sort};

#[derive(Clone, Copy, Debug, PartialEq, Eq)]
pub(crate) enum Sort {
    Open,
    Close,
    Blank,
    // part of a word or a number
    Part,
    // of no token
    Foreign,
}

impl From<u8> for Sort {
    ghost from_gives = { λ b s. s ≡ sort b };

    fn from(b: u8) -> Sort {
        match char::from(b) {
            '(' => Sort::Open,
            ')' => Sort::Close,
            ' ' => Sort::Blank,
            'a'..='z' | '0'..='9' | '-' => Sort::Part,
            _ => Sort::Foreign,
        }
    }
}
