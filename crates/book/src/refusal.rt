// Why a call of the book is refused.
ghost use Rattle.std.specs.Prelude.{◌≡◌};
ghost use Rattle.book.specs.Refusal.{number};

#[derive(Clone, Copy, Debug, PartialEq, Eq)]
pub enum Refusal {
    // a value is outside its range
    OutOfRange,
    // all periods are closed
    AllClosed,
    // the asset is listed
    Listed,
    // the book takes no more assets
    Full,
    // the asset is not listed
    NotListed,
    // a term outside month 1, or availability outside month 12
    WrongMonth,
    // the year has a term for this asset
    TermGiven,
    // no commitment is in force
    NoCommitment,
    // the carried balance is too far below zero for a term
    TooFarBelow,
    // a class total or the month's entries would pass their limit
    PastLimit,
    // the sum exceeds what the asset owes
    NotOwed,
    // the mark is not 0
    Marked,
    // the row list is shorter than the assets
    FewRows,
}

impl Refusal {
    // The number by which the refusal is known outside.
    pub fn number(self) -> u64
        ensures value { result ≡ number self }
    {
        match self {
            Refusal::OutOfRange => 4,
            Refusal::AllClosed => 5,
            Refusal::Listed => 6,
            Refusal::Full => 7,
            Refusal::NotListed => 8,
            Refusal::WrongMonth => 9,
            Refusal::TermGiven => 10,
            Refusal::NoCommitment => 11,
            Refusal::TooFarBelow => 12,
            Refusal::PastLimit => 13,
            Refusal::NotOwed => 14,
            Refusal::Marked => 15,
            Refusal::FewRows => 16,
        }
    }
}
