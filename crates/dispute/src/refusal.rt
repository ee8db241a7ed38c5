// Why a call of this library is refused.
ghost use Rattle.std.specs.Prelude.{◌≡◌};
ghost use Rattle.dispute.specs.Refusal.{number};

#[derive(Clone, Copy, Debug, PartialEq, Eq)]
pub enum Refusal {
    // A value is outside its range.
    OutOfRange,
    // The period is not yet open to disputes.
    TooEarly,
    // A reply's day is outside its time.
    OutsideTime,
}

impl Refusal {
    // The number by which the refusal is known outside.
    pub fn number(self) -> u64
        ensures value { result ≡ number self }
    {
        match self {
            Refusal::OutOfRange => 4,
            Refusal::TooEarly => 17,
            Refusal::OutsideTime => 18,
        }
    }
}
