// Why a call of this library is refused.
ghost use Rattle.std.specs.Prelude.{◌≡◌};
ghost use Rattle.payment.specs.Refusal.{number};

#[derive(Clone, Copy, Debug, PartialEq, Eq)]
pub enum Refusal {
    // A value is outside its range.
    OutOfRange,
}

impl Refusal {
    // The number by which the refusal is known outside.
    pub fn number(self) -> u64
        ensures value { result ≡ number self }
    {
        match self {
            Refusal::OutOfRange => 4,
        }
    }
}
