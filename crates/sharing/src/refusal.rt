// Why a call of this library is refused.
ghost use Rattle.std.specs.Prelude.{◌≡◌};
ghost use Rattle.sharing.specs.Refusal.{number};

#[derive(Clone, Copy, Debug, PartialEq, Eq)]
pub enum Refusal {
    // the lists differ in length, there are more claims than the rule serves, or the pool or the claims in sum pass the limit
    Unshareable,
}

impl Refusal {
    // The number by which the refusal is known outside.
    pub fn number(self) -> u64
        ensures value { result ≡ number self }
    {
        match self {
            Refusal::Unshareable => 19,
        }
    }
}
