// Why a line is not written.
ghost use Rattle.std.specs.Prelude.{◌≡◌};
ghost use Rattle.text.specs.Refusal.{number};

#[derive(Clone, Copy, Debug, PartialEq, Eq)]
pub enum Refusal {
    // the page has less than 300 bytes
    ShortPage,
}

impl Refusal {
    // The number by which the refusal is known outside.
    pub fn number(self) -> u64
        ensures value { result ≡ number self }
    {
        match self {
            Refusal::ShortPage => 16,
        }
    }
}
