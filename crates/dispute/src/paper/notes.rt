// Reading a resolution, and turning it into a plain note.
ghost use Rattle.std.specs.Prelude.{◌≡◌};

use crate::paper::Resolution;

// What a resolution said, as a plain record.
#[derive(Clone, Copy, Debug, PartialEq, Eq)]
pub struct Note {
    pub asset: u64,
    pub cents: i64,
}

impl Resolution {
    pub fn asset(&self) -> u64
        ensures value { result ≡ self.now.asset }
    {
        self.asset
    }

    pub fn cents(&self) -> i64
        ensures value { result ≡ self.now.cents }
    {
        self.cents
    }

    // Spends the resolution. What posts one to a book takes it by value, reads it, hands it back where it refuses, and else
    // ends with this call, so that there is no other way to be rid of one.
    pub fn note(self) -> Note
        ensures value { (result.asset ≡ self.asset) × (result.cents ≡ self.cents) }
    {
        let Resolution { asset, cents } = self;
        Note { asset, cents }
    }
}
