// Reading a paper at any stage.
ghost use Rattle.std.specs.Prelude.{◌≡◌};

use crate::paper::Paper;

impl<S> Paper<S> {
    pub fn asset(&self) -> u64
        ensures value { result ≡ self.now.asset }
    {
        self.asset
    }

    pub fn period(&self) -> u64
        ensures value { result ≡ self.now.period }
    {
        self.period
    }
}
