// The ready mark of an asset.
ghost use Rattle.std.specs.Prelude.{◌≡◌, ◌==◌};
ghost use Rattle.payment.specs.Mark.{IsMarkOf, mark_number};

use crate::refusal::Refusal;

#[derive(Clone, Copy, Debug, PartialEq, Eq)]
pub enum Mark {
    NotReady,
    // Ready from the next period on.
    ReadyNext,
    Ready,
}

// The mark that has this number.
impl TryFrom<u64> for Mark {
    type Error = Refusal;

    ghost try_from_gives = { IsMarkOf };

    fn try_from(n: u64) -> Result<Mark, Refusal> {
        match n {
            0 => Ok(Mark::NotReady),
            1 => Ok(Mark::ReadyNext),
            2 => Ok(Mark::Ready),
            _ => Err(Refusal::OutOfRange),
        }
    }
}

// The number of a mark.
impl From<Mark> for u64 {
    ghost from_gives = { λ mark n. n ≡ mark_number mark };

    fn from(mark: Mark) -> u64 {
        match mark {
            Mark::NotReady => 0,
            Mark::ReadyNext => 1,
            Mark::Ready => 2,
        }
    }
}

impl Mark {
    pub fn is_ready(self) -> bool
        ensures value { result ≡ (mark_number self == 2) }
    {
        self == Mark::Ready
    }
}

#[cfg(test)]
mod tests {
    use super::*;
    use std::test::Fail;

    #[test]
    fn marks_are_0_to_2(rt: HostRuntime) -> Result<(), Fail> {
        assert_eq!(rt; u64::from(Mark::try_from(0)?), 0);
        assert_eq!(rt; u64::from(Mark::try_from(1)?), 1);
        assert!(rt; Mark::try_from(2)?.is_ready());
        assert!(rt; Mark::try_from(3).is_err());
        Ok(())
    }
}
