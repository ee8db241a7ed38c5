// Making a standing, and reading its figures.
ghost use Rattle.std.specs.Prelude.{◌≡◌, IfOk};
ghost use Rattle.payment.specs.Refusal.{RefusedUnless, refusal};
ghost use Rattle.payment.specs.Stand.{InRange, stand};
ghost use Rattle.payment.specs.Standing.{view};

use crate::mark::Mark;
use crate::refusal::Refusal;
use crate::standing::{AWARD_MOST, CAP_BASE_MOST, COMMITMENT_MOST, Standing};

impl Standing {
    pub fn new(award: i64, cap_base: i64, commitment: u64, mark: Mark) -> Result<Standing, Refusal>
        ensures cases { RefusedUnless (InRange (stand award cap_base commitment mark)) 4 (refusal result) }
        ensures value { IfOk result (λ s. view s ≡ stand award cap_base commitment mark) }
    {
        let in_range = (-AWARD_MOST..=AWARD_MOST).contains(&award)
            && (0..=CAP_BASE_MOST).contains(&cap_base)
            && commitment <= COMMITMENT_MOST;
        if !in_range {
            return Err(Refusal::OutOfRange);
        }
        Ok(Standing {
            award,
            cap_base,
            commitment,
            mark,
        })
    }

    pub fn award(&self) -> i64
        ensures value { result ≡ (view self.now).award }
    {
        self.award
    }

    pub fn cap_base(&self) -> i64
        ensures value { result ≡ (view self.now).cap_base }
    {
        self.cap_base
    }

    pub fn commitment(&self) -> u64
        ensures value { result ≡ (view self.now).commitment }
    {
        self.commitment
    }

    pub fn mark(&self) -> Mark
        ensures value { result ≡ (view self.now).mark }
    {
        self.mark
    }
}

#[cfg(test)]
mod tests {
    use super::*;

    // The number that the figures are refused by, 0 where they are taken.
    fn refusal_of(award: i64, cap_base: i64, commitment: u64) -> u64 {
        match Standing::new(award, cap_base, commitment, Mark::Ready) {
            Ok(_) => 0,
            Err(refusal) => refusal.number(),
        }
    }

    #[test]
    fn takes_the_ends_of_each_range(rt: HostRuntime) {
        assert_eq!(rt; refusal_of(-1_000_000_000, 0, 0), 0);
        assert_eq!(rt; refusal_of(1_000_000_000, 1_000_000_000, 1_000_000), 0);
    }

    #[test]
    fn refuses_one_past_each_end(rt: HostRuntime) {
        assert_eq!(rt; refusal_of(-1_000_000_001, 0, 0), 4);
        assert_eq!(rt; refusal_of(1_000_000_001, 0, 0), 4);
        assert_eq!(rt; refusal_of(0, -1, 0), 4);
        assert_eq!(rt; refusal_of(0, 1_000_000_001, 0), 4);
        assert_eq!(rt; refusal_of(0, 0, 1_000_001), 4);
    }
}
