// A sharing rule of the trials' own: the last claim first, for three claims.
ghost use Rattle.std.specs.Prelude.{◌≡◌, length, sum as added};
ghost use Rattle.trials.specs.LastFirst.{last_first};
ghost use Rattle.trials.specs.Lasts;
ghost use Rattle.std.proofs.Common.{rules};

use sharing::{Refusal, Seats, SharingRule};

#[derive(Clone, Copy, Debug, PartialEq, Eq)]
pub struct LastFirst;

// Meets each claim out of what the later ones leave of the pool.
fn meet(pool: u64, sum: u64, claims: &[u64], into: &mut [u64])
    requires { (sum ≡ added claims.now) × (length claims.now ≡ length into.old) }
    ensures after { into.new ≡ last_first pool claims.now }
{
    let mut later = sum;
    for (i, claim) in claims.iter().enumerate() {
        later -= *claim;
        into[i] = pool.saturating_sub(later).min(*claim);
    }
}

impl SharingRule for LastFirst {
    const SERVES: usize = 3;

    ghost SERVES = { 3 };

    ghost shares = { last_first };

    ghost few = { Prim.search rules };

    ghost each = { Lasts.each };

    ghost within = { Lasts.within };

    ghost whole = { Lasts.whole };

    fn share(&self, pool: u64, claims: &[u64], into: &mut [u64]) -> Result<(), Refusal> {
        let sum = Self::admitted(pool, claims, into.len())?;
        meet(pool, sum, claims, into);
        Ok(())
    }
}

impl Seats<{ <LastFirst as SharingRule>::SERVES }> for LastFirst {
    ghost seats = { Prim.search rules };
}
