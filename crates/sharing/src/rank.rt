// By rank: claims are met in list order.
ghost use Rattle.std.specs.Prelude.{◌≡◌, true, length, is_ok, if◌then◌else◌};
ghost use Rattle.sharing.specs.Rank.{by_rank, EarlierFirst};
ghost use Rattle.sharing.specs.Refusal.{RefusedUnless, refusal};
ghost use Rattle.sharing.specs.Rule.{Shareable};
ghost use Rattle.sharing.specs.Ranks;
ghost use Rattle.std.proofs.Common.{rules};

use crate::refusal::Refusal;
use crate::rule::{Seats, SharingRule};

#[derive(Clone, Copy, Debug, PartialEq, Eq)]
pub struct ByRank;

// Meets each claim out of what is left of the pool.
fn meet(pool: u64, claims: &[u64], into: &mut [u64])
    requires { length claims.now ≡ length into.old }
    ensures after { into.new ≡ by_rank pool claims.now }
{
    let mut left = pool;
    for (i, claim) in claims.iter().enumerate() {
        let met = left.min(*claim);
        into[i] = met;
        left -= met;
    }
}

impl SharingRule for ByRank {
    const SERVES: usize = 64;

    ghost SERVES = { 64 };

    ghost shares = { by_rank };

    ghost few = { Prim.search rules };

    ghost each = { Ranks.each };

    ghost within = { Ranks.within };

    ghost whole = { Ranks.whole };

    // Beside what every rule promises: a claim gets something only if every earlier claim is met in full.
    #[tactic(auto, using(crate::specs::Ranks::earlier_first))]
    fn share(&self, pool: u64, claims: &[u64], into: &mut [u64]) -> Result<(), Refusal>
        ensures cases { RefusedUnless (Shareable 64 pool claims.now (length into.old)) 19 (refusal result) }
        ensures after { into.new ≡ (if is_ok result then by_rank pool claims.now else into.old) }
        ensures order { is_ok result ≡ true → EarlierFirst claims.now into.new }
    {
        Self::admitted(pool, claims, into.len())?;
        meet(pool, claims, into);
        Ok(())
    }
}

impl Seats<{ <ByRank as SharingRule>::SERVES }> for ByRank {
    ghost seats = { Prim.search rules };
}
