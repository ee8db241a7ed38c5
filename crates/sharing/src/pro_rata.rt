// Pro rata by cumulative rounding.
ghost use Rattle.std.specs.Prelude.{◌≡◌, ◌*◌, ◌/◌, ◌≤◌, true, length, is_ok, if◌then◌else◌, sum as added};
ghost use Rattle.sharing.specs.ProRata.{pro_rata, NoCentLost, WithinACent};
ghost use Rattle.sharing.specs.Refusal.{RefusedUnless, refusal};
ghost use Rattle.sharing.specs.Rule.{most_cents, Shareable};
ghost use Rattle.sharing.specs.Quotients;
ghost use Rattle.std.proofs.Common.{rules};

use crate::refusal::Refusal;
use crate::rule::{Seats, SharingRule};

#[derive(Clone, Copy, Debug, PartialEq, Eq)]
pub struct ProRata;

// The part of the claims that come to `reached`, rounded down, where `spent` is shared among claims that come to `sum`.
fn quotient(spent: u64, reached: u64, sum: u64) -> u64
    requires spent { spent ≤ most_cents }
    requires reached { reached ≤ most_cents }
    ensures value { result ≡ spent * reached / sum }
{
    if sum == 0 { 0 } else { spent * reached / sum }
}

// Writes each share as the difference of two quotients.
fn allot(pool: u64, sum: u64, claims: &[u64], into: &mut [u64])
    requires sum { sum ≡ added claims.now }
    requires limit { sum ≤ most_cents }
    requires places { length claims.now ≡ length into.old }
    ensures after { into.new ≡ pro_rata pool claims.now }
{
    let spent = pool.min(sum);
    let mut reached = 0;
    let mut allotted = 0;
    for (i, claim) in claims.iter().enumerate() {
        reached += *claim;
        let up_to = quotient(spent, reached, sum);
        into[i] = up_to - allotted;
        allotted = up_to;
    }
}

impl SharingRule for ProRata {
    const SERVES: usize = 64;

    ghost SERVES = { 64 };

    ghost shares = { pro_rata };

    ghost few = { Prim.search rules };

    ghost each = { Quotients.each };

    ghost within = { Quotients.within };

    ghost whole = { Quotients.whole };

    // Beside what every rule promises: no cent is lost to rounding, and each share is within a cent of its exact part.
    #[tactic(auto, using(crate::specs::Quotients::no_cent_lost, crate::specs::Quotients::within_a_cent))]
    fn share(&self, pool: u64, claims: &[u64], into: &mut [u64]) -> Result<(), Refusal>
        ensures cases { RefusedUnless (Shareable 64 pool claims.now (length into.old)) 19 (refusal result) }
        ensures after { into.new ≡ (if is_ok result then pro_rata pool claims.now else into.old) }
        ensures rounding { is_ok result ≡ true → NoCentLost pool claims.now into.new }
        ensures exact { is_ok result ≡ true → WithinACent pool claims.now into.new }
    {
        let sum = Self::admitted(pool, claims, into.len())?;
        allot(pool, sum, claims, into);
        Ok(())
    }
}

impl Seats<{ <ProRata as SharingRule>::SERVES }> for ProRata {
    ghost seats = { Prim.search rules };
}
