// What a sharing rule is, and the test of what is handed to one.
ghost use Rattle.std.specs.Prelude.{◌≡◌, ℕ, ◌≤◌, min, List, length, is_ok, IfOk, if◌then◌else◌, Some, None, sum, nat_le, slice_index};
ghost use Rattle.sharing.specs.Refusal.{RefusedUnless, refusal};
ghost use Rattle.sharing.specs.Rule.{Shareable, most_cents};

use crate::refusal::Refusal;

// The most that a pool, or all claims together, may come to, in cents.
pub const MOST_CENTS: u64 = 2_000_000_000;

pub trait SharingRule {
    // how many claims the rule serves
    const SERVES: usize;

    ghost SERVES: { ℕ };

    // from a pool and claims to the share of each claim
    ghost shares: { ℕ → List ℕ → List ℕ };

    fn served() -> usize
        ensures value { result ≡ SERVES }
    {
        Self::SERVES
    }

    // What the claims come to, where the rule takes them with this pool and so many places for shares.
    fn admitted(pool: u64, claims: &[u64], places: usize) -> Result<u64, Refusal>
        ensures cases { RefusedUnless (Shareable SERVES pool claims.now places) 19 (refusal result) }
        ensures value { IfOk result (λ total. total ≡ sum claims.now) }
    {
        if claims.len() != places || claims.len() > Self::SERVES || pool > MOST_CENTS {
            return Err(Refusal::Unshareable);
        }
        total(claims).ok_or(Refusal::Unshareable)
    }

    // Writes the share of each claim into `into`, or refuses and leaves it.
    fn share(&self, pool: u64, claims: &[u64], into: &mut [u64]) -> Result<(), Refusal>
        ensures cases { RefusedUnless (Shareable SERVES pool claims.now (length into.old)) 19 (refusal result) }
        ensures after { into.new ≡ (if is_ok result then shares pool claims.now else into.old) };

    ghost few: { (1 ≤ SERVES) × (SERVES ≤ 64) };

    ghost each: { (pool : ℕ) (claims : List ℕ) → length (shares pool claims) ≡ length claims };

    ghost within: { (pool : ℕ) (claims : List ℕ) (i : ℕ) → slice_index (shares pool claims) i ≤ slice_index claims i };

    ghost whole: { (pool : ℕ) (claims : List ℕ) → sum (shares pool claims) ≡ min pool (sum claims) };
}

// A rule by how many claims it serves, for code that has to name the number.
pub trait Seats<const N: usize>: SharingRule {
    ghost seats: { Self.SERVES ≡ N };
}

// The sum of the claims, where it keeps the limit.
fn total(claims: &[u64]) -> Option<u64>
    ensures value { result ≡ (if nat_le (sum claims.now) most_cents then Some (sum claims.now) else None) }
{
    claims.iter().try_fold(
        0u64,
        |sum, claim| sum.checked_add(*claim).filter(|sum| *sum <= MOST_CENTS),
    )
}
