// The work of a month, step by step, as it is printed.
ghost use Rattle.std.specs.Prelude.{◌≡◌, ◌-◌, ◌-ℤ◌, IfOk, sum};
ghost use Rattle.payment.specs.Rule.{Between};

use crate::entry::Due;
use crate::input::Month;
use payment::standard_payment;
use sharing::{ByRank, ProRata, Refusal, SharingRule};
use std::io;

// The shares of the claims by a rule, in a list with a place for each.
fn shares_of<R: SharingRule>(
    rule: &R,
    pool: u64,
    claims: &[u64],
    mut places: Vec<u64>,
) -> Result<Vec<u64>, Refusal>
    ensures value { IfOk result (λ shares. shares.items ≡ R.SharingRule.shares pool claims.now) }
{
    rule.share(pool, claims, places.as_mut_slice())?;
    Ok(places)
}

// What of a pool the shares leave.
fn residue(pool: u64, shares: &[u64]) -> u64
    ensures value { result ≡ pool - sum shares.now }
{
    let mut left = pool;
    for share in shares {
        left = left.saturating_sub(*share);
    }
    left
}

fn print_claims(rt: &HostRuntime, claims: &[u64], parts: &[u64], ranked: &[u64]) -> io::Result<()> {
    for ((claim, part), rank) in claims.iter().zip(parts).zip(ranked) {
        println!(rt; "claim {claim}: pro rata {part}, by rank {rank}")?;
    }
    Ok(())
}

// What of a total is not paid now.
fn carried(total: i64, paid: i64) -> i64
    requires { Between total paid }
    ensures value { result ≡ total -ℤ paid }
{
    total - paid
}

fn print_due(rt: &HostRuntime, due: &Due) -> io::Result<()> {
    let award = due.standing.award();
    let cap_base = due.standing.cap_base();
    let commitment = due.standing.commitment();
    let mark = u64::from(due.standing.mark());
    let total = due.total;
    let paid = standard_payment(&due.standing, total);
    let carried = carried(total, paid);
    println!(rt;
        "award {award}, cap base {cap_base}, {commitment} kW, mark {mark}: of {total} paid {paid}, carried {carried}"
    )
}

fn print_refused(rt: &HostRuntime, pool: u64, why: Refusal) -> anyhow::Result<()> {
    let number = why.number();
    println!(rt; "the pool of {pool} cannot be shared (refusal {number}); nothing is worked")?;
    Ok(())
}

pub fn print_month(rt: &HostRuntime, month: &Month) -> anyhow::Result<()> {
    let pool = month.pool;
    let claims = month.claims.as_slice();
    // The second list is made when the first is shared: a month that is refused holds one list at a time.
    let places = vec![in rt.alloc(); 0; claims.len()]?;
    let parts = match shares_of(&ProRata, pool, claims, places) {
        Ok(parts) => parts,
        Err(why) => return print_refused(rt, pool, why),
    };
    let places = vec![in rt.alloc(); 0; claims.len()]?;
    let ranked = match shares_of(&ByRank, pool, claims, places) {
        Ok(ranked) => ranked,
        Err(why) => return print_refused(rt, pool, why),
    };
    println!(rt; "pool {pool}")?;
    print_claims(rt, claims, &parts, &ranked)?;
    let left_pro_rata = residue(pool, &parts);
    let left_by_rank = residue(pool, &ranked);
    println!(rt; "residue: pro rata {left_pro_rata}, by rank {left_by_rank}")?;
    for due in &month.dues {
        print_due(rt, due)?;
    }
    Ok(())
}
