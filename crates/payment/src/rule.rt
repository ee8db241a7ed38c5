// What a payment rule is and owes, and whole, the rule at the bottom of every pile.
ghost use Rattle.std.specs.Prelude.{◌≡◌, List, [], ℤ};
ghost use Rattle.payment.specs.Rule.{AllKept, Between, Limit, Owed, pays_whole};
ghost use Rattle.payment.specs.Stand.{InRange, Stand};
ghost use Rattle.payment.specs.Standing.{view};
ghost use Rattle.std.proofs.Common.{rules};

use crate::standing::Standing;

pub trait PaymentRule {
    // from a standing and a total to what is paid: to the holder above zero, from it below
    ghost pays: { Stand → ℤ → ℤ };

    // the floors and caps in the rule
    ghost limits: { List Limit };

    fn pay(&self, standing: &Standing, total: i64) -> i64
        ensures value { result ≡ pays (view standing.now) total };

    ghost owes: { (s : Stand) (total : ℤ) → InRange s → Owed limits s total (pays s total) };
}

// What any pile pays, with the law that it owes.
pub fn payment<P: PaymentRule>(pile: &P, standing: &Standing, total: i64) -> i64
    ensures value { result ≡ P.PaymentRule.pays (view standing.now) total }
    ensures between { Between total result }
    ensures kept { AllKept P.PaymentRule.limits (view standing.now) result }
{
    pile.pay(standing, total)
}

#[derive(Clone, Copy, Debug, PartialEq, Eq)]
pub struct Whole;

impl PaymentRule for Whole {
    ghost pays = { pays_whole };

    ghost limits = { [] };

    ghost owes = { Prim.search rules };

    fn pay(&self, _standing: &Standing, total: i64) -> i64 {
        total
    }
}
