// Piles: a layer over a payment rule is a payment rule again. The standard pile is one of them.
ghost use Rattle.std.specs.Prelude.{◌≡◌, ◌++◌};
ghost use Rattle.payment.specs.Pile.{over, standard, standard_limits, standard_pile};
ghost use Rattle.payment.specs.Rule.{AllKept, Between};
ghost use Rattle.payment.specs.Standing.{view};
ghost use Rattle.payment.specs.Piles.{owed_over};

use crate::layers::{Cap, Floor, Layer, Withhold};
use crate::rule::{PaymentRule, Whole, payment};
use crate::standing::Standing;

#[derive(Clone, Copy, Debug, PartialEq, Eq)]
pub struct Over<L, P> {
    layer: L,
    below: P,
}

impl<L, P> Over<L, P> {
    pub fn new(layer: L, below: P) -> Over<L, P>
        ensures value { (result.layer ≡ layer) × (result.below ≡ below) }
    {
        Over { layer, below }
    }
}

impl<L: Layer, P: PaymentRule> PaymentRule for Over<L, P> {
    ghost pays = { over L.Layer.turns P.PaymentRule.pays };

    ghost limits = { L.Layer.adds ++ P.PaymentRule.limits };

    ghost owes = { λ s total ranged.
        let below = P.PaymentRule.pays s total in
        owed_over _ _ s total below _ ranged
        (P.PaymentRule.owes s total ranged)
        (L.Layer.shrinks s below ranged)
        (L.Layer.keeps s below ranged) };

    fn pay(&self, standing: &Standing, total: i64) -> i64 {
        let below = self.below.pay(standing, total);
        self.layer.turn(standing, below)
    }
}

// Withhold on cap on floor on whole.
pub type StandardPile = Over<Withhold, Over<Cap, Over<Floor, Whole>>>;

pub fn standard_pile() -> StandardPile
    ensures value { result ≡ standard_pile }
{
    Over::new(Withhold, Over::new(Cap, Over::new(Floor, Whole)))
}

// What the standard pile pays.
pub fn standard_payment(standing: &Standing, total: i64) -> i64
    ensures value { result ≡ standard (view standing.now) total }
    ensures between { Between total result }
    ensures kept { AllKept standard_limits (view standing.now) result }
{
    payment(&standard_pile(), standing, total)
}

#[cfg(test)]
mod tests {
    use super::*;
    use crate::mark::Mark;
    use std::test::Fail;

    #[test]
    fn standard_pile_pays_its_figures(rt: HostRuntime) -> Result<(), Fail> {
        let ready = Standing::new(400, 400, 500, Mark::Ready)?;
        let owing = Standing::new(-400, 0, 500, Mark::Ready)?;
        let waiting = Standing::new(400, 400, 500, Mark::ReadyNext)?;
        assert_eq!(rt; standard_payment(&ready, 800), 800);
        assert_eq!(rt; standard_payment(&ready, 801), 800);
        assert_eq!(rt; standard_payment(&ready, -1), 0);
        assert_eq!(rt; standard_payment(&owing, -450), -450);
        assert_eq!(rt; standard_payment(&owing, 30), 30);
        assert_eq!(rt; standard_payment(&waiting, 500), 0);
        Ok(())
    }

    #[test]
    fn pile_without_floor_lets_the_holder_pay(rt: HostRuntime) -> Result<(), Fail> {
        let pile = Over::new(Cap, Over::new(Withhold, Whole));
        let ready = Standing::new(400, 400, 500, Mark::Ready)?;
        let waiting = Standing::new(400, 400, 500, Mark::NotReady)?;
        assert_eq!(rt; payment(&pile, &ready, i64::MAX), 800);
        assert_eq!(rt; payment(&pile, &ready, i64::MIN), i64::MIN);
        assert_eq!(rt; payment(&pile, &waiting, 500), 0);
        assert_eq!(rt; payment(&pile, &waiting, -100), -100);
        Ok(())
    }

    #[test]
    fn pile_with_two_floors_limits_awards_from_zero_up(rt: HostRuntime) -> Result<(), Fail> {
        let pile = Over::new(
            Floor,
            Over::new(Cap, Over::new(Floor, Over::new(Withhold, Whole))),
        );
        let none = Standing::new(0, 0, 0, Mark::NotReady)?;
        let uncommitted = Standing::new(-1, 400, 0, Mark::NotReady)?;
        let waiting = Standing::new(-1, 400, 1, Mark::NotReady)?;
        assert_eq!(rt; payment(&pile, &none, i64::MAX), 0);
        assert_eq!(rt; payment(&pile, &none, i64::MIN), 0);
        assert_eq!(rt; payment(&pile, &uncommitted, 900), 900);
        assert_eq!(rt; payment(&pile, &waiting, 900), 0);
        assert_eq!(rt; payment(&pile, &waiting, -900), -900);
        Ok(())
    }
}
